// Where a number or money that is wrong stands: the first position of its field.
pub const SEQUENCE: usize = 3;

pub const ACCOUNT: usize = 5;

pub const DETAIL: usize = 7;

pub const REFERENCE: usize = 11;

pub const COUNT: usize = 17;

pub const DEBIT_SUM: usize = 23;

pub const AMOUNT: usize = 33;

pub const CREDIT_SUM: usize = 38;

pub const NEW_BALANCE: usize = 43;

pub const TYPE: usize = 54;

pub const LEVEL: usize = 125;

// the link code; the next code stands two positions before
pub const CODES: usize = 128;
