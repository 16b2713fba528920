// A record as one of eleven cases. Its fields are parts of the bytes that were fetched: all but those
// with fixed bytes and those with spaces. Positions are counted from 1.

// 0: the header of a statement.
#[derive(Clone, Copy, PartialEq, Eq, Debug)]
pub struct Header<'a> {
    // 6-11: the day on which the file was made
    pub creation_day: &'a [u8],
    // 12-14: the bank's number, or zeros
    pub bank: &'a [u8],
    // 17: D for a duplicate, else a space
    pub duplicate: &'a [u8],
    // 25-71: the file's reference, the addressee's name and the bank's BIC
    pub addressee: &'a [u8],
    // 72-82: the account holder's number
    pub holder: &'a [u8],
    // 89-120: the reference of the statement and of a related one
    pub references: &'a [u8],
}

// 1: the old balance.
#[derive(Clone, Copy, PartialEq, Eq, Debug)]
pub struct OldBalance<'a> {
    // 2: how the account is numbered, 0 to 3
    pub structure: &'a [u8],
    // 3-5: the number of the statement on paper
    pub paper_number: &'a [u8],
    // 6-42: the account and its currency
    pub account: &'a [u8],
    // 43
    pub sign: &'a [u8],
    // 44-58: in thousandths
    pub balance: &'a [u8],
    // 59-64
    pub day: &'a [u8],
    // 65-125: the holder's name and the account's description
    pub holder: &'a [u8],
    // 126-128: the number of the coded statement
    pub statement_number: &'a [u8],
}

// 2.1: a movement.
#[derive(Clone, Copy, PartialEq, Eq, Debug)]
pub struct Movement<'a> {
    // 3-6: the sequence number
    pub sequence: &'a [u8],
    // 7-10: the detail number
    pub detail: &'a [u8],
    // 11-31: the bank's reference
    pub reference: &'a [u8],
    // 32
    pub sign: &'a [u8],
    // 33-47: in thousandths
    pub amount: &'a [u8],
    // 48-53: zeros where it is not known
    pub value_day: &'a [u8],
    // 54-61: the transaction code; its first digit is the type
    pub code: &'a [u8],
    // 62: 1 for a structured communication
    pub structured: &'a [u8],
    // 63-115
    pub communication: &'a [u8],
    // 116-121
    pub entry_day: &'a [u8],
    // 122-124: the number of the statement on paper
    pub paper_number: &'a [u8],
    // 125: the globalisation level
    pub level: &'a [u8],
    // 126: 1 where a 2.2 or 2.3 follows
    pub next: &'a [u8],
    // 128: 1 where an information record follows
    pub link: &'a [u8],
}

// 2.2: the second part of a movement.
#[derive(Clone, Copy, PartialEq, Eq, Debug)]
pub struct MovementSecond<'a> {
    // 3-6
    pub sequence: &'a [u8],
    // 7-10
    pub detail: &'a [u8],
    // 11-109: the communication, the customer's reference and the BIC of the counterparty's bank
    pub communication: &'a [u8],
    // 118-125
    pub purpose: &'a [u8],
    // 126: 1 where a 2.3 follows
    pub next: &'a [u8],
    // 128
    pub link: &'a [u8],
}

// 2.3: the counterparty of a movement.
#[derive(Clone, Copy, PartialEq, Eq, Debug)]
pub struct Counterparty<'a> {
    // 3-6
    pub sequence: &'a [u8],
    // 7-10
    pub detail: &'a [u8],
    // 11-47
    pub account: &'a [u8],
    // 48-82
    pub name: &'a [u8],
    // 83-125
    pub communication: &'a [u8],
    // 128
    pub link: &'a [u8],
}

// 3.1: information on a movement.
#[derive(Clone, Copy, PartialEq, Eq, Debug)]
pub struct Information<'a> {
    // 3-6
    pub sequence: &'a [u8],
    // 7-10
    pub detail: &'a [u8],
    // 11-31: that of the movement
    pub reference: &'a [u8],
    // 32-39
    pub code: &'a [u8],
    // 40
    pub structured: &'a [u8],
    // 41-113
    pub communication: &'a [u8],
    // 126: 1 where a 3.2 follows
    pub next: &'a [u8],
    // 128
    pub link: &'a [u8],
}

// 3.2: the second part of an information record.
#[derive(Clone, Copy, PartialEq, Eq, Debug)]
pub struct InformationSecond<'a> {
    // 3-6
    pub sequence: &'a [u8],
    // 7-10
    pub detail: &'a [u8],
    // 11-115
    pub communication: &'a [u8],
    // 126: 1 where a 3.3 follows
    pub next: &'a [u8],
    // 128
    pub link: &'a [u8],
}

// 3.3: the third part of an information record.
#[derive(Clone, Copy, PartialEq, Eq, Debug)]
pub struct InformationThird<'a> {
    // 3-6
    pub sequence: &'a [u8],
    // 7-10
    pub detail: &'a [u8],
    // 11-100
    pub communication: &'a [u8],
    // 128
    pub link: &'a [u8],
}

// 8: the new balance.
#[derive(Clone, Copy, PartialEq, Eq, Debug)]
pub struct NewBalance<'a> {
    // 2-4: the number of the statement on paper
    pub paper_number: &'a [u8],
    // 5-41: the account and its currency
    pub account: &'a [u8],
    // 42
    pub sign: &'a [u8],
    // 43-57: in thousandths
    pub balance: &'a [u8],
    // 58-63
    pub day: &'a [u8],
    // 128: 1 where a free communication follows
    pub link: &'a [u8],
}

// 4: a free communication.
#[derive(Clone, Copy, PartialEq, Eq, Debug)]
pub struct FreeCommunication<'a> {
    // 3-6
    pub sequence: &'a [u8],
    // 7-10
    pub detail: &'a [u8],
    // 33-112
    pub text: &'a [u8],
    // 128: 1 where another free communication follows
    pub link: &'a [u8],
}

// 9: the trailer of a statement.
#[derive(Clone, Copy, PartialEq, Eq, Debug)]
pub struct Trailer<'a> {
    // 17-22: the number of records 1, 2, 3 and 8
    pub count: &'a [u8],
    // 23-37: the sum of the debits, in thousandths
    pub debits: &'a [u8],
    // 38-52: the sum of the credits, in thousandths
    pub credits: &'a [u8],
    // 128: 1 where another statement follows, 2 at the last
    pub follows: &'a [u8],
}

#[derive(Clone, Copy, PartialEq, Eq, Debug)]
pub enum Record<'a> {
    Header(Header<'a>),
    OldBalance(OldBalance<'a>),
    Movement(Movement<'a>),
    MovementSecond(MovementSecond<'a>),
    Counterparty(Counterparty<'a>),
    Information(Information<'a>),
    InformationSecond(InformationSecond<'a>),
    InformationThird(InformationThird<'a>),
    NewBalance(NewBalance<'a>),
    FreeCommunication(FreeCommunication<'a>),
    Trailer(Trailer<'a>),
}
