// Rows of an account.
ghost use Rattle.std.specs.Prelude.{◌≡◌};
ghost use Rattle.rows.specs.Accounts.{is_of as is_of_account};

use crate::Account;
use crate::fields::Fields;

// Whether fields are those of a statement row of an account.
pub fn is_of(fields: &Fields, account: &Account) -> bool
    ensures { result ≡ is_of_account account.now fields.now }
{
    match fields {
        Fields::Movement(_) => false,
        // as slices, which are told apart by their first bytes, where arrays are compared whole
        Fields::Statement(statement) => statement.account.as_slice() == account.as_slice(),
    }
}
