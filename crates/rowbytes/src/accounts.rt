// Whose statement the bytes of a row are.
ghost use Rattle.std.specs.Prelude.{◌≡◌};
ghost use Rattle.rowbytes.specs.RowBytes.{is_statement_of};

use crate::STATEMENT;
use recordbytes::span;
use rows::Account;

// Whether the bytes begin as a statement row of the account does.
pub fn is_statement_of(bytes: &[u8], account: &Account) -> bool
    ensures { result ≡ is_statement_of account.now bytes.now }
{
    bytes.first() == Some(&STATEMENT) && span(bytes, 2, 39) == account.as_slice()
}
