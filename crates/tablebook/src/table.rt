// The type of a book on a table.
ghost use Rattle.std.specs.Prelude.{◌≡◌, ◌≤◌, true, length, take};
ghost use Rattle.cashbook.specs.Counting.{figures, used};
ghost use Rattle.cashbook.specs.Meaning.{are_rows};

use crate::memory::Memory;
use cashbook::Counts;

mod calls;
mod make;

// Kept rows first, those of the batch behind them.
#[derive(Drop)]
pub struct TableBook<'a> {
    memory: Memory<'a>,
    counts: Counts,
    ghost kept: { memory.kept ≡ (figures counts).kept },
    ghost backed: { (figures counts).capacity ≤ length memory.rows.now },
    ghost placed: { (figures counts).capacity ≤ length memory.places.now },
    ghost fine: { are_rows (take (used (figures counts)) memory.rows.now) ≡ true },
}
