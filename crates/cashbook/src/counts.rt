// The type of a book's numbers.
ghost use Rattle.std.specs.Prelude.{◌+◌, ◌≤◌};
ghost use Rattle.std.specs.Option.{unwrap_or};

mod calls;
mod numbers;

// Room for so many rows, so many kept rows, and no batch or a batch of so many rows.
#[derive(Clone, Copy, Debug, PartialEq, Eq)]
pub struct Counts {
    capacity: u32,
    kept: u32,
    batch: Option<u32>,
    ghost small: { capacity ≤ 100000 },
    ghost room: { kept + unwrap_or batch 0 ≤ capacity },
}
