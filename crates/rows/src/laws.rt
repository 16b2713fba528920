// What holds of rows, on the contract of a function that does nothing.
ghost use Rattle.rows.specs.Held.{RowsHold};

// A Row holds the fields of a row, and what it holds tells it apart.
pub fn rows_hold()
    ensures { RowsHold }
{}
