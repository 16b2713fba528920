// What holds of the bytes of rows, on the contract of a function that does nothing.
ghost use Rattle.rowbytes.specs.RowBytes.{RowsReadBack};

// A row is read back as it was written.
pub fn rows_read_back()
    ensures { RowsReadBack }
{}
