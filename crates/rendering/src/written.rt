// Records written from their parts.
ghost use Rattle.rendering.specs.Rendering.{RecordsAreWritten};

// A record is written from a part for each field, and what is of a layout's form is of its kind.
pub fn records_are_written()
    ensures { RecordsAreWritten }
{}
