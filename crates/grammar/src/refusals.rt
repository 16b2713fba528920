// Which fault a record is refused with.
ghost use Rattle.grammar.specs.Complaints.{RefusalsAreLeast};

// A record is refused with its least complaint, by position and then by number, and taken where there is none.
pub fn refusals_are_least()
    ensures { RefusalsAreLeast }
{}
