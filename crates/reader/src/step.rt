// One record after the other.
ghost use Rattle.std.specs.Prelude.{◌≡◌, ◌+◌, ◌<◌, ◌≤◌, Ok};
ghost use Rattle.grammar.specs.Steps.{take_kind, take_values, with_form, told, step, ended};
ghost use Rattle.reader.specs.Means.{means, place_of, meant, Stepped};

use crate::state::{Standing, State};
use crate::taking::{Taking, rule};
use grammar::{Counts, Expect, FileFault, RecordFault, StatementFault};
use layout::{Kind, first_misformed, kind_of};
use order::{may_come, may_end};
use recordbytes::{RecordBytes, first_forbidden};
use refusals::statement_position;

// The kind of a record with no forbidden byte.
fn told(bytes: &RecordBytes) -> Result<Kind, RecordFault>
    ensures { result ≡ told bytes.now }
{
    match first_forbidden(bytes) {
        Some(place) => Err(RecordFault::Forbidden(place + 1)),
        None => kind_of(bytes).ok_or(RecordFault::Unknown),
    }
}

// The fault further left; of two at one position, that of the form.
fn with_form(
    misformed: Option<usize>,
    taken: Result<Standing, StatementFault>,
) -> Result<Standing, StatementFault>
    ensures { meant result ≡ with_form misformed (meant taken) }
{
    match (misformed, taken) {
        (None, taken) => taken,
        (Some(start), Err(fault)) if statement_position(fault) < start => Err(fault),
        (Some(start), _) => Err(StatementFault::Record(RecordFault::Misformed(start))),
    }
}

impl Taking<'_> {
    // What a record of a kind that may come does: a match and no table of closures, since each kind has its own contract.
    fn take_kind(&self, kind: Kind) -> Result<Standing, StatementFault>
        ensures { meant result ≡ take_kind (place_of self.now.standing.now) kind self.now.bytes.now }
    {
        match kind {
            Kind::Header => Ok(self.behind_header()),
            Kind::OldBalance => Ok(self.behind_old_balance()),
            Kind::Movement => self.take_movement(),
            Kind::MovementSecond | Kind::Counterparty => self.take_repeat(Expect::Counterparty),
            Kind::Information => self.take_information(),
            Kind::InformationSecond | Kind::InformationThird => {
                self.take_repeat(Expect::InformationThird)
            }
            Kind::NewBalance => self.take_new_balance(),
            Kind::FreeCommunication => self.take_communication(),
            Kind::Trailer => self.take_trailer(),
        }
    }

    // The values of a record, its forms aside.
    fn take_values(&self, kind: Kind) -> Result<Standing, StatementFault>
        ensures { meant result ≡ take_values (place_of self.now.standing.now) kind self.now.bytes.now }
    {
        rule(
            may_come(self.standing.expect, kind),
            StatementFault::Misplaced,
        )?;
        self.take_kind(kind)
    }

    fn take(&self) -> Result<Standing, StatementFault>
        ensures { meant result ≡ step (place_of self.now.standing.now) self.now.bytes.now }
    {
        let kind = told(self.bytes)?;
        with_form(first_misformed(kind, self.bytes), self.take_values(kind))
    }
}

impl State {
    // Takes a record, or refuses it and stays where it was.
    pub(crate) fn step(&mut self, bytes: &RecordBytes) -> Result<(), StatementFault>
        requires { self.old.read < 1000000 }
        ensures steps { Stepped (means self.old) (step (means self.old) bytes.now) (means self.new) result }
        ensures read { self.new.read ≤ self.old.read + 1 }
    {
        let taking = Taking {
            standing: &self.standing,
            bytes,
        };
        let standing = taking.take()?;
        *self = State {
            standing,
            read: self.read + 1,
        };
        Ok(())
    }

    // The counts of a file that may end here.
    pub(crate) fn end(&self, slots: usize) -> Result<Counts, FileFault>
        ensures { result ≡ ended slots (Ok (means self.now)) }
    {
        if may_end(self.standing.expect) {
            return Ok(Counts {
                statements: self.standing.statements,
                movements: self.standing.movements,
            });
        }
        Err(FileFault::EndsEarly(slots))
    }
}
