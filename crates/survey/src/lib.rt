// What the slots of a source hold, counted by sort.
#![tactic(auto)]

ghost use Rattle.std.specs.Prelude.{◌≡◌, ◌+◌, ◌^◌, ◌<◌, if◌then◌else◌, ◌≢◌, Err};
ghost use Rattle.source.specs.declared.source.NoRecord.TheVariants.{Absent};
ghost use Rattle.survey.specs.declared.Sort.{Sort as SortOf};
ghost use Rattle.survey.specs.Sorts.{is_same, tally, count_in};
ghost use Rattle.survey.specs.Fetches.{fetched_sort};

use layout::{KIND_COUNT, Kind, kind_of};
use recordbytes::{RECORD_LENGTH, RecordBytes};
use source::{NoRecord, Source};

// What a slot holds: a record of a kind, a record of no known kind, or a damage. It is counted by these three,
// which an Option of a kind in a Result would only wrap.
#[derive(Clone, Copy, PartialEq, Eq, Debug)]
pub enum Sort {
    Record(Kind),
    Unknown,
    Damaged,
}

// How many slots are of each sort.
#[derive(Clone, Copy, PartialEq, Eq, Debug)]
pub struct Survey {
    kinds: [usize; KIND_COUNT],
    unknown: usize,
    damaged: usize,
}

impl Survey {
    pub fn count(&self, sort: Sort) -> usize
        ensures { result ≡ count_in self.now sort }
    {
        match sort {
            Sort::Record(kind) => self.kinds[kind as usize],
            Sort::Unknown => self.unknown,
            Sort::Damaged => self.damaged,
        }
    }

    // Counts one slot more.
    fn note(&mut self, sort: Sort)
        requires { count_in self.old sort + 1 < 2 ^ 64 }
        ensures { (other : SortOf) → count_in self.new other ≡ (if is_same sort other then 1 else 0) + count_in self.old other }
    {
        match sort {
            Sort::Record(kind) => self.kinds[kind as usize] += 1,
            Sort::Unknown => self.unknown += 1,
            Sort::Damaged => self.damaged += 1,
        }
    }
}

// The sort of a slot, from what fetching it answered.
fn sort_of(fetched: Result<(), NoRecord>, bytes: &RecordBytes) -> Sort
    requires { fetched ≢ Err Absent }
    ensures { result ≡ fetched_sort fetched bytes.now }
{
    match fetched {
        Ok(()) => kind_of(bytes).map_or(Sort::Unknown, Sort::Record),
        Err(NoRecord::Damaged(_)) => Sort::Damaged,
        Err(NoRecord::Absent) => unreachable!(),
    }
}

// How many slots of a source are of each sort, in one pass.
pub fn survey_of<S: Source>(source: &mut S) -> Survey
    ensures counts { (sort : SortOf) → count_in result sort ≡ tally sort (S.Source.slots source.old) }
    ensures same { S.Source.slots source.new ≡ S.Source.slots source.old }
{
    let mut survey = Survey {
        kinds: [0; KIND_COUNT],
        unknown: 0,
        damaged: 0,
    };
    let mut bytes = [0; RECORD_LENGTH];
    for slot in 1..=source.count() {
        let fetched = source.fetch(slot, &mut bytes);
        survey.note(sort_of(fetched, &bytes));
    }
    survey
}
