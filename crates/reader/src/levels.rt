// The open levels, as a mask with a bit for each of 1 to 9: a set without a heap.
ghost use Rattle.std.specs.Prelude.{◌<◌};

use fields::level;
use recordbytes::RecordBytes;

#[derive(Clone, Copy)]
pub(crate) struct Levels {
    mask: u64,
    ghost bound: { mask < 1024 },
}

impl Levels {
    ghost use Rattle.std.specs.Prelude.{◌≡◌, [], is_some, IfSome};
    ghost use Rattle.grammar.specs.Fields.{level};
    ghost use Rattle.grammar.specs.Places.{none_open, level_fits, levels_behind};
    ghost use Rattle.reader.specs.Levels.{levels_of};

    #[tactic(auto, unfolding(crate::specs::Levels::open_levels))]
    pub(crate) fn none() -> Levels
        ensures { levels_of result ≡ [] }
    {
        Levels { mask: 0 }
    }

    #[tactic(auto, using(crate::proofs::Masks::none_is))]
    pub(crate) fn none_open(self) -> bool
        ensures { result ≡ none_open (levels_of self) }
    {
        self.mask == 0
    }

    // The open levels behind a main movement.
    pub(crate) fn first(bytes: &RecordBytes) -> Levels
        ensures { levels_of result ≡ levels_behind [] (level bytes.now) }
    {
        Levels::none().behind(bytes).unwrap()
    }

    // The open levels behind a record, where its level does nothing, is open, or is above all open ones.
    pub(crate) fn behind(self, bytes: &RecordBytes) -> Option<Levels>
        ensures fits { is_some result ≡ level_fits (levels_of self) (level bytes.now) }
        ensures behind { IfSome result (λ after. levels_of after ≡ levels_behind (levels_of self) (level bytes.now)) }
    {
        let level = level(bytes);
        let bit = 1 << level;
        let mask = if level == 0 {
            self.mask
        } else if self.mask / bit % 2 == 1 {
            self.mask % bit
        } else if self.mask < bit {
            self.mask + bit
        } else {
            return None;
        };
        Some(Levels { mask })
    }
}
