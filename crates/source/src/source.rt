// What a source is, and what fetching a slot of it answers.
ghost use Rattle.std.specs.Prelude.{◌≡◌, List, length};
ghost use Rattle.std.specs.List.{AllByRecursion};
ghost use Rattle.source.specs.Slots.{Slot, Sound, slot_at};
ghost use Rattle.source.specs.Fetching.{answer, left_in};

use recordbytes::RecordBytes;
use std::fmt;

// The cause of a slot that has fewer bytes than a record.
pub const TOO_SHORT: u8 = 1;

// The cause of a slot that has more bytes than a record.
pub const TOO_LONG: u8 = 2;

// What is wrong with a slot that holds no record: a number from 1 to 255, which a source of any make gives its damages.
#[derive(Clone, Copy, PartialEq, Eq, Debug)]
pub struct Damage {
    pub cause: u8,
}

impl fmt::Display for Damage {
    fn fmt<W: fmt::Write>(&self, f: &mut fmt::Formatter<W>) -> fmt::Result {
        f.write_str(match self.cause {
            TOO_SHORT => "shorter than a record",
            TOO_LONG => "longer than a record",
            _ => "damaged",
        })
    }
}

// Why fetching a slot gives no record.
#[derive(Clone, Copy, PartialEq, Eq, Debug)]
pub enum NoRecord {
    Damaged(Damage),
    Absent,
}

// A list of slots, numbered from 1.
pub trait Source {
    // What the source means.
    ghost slots: { Self → List Slot };

    // Every slot holds 128 bytes, or a damage with a cause from 1 to 255.
    ghost sound: { (s : Self) → AllByRecursion Sound (slots s) };

    // The number of slots.
    fn count(&self) -> usize
        ensures { result ≡ length (slots self.now) };

    // Puts the record of slot `n` into the caller's bytes, by a rule of the project; where there is none, they stay as they are.
    fn fetch(&mut self, n: usize, out: &mut RecordBytes) -> Result<(), NoRecord>
        ensures answers { result ≡ answer (slot_at (slots self.old) n) }
        ensures writes { out.new ≡ left_in (slot_at (slots self.old) n) out.old }
        ensures same { slots self.new ≡ slots self.old };
}
