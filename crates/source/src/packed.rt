// A source that cuts a file every 128 bytes.
ghost use Rattle.std.specs.Prelude.{◌≡◌, ◌<◌, [], length, slice_index_or};
ghost use Rattle.source.specs.Packing.{pieces, packed};
ghost use Rattle.source.specs.Judging.{judged_sound};

use crate::deliver::deliver;
use crate::places::place_of;
use crate::source::{NoRecord, Source};
use recordbytes::{RECORD_LENGTH, RecordBytes};

mod make;

// A packed file: records with nothing between them.
#[derive(Drop)]
pub struct Packed<'a> {
    file: &'a [u8],
}

impl<'a> Packed<'a> {
    // The piece that has so many pieces before it.
    fn piece(&self, before: usize) -> &'a [u8]
        requires { before < length (pieces self.now.file.now) }
        ensures { result.now ≡ slice_index_or (pieces self.now.file.now) before [] }
    {
        // by its place, since `chunks(..).nth(..)` walks all pieces before it
        let rest = &self.file[before * RECORD_LENGTH..];
        let stop = rest.len().min(RECORD_LENGTH);
        &rest[..stop]
    }
}

impl Source for Packed<'_> {
    ghost slots = { λ s. packed s.file.now };

    ghost sound = { λ s. judged_sound (pieces s.file.now) };

    fn count(&self) -> usize {
        self.file.len().div_ceil(RECORD_LENGTH)
    }

    fn fetch(&mut self, n: usize, out: &mut RecordBytes) -> Result<(), NoRecord> {
        let place = place_of(n, self.count())?;
        deliver(self.piece(place), out)
    }
}
