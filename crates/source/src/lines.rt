// A source that takes each line of a file for a slot.
ghost use Rattle.std.specs.Prelude.{◌≡◌, ◌+◌, ◌<◌, ◌≤◌, [], length, drop, slice_index_or};
ghost use Rattle.source.specs.Lining.{lines, lined};
ghost use Rattle.source.specs.Judging.{judged_sound};

use self::cut::first_line;
use crate::deliver::deliver;
use crate::places::place_of;
use crate::source::{NoRecord, Source};
use recordbytes::RecordBytes;

mod cut;
mod make;

// A file of lines with a cursor: `rest` is what stands behind the first `passed` of its `count` lines.
#[derive(Drop)]
pub struct Lines<'a> {
    file: &'a [u8],
    count: usize,
    passed: usize,
    rest: &'a [u8],
    ghost counted: { count ≡ length (lines file.now) },
    ghost here: { lines rest.now ≡ drop passed (lines file.now) },
}

impl<'a> Lines<'a> {
    // Moves the cursor past the next line, and gives the line.
    fn pass(&mut self) -> &'a [u8]
        requires { self.old.passed < self.old.count }
        ensures line { result.now ≡ slice_index_or (lines self.old.file.now) self.old.passed [] }
        ensures passed { self.new.passed ≡ self.old.passed + 1 }
        ensures count { self.new.count ≡ self.old.count }
        ensures file { self.new.file.now ≡ self.old.file.now }
    {
        let (line, rest) = first_line(self.rest);
        self.rest = rest;
        self.passed += 1;
        line
    }

    // Moves the cursor behind the first `n` lines.
    fn seek(&mut self, n: usize)
        requires { n ≤ self.old.count }
        ensures passed { self.new.passed ≡ n }
        ensures count { self.new.count ≡ self.old.count }
        ensures file { self.new.file.now ≡ self.old.file.now }
    {
        if n < self.passed {
            self.passed = 0;
            self.rest = self.file;
        }
        for _ in self.passed..n {
            self.pass();
        }
    }
}

impl Source for Lines<'_> {
    ghost slots = { λ s. lined s.file.now };

    ghost sound = { λ s. judged_sound (lines s.file.now) };

    fn count(&self) -> usize {
        self.count
    }

    fn fetch(&mut self, n: usize, out: &mut RecordBytes) -> Result<(), NoRecord> {
        self.seek(place_of(n, self.count)?);
        deliver(self.pass(), out)
    }
}
