// Reading a day, and comparing two.
ghost use Rattle.std.specs.Prelude.{◌≡◌, true};
ghost use Rattle.std.specs.Option.{option_map};
ghost use Rattle.std.specs.Str.{bytes_eq};
ghost use Rattle.values.specs.Days.{is_day, is_earlier, day_read};
ghost use Rattle.values.specs.Held.{day_bytes};

use super::Day;
use crate::calendar::{is_day, is_earlier};

impl Day {
    // The day that the bytes write; none where they are no day of the calendar.
    pub fn read(bytes: &[u8]) -> Option<Day>
        ensures { option_map day_bytes result ≡ day_read bytes.now }
    {
        if !is_day(bytes) {
            return None;
        }
        Some(Day {
            bytes: *bytes.as_array()?,
        })
    }

    // The six bytes, DDMMYY.
    pub fn bytes(&self) -> [u8; 6]
        ensures value { result ≡ day_bytes self.now }
        ensures real { is_day result ≡ true }
    {
        self.bytes
    }

    // Whether this day is before the other. A method and no Ord: the bytes are not in the order of the days, so that
    // no derive gives it, and all laws of Ord by hand would be longer than this one question.
    pub fn is_before(&self, other: &Day) -> bool
        ensures { result ≡ is_earlier (day_bytes self.now) (day_bytes other.now) }
    {
        is_earlier(&self.bytes, &other.bytes)
    }

    // Whether this is the same day as the other: == with a clause that says by which bytes.
    pub fn is_same(&self, other: &Day) -> bool
        ensures { result ≡ bytes_eq (day_bytes self.now) (day_bytes other.now) }
    {
        self == other
    }
}
