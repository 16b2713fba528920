// The type of a day of the calendar.
ghost use Rattle.std.specs.Prelude.{◌≡◌, true};
ghost use Rattle.values.specs.Days.{is_day};

mod methods;

// A day of the calendar, held as its six bytes DDMMYY.
#[derive(Clone, Copy, PartialEq, Eq, Debug)]
pub struct Day {
    bytes: [u8; 6],
    ghost real: { is_day bytes ≡ true },
}
