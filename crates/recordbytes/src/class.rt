// Classes of bytes.
ghost use Rattle.std.specs.Prelude.{◌≡◌, ℕ, Bool};
ghost use Rattle.recordbytes.specs.Classes.{is_digit, is_space, is_plain};

// A class of bytes, by its test.
pub trait ByteClass {
    ghost has: { ℕ → Bool };

    fn contains(byte: u8) -> bool
        ensures { result ≡ has byte };
}

// The digits 0 to 9.
pub struct Digit;

impl ByteClass for Digit {
    ghost has = { is_digit };

    fn contains(byte: u8) -> bool {
        byte >= b'0' && byte <= b'9'
    }
}

// The space.
pub struct Space;

impl ByteClass for Space {
    ghost has = { is_space };

    fn contains(byte: u8) -> bool {
        byte == b' '
    }
}

// What may stand in a record: no byte below 32, and not byte 127.
pub struct Plain;

impl ByteClass for Plain {
    ghost has = { is_plain };

    fn contains(byte: u8) -> bool {
        byte >= 32 && byte != 127
    }
}
