// Making the source of a packed file.
ghost use Rattle.std.specs.Prelude.{◌≡◌};
ghost use Rattle.source.specs.Packing.{packed};
ghost use Rattle.source.specs.contracts.packed.PackedSource.TheImpl.{ghosts as source};

use super::Packed;

impl<'a> Packed<'a> {
    // The source of the slots of a packed file.
    pub fn new(file: &'a [u8]) -> Self
        ensures { source.slots result ≡ packed file.now }
    {
        Packed { file }
    }
}
