// Making the source of a file of lines.
ghost use Rattle.std.specs.Prelude.{◌≡◌};
ghost use Rattle.source.specs.Lining.{lined};
ghost use Rattle.source.specs.contracts.lines.LinesSource.TheImpl.{ghosts as source};

use super::Lines;
use super::cut::count_lines;

impl<'a> Lines<'a> {
    // The source of the slots of a file of lines.
    pub fn new(file: &'a [u8]) -> Self
        ensures { source.slots result ≡ lined file.now }
    {
        let count = count_lines(file);
        Lines {
            file,
            count,
            passed: 0,
            rest: file,
        }
    }
}
