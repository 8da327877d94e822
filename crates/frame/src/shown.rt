// A line as text: a digit for each bit.
ghost use Rattle.std.specs.Prelude.{◌≡◌, [], ◌∷◌, Some, encode_utf8};
ghost use Rattle.frame.specs.Contents.{line_bits};
ghost use Rattle.frame.specs.Digits.{digit, digits};

use crate::line::Line;
use std::fmt;

impl fmt::Display for Line {
    ghost output = { λ l. Some (digits (line_bits l)) };

    fn fmt<W: fmt::Write>(&self, f: &mut fmt::Formatter<W>) -> fmt::Result {
        for high in self.bits() {
            f.write_char(digit_of(*high))?;
        }
        Ok(())
    }
}

// The digits of its bits, and not how they lie.
impl fmt::Debug for Line {
    fn fmt<W: fmt::Write>(&self, f: &mut fmt::Formatter<W>) -> fmt::Result {
        write!(f, "Line({self})")
    }
}

// A function of its own: where the digit is chosen at the call, the compiler makes a branch of it, on each bit of a line.
fn digit_of(high: bool) -> char
    ensures { encode_utf8 result ≡ digit high ∷ [] }
{
    if high { '1' } else { '0' }
}
