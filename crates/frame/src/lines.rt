// Lines asked and compared.
ghost use Rattle.std.specs.Prelude.{◌≡◌, ◌↔◌, IsTrue};
ghost use Rattle.std.specs.Cmp.{bool_eq_equiv, on_equiv, on_per, partial_equiv_from_equiv};
ghost use Rattle.std.specs.Cmp.Lexicographic.{lists_equiv};
ghost use Rattle.frame.specs.Contents.{line_bits, line_eq};

use crate::line::Line;

impl Line {
    // The line's bits, high ones as true.
    pub fn bits(&self) -> &[bool]
        ensures { result.now ≡ line_bits self.now }
    {
        self.bits.as_slice()
    }
}

// Lines are alike if their bits are.
impl PartialEq for Line {
    ghost eq = { line_eq };

    ghost laws = { on_per line_bits (partial_equiv_from_equiv (lists_equiv bool_eq_equiv)) };

    fn eq(&self, other: &Line) -> bool
        ensures computed { result ≡ line_eq self.now other.now }
        ensures decided { IsTrue result ↔ (line_bits self.now ≡ line_bits other.now) }
    {
        self.bits == other.bits
    }
}

impl Eq for Line {
    ghost laws = { on_equiv line_bits (lists_equiv bool_eq_equiv) };
}

// What `==` decides of lines, as a function: whether their bits are the same.
pub fn is_same_line(a: &Line, b: &Line) -> bool
    ensures computed { result ≡ line_eq a.now b.now }
    ensures decided { IsTrue result ↔ (line_bits a.now ≡ line_bits b.now) }
{
    a == b
}
