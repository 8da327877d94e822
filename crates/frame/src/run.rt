// Like bits counted along a row, which tells where a stuff bit comes.
ghost use Rattle.std.specs.Prelude.{◌≡◌, ◌≤◌, min, not};
ghost use Rattle.frame.specs.Stuffing.{due, run};

// Behind so many like bits one of the other kind is put in.
const LIKE_BITS: u8 = 5;

// How a row ends: its last bit, and how many like that one stand there together. The count goes no further than a byte does; in a
// line no more than five stand together.
#[derive(Clone, Copy, Debug, PartialEq, Eq)]
pub struct Run {
    pub bit: bool,
    pub count: u8,
}

impl Run {
    // The end of a row of this bit alone.
    pub fn new(bit: bool) -> Self
        ensures bit { result.bit ≡ bit }
        ensures count { result.count ≡ 1 }
    {
        Run { bit, count: 1 }
    }

    // The end of the row with `bit` behind it.
    pub fn with(self, bit: bool) -> Self
        ensures bit { result.bit ≡ bit }
        ensures counted { self.count ≤ 5 → result.count ≡ run self.bit self.count bit }
        ensures capped { result.count ≡ min (run self.bit self.count bit) 255 }
    {
        if self.bit == bit {
            let count = self.count.saturating_add(1);
            Run { bit, count }
        } else {
            Run::new(bit)
        }
    }

    // Whether a stuff bit comes next.
    pub fn is_due(self) -> bool
        ensures { result ≡ due self.count }
    {
        self.count == LIKE_BITS
    }

    // What a stuff bit is here: a bit of the other kind.
    pub fn stuff_bit(self) -> bool
        ensures { result ≡ not self.bit }
    {
        !self.bit
    }
}
