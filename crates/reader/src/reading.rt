// Bits read from their beginning.
ghost use Rattle.std.specs.Prelude.{◌≡◌, ◌∷◌, map};
ghost use Rattle.frame.specs.Line.{start};
ghost use Rattle.reader.specs.Reading.{found};
ghost use Rattle.reader.specs.Seen.{lowest, seen};

use crate::hearing::Heard;
use crate::reader::Reader;
use frame::{Frame, START};

// What stands at the beginning of bits: the line of this frame, and where the line ends.
#[derive(Clone, Copy, Debug, PartialEq, Eq)]
pub struct Reading {
    pub frame: Frame,
    pub end: usize,
}

impl Reading {
    // What stands at the beginning of `bits`, if a good frame's line does. Each bit is the lowest of a number: so 0 and 1 are a low
    // and a high one, and so are the digits `0` and `1` of a text.
    pub fn of(bits: &[u8]) -> Option<Self>
        ensures { seen result ≡ found (map lowest bits.now) }
    {
        let (first, rest) = bits.split_first()?;
        if is_high(*first) != START {
            return None;
        }
        read_behind_start(rest)
    }
}

// What stands at the beginning of `bits`, if a start comes before them.
fn read_behind_start(bits: &[u8]) -> Option<Reading>
    ensures { seen result ≡ found (start ∷ map lowest bits.now) }
{
    let mut reader = Reader::new();
    for (place, bit) in bits.iter().enumerate() {
        match reader.hear(is_high(*bit))? {
            Heard::Within(next) => reader = next,
            Heard::Line(frame) => {
                return Some(Reading {
                    frame,
                    end: place + 2,
                });
            }
        }
    }
    None
}

// The lowest bit of a number.
fn is_high(bit: u8) -> bool
    ensures { result ≡ lowest bit }
{
    bit % 2 == 1
}
