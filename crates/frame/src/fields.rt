// The fields of a frame as one number: each is joined to those before it as the lowest bits.
ghost use Rattle.std.specs.Prelude.{◌≡◌};
ghost use Rattle.std.specs.Iterator.{YieldsFirst, item_count};
ghost use Rattle.bits.specs.Crc.{covered, crc};
ghost use Rattle.frame.specs.Contents.{frame_data};
ghost use Rattle.frame.specs.Fields.{fields};
ghost use Rattle.frame.specs.Making.{bits_left};

use crate::frame::Frame;
use crate::widths::{BYTE, BYTES, CHECKS, FIXED, LENGTHS};
use bits::{bit_at, frame_crc};

// The bits of the fields, or what is left of them: the lowest of a number. A reader's first bits of the fields lie so too, but grow at
// their low end, so that the two have no method in common.
#[derive(Clone, Copy)]
pub(crate) struct Fields {
    pub(crate) number: u128,
    pub(crate) width: u32,
}

impl From<&Frame> for Fields {
    ghost from_gives = { λ frame f. bits_left f ≡ fields frame.now.id (frame_data frame.now) };

    fn from(frame: &Frame) -> Self {
        let data = frame.data();
        let mut number = u128::from(frame.id()) * LENGTHS + data.len() as u128;
        for byte in data {
            number = number * BYTES + u128::from(*byte);
        }
        Fields {
            number: number * CHECKS + u128::from(check_of(frame)),
            width: FIXED + BYTE * data.len() as u32,
        }
    }
}

// The check of what stands before it in the fields.
fn check_of(frame: &Frame) -> u16
    ensures { result ≡ crc (covered frame.now.id (frame_data frame.now)) }
{
    frame_crc(frame.id(), frame.data()).value()
}

// The bits one by one, the highest first.
impl Iterator for Fields {
    type Item = bool;

    ghost next_gives = { YieldsFirst bits_left };

    ghost remaining = { item_count bits_left };

    fn next(&mut self) -> Option<bool> {
        self.width = self.width.checked_sub(1)?;
        Some(bit_at(self.number, self.width))
    }
}
