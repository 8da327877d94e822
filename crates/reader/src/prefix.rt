// The first bits of a frame's fields, as they were read. The type stands alone here, since the definitions that name it can't be
// imported where it is declared: prefixes.rt has what it does.
ghost use Rattle.std.specs.Prelude.{◌≡◌, ◌+◌, ◌*◌, ◌^◌, ◌<◌, ◌≤◌};
ghost use Rattle.bits.specs.Bits.{bits_of};
ghost use Rattle.bits.specs.Crc.{crc_from};
ghost use Rattle.reader.specs.Reading.{length_in};

use bits::Crc;

// It grows by a bit at its low end, where what a maker has left of the fields loses one at its high end: a type for both would have to
// refuse a bit too many, and have no method that both call.
#[derive(Clone, Copy)]
pub struct Prefix {
    // The bits, as the lowest of a number, and how many there are.
    pub(crate) number: u128,
    pub(crate) count: u32,
    // How many bytes the frame has, as far as the bits of its length are there.
    pub(crate) len: u32,
    // The check of the bits.
    pub(crate) crc: Crc,
    ghost narrow: { number < 2 ^ count },
    ghost short: { count ≤ 30 + 8 * len },
    ghost few: { len ≤ 8 },
    ghost counted: { len ≡ length_in (bits_of count number) },
    ghost checked: { crc.value ≡ crc_from 0 (bits_of count number) },
}
