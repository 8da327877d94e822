// The check of a row of bits, bit by bit and byte by byte.
ghost use Rattle.std.specs.Prelude.{◌≡◌, ◌^◌, ◌<◌};
ghost use Rattle.bits.specs.Bits.{bit_at, bits_of, bytes_bits};
ghost use Rattle.bits.specs.Crc.{crc, crc_step, crc_from, covered};

use crate::crc_table::crc_of_byte;

const POLYNOMIAL: u16 = 17817;

// How many bits a check has.
pub const CRC_BITS: u32 = 15;

// How many bits of a frame's identifier a check covers, and how many say how many bytes there are.
pub const ID_BITS: u32 = 11;

pub const LENGTH_BITS: u32 = 4;

const IDS: u16 = 1 << ID_BITS;

const LENGTHS: u16 = 1 << LENGTH_BITS;

// A check of 15 bits, of what was pushed so far.
#[derive(Clone, Copy)]
pub struct Crc {
    value: u16,
    ghost narrow: { value < 2 ^ 15 },
}

impl Crc {
    // The check of nothing.
    pub fn new() -> Self
        ensures { result.value ≡ 0 }
    {
        Crc { value: 0 }
    }

    pub fn value(self) -> u16
        ensures { result ≡ self.value }
    {
        self.value
    }

    // The highest bit. Behind what was pushed so far, it is the first of the bits that a row's own check has.
    pub fn highest(self) -> bool
        ensures { result ≡ bit_at self.value 14 }
    {
        self.value / (1 << (CRC_BITS - 1)) % 2 == 1
    }

    // One bit more.
    pub fn push_bit(self, bit: bool) -> Self
        ensures { result.value ≡ crc_step self.value bit }
    {
        let highest = self.highest();
        let doubled = 2 * self.value % (1 << CRC_BITS);
        let value = if bit != highest {
            doubled ^ POLYNOMIAL
        } else {
            doubled
        };
        Crc { value }
    }

    // Eight bits more, those of `byte`, in one step.
    pub fn push_byte(self, byte: u8) -> Self
        ensures { result.value ≡ crc_from self.value (bits_of 8 byte) }
    {
        let highest = (self.value / 128) as u8;
        let moved = self.value % 128 * 256;
        Crc {
            value: moved ^ crc_of_byte(highest ^ byte),
        }
    }

    // The bits of each of `bytes` more.
    pub fn push_bytes(self, bytes: &[u8]) -> Self
        ensures { result.value ≡ crc_from self.value (bytes_bits bytes.now) }
    {
        let mut crc = self;
        for byte in bytes {
            crc = crc.push_byte(*byte);
        }
        crc
    }
}

// The check of a frame: of its identifier in 11 bits, how many bytes it has in 4, and the bytes.
// These 15 bits go in as two bytes, since a low bit in front of a row changes no check.
pub fn frame_crc(id: u16, data: &[u8]) -> Crc
    ensures { result.value ≡ crc (covered id «data».now) }
{
    let id = id % IDS;
    let len = (data.len() % LENGTHS as usize) as u16;
    let first = (id / LENGTHS) as u8;
    let second = (id % LENGTHS * LENGTHS + len) as u8;
    Crc::new()
        .push_byte(first)
        .push_byte(second)
        .push_bytes(data)
}
