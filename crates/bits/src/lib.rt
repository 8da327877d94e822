// Bits of numbers, the highest first, and the check of a row of bits.
#![tactic(auto)]

mod crc;
mod crc_table;
pub mod laws;
mod numbers;

pub use crc::{CRC_BITS, Crc, ID_BITS, LENGTH_BITS, frame_crc};
pub use numbers::{bit_at, number_of, write_bits};
