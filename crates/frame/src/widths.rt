// How many bits each field of a frame takes, how many values it has, and some fields together.

use bits::{CRC_BITS, ID_BITS, LENGTH_BITS};

pub const ID: u32 = ID_BITS;

pub const LENGTH: u32 = LENGTH_BITS;

pub const BYTE: u32 = 8;

pub const CHECK: u32 = CRC_BITS;

// How many values a length, a byte and a check have.
pub(crate) const LENGTHS: u128 = 1 << LENGTH;

pub(crate) const BYTES: u128 = 1 << BYTE;

pub(crate) const CHECKS: u128 = 1 << CHECK;

// The identifier and the length, which come first.
pub const HEADER: u32 = ID + LENGTH;

// All fields besides the bytes.
pub const FIXED: u32 = HEADER + CHECK;
