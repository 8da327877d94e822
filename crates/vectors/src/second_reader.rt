// A second reader of lines, written from the rule in second.rt alone: it takes out what that maker puts in, cuts the fields apart,
// and has that maker make the line of what it finds. The bits are read as that frame only if they begin with that line.
use crate::second;
use std::alloc::{AllocError, Global};

// How many bits stand before a frame's bytes: the first low one, the name and the length.
const HEADER: usize = 16;

const MOST_BYTES: usize = 8;

// A frame, and where its line ends.
#[derive(Debug, Drop, PartialEq)]
pub struct Found {
    pub name: u64,
    pub bytes: Vec<u8>,
    pub end: usize,
}

// The good frame whose line `bits` begin with, if there is one.
pub fn read(heap: Global, bits: &[bool]) -> Result<Option<Found>, AllocError> {
    let row = taken_out(heap, bits)?;
    let Some((header, behind)) = row.split_at_checked(HEADER) else {
        return Ok(None);
    };
    let name = number(header) / 16 % 2048;
    let bytes = first_bytes(heap, behind, number(header) % 16)?;
    let line = second::line(heap, name, &bytes)?;
    if bytes.len() > MOST_BYTES || !bits.starts_with(&line) {
        return Ok(None);
    }
    let end = line.len();
    Ok(Some(Found { name, bytes, end }))
}

// The bits without those that were put in, where no six like ones stand together.
fn taken_out(heap: Global, bits: &[bool]) -> Result<Vec<bool>, AllocError> {
    let mut row = Vec::new(heap);
    for (place, bit) in bits.iter().enumerate() {
        if second::behind(&bits[0..place]).is_none() {
            row.push(*bit)?;
        }
    }
    Ok(row)
}

// The bytes that a row begins with, so many of them, as far as there are bits for them.
fn first_bytes(heap: Global, row: &[bool], count: u64) -> Result<Vec<u8>, AllocError> {
    row.chunks_exact(8)
        .take(count as usize)
        .map(|bits| (number(bits) % 256) as u8)
        .collect(heap)
}

// The number that these bits write, the highest first.
fn number(bits: &[bool]) -> u64 {
    bits.iter().fold(0, |number: u64, bit| {
        number.wrapping_mul(2).wrapping_add(u64::from(*bit))
    })
}
