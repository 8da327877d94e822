// A second maker of lines, written from the rule below alone, so that it shares no code with the one that is tested.
//
// A frame's fields are its name in 11 bits, how many bytes it has in 4, its bytes in 8 each, all highest bit first, and a check
// of 15 bits. A line is a low bit, the fields, and seven high bits. Behind five like bits, the first low one counting, one of
// the other kind is put in, which then counts too, also at the fields' end. The seven high bits aren't counted, and nothing is
// put into them.
use std::alloc::{AllocError, Global};

// The line of the frame with this name and these bytes.
pub fn line(heap: Global, name: u64, bytes: &[u8]) -> Result<Vec<bool>, AllocError> {
    let mut bits = filled(heap, &fields(heap, name, bytes)?)?;
    bits.extend_from_slice(&[true; 7])?;
    Ok(bits)
}

// What stands in front of the seven high bits: the first low one and the fields, with what is put in.
fn filled(heap: Global, fields: &[bool]) -> Result<Vec<bool>, AllocError> {
    let mut bits = Vec::new(heap);
    bits.push(false)?;
    for field_bit in fields.iter() {
        bits.push(*field_bit)?;
        if let Some(other) = behind(&bits) {
            bits.push(other)?;
        }
    }
    Ok(bits)
}

// The bit to put in behind these, if one is. The last five bits tell it, since each run ends there: what is put in is of the
// other kind.
pub fn behind(bits: &[bool]) -> Option<bool> {
    match bits {
        [.., false, false, false, false, false] => Some(true),
        [.., true, true, true, true, true] => Some(false),
        _ => None,
    }
}

fn fields(heap: Global, name: u64, bytes: &[u8]) -> Result<Vec<bool>, AllocError> {
    let mut row = Vec::new(heap);
    push_number(&mut row, name, 11)?;
    push_number(&mut row, bytes.len() as u64, 4)?;
    for byte in bytes.iter() {
        push_number(&mut row, u64::from(*byte), 8)?;
    }
    let check = check_of(&row);
    push_number(&mut row, check, 15)?;
    Ok(row)
}

// Pushes as many of the number's lowest bits, the highest of them first.
fn push_number(row: &mut Vec<bool>, number: u64, width: u32) -> Result<(), AllocError> {
    for place in (0..width).rev() {
        row.push(number.wrapping_shr(place) % 2 == 1)?;
    }
    Ok(())
}

// From 0 on, each bit is compared with the check's highest of 15; the check is doubled, without what is then above 15 bits, and
// 17817 is xor-ed to it if the two weren't alike.
fn check_of(row: &[bool]) -> u64 {
    let mut check: u64 = 0;
    for bit in row.iter() {
        let highest = check / 16384 % 2 == 1;
        check = check.wrapping_mul(2) % 32768;
        if *bit != highest {
            check ^= 17817;
        }
    }
    check
}
