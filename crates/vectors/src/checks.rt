// Bits and checks against values that were worked out elsewhere: `python3 tests/checks.py` prints the rows of the tables.
use bits::{Crc, bit_at, frame_crc, number_of, write_bits};
use std::test::Fail;

// A number, and as many of its lowest bits as are written here.
const ROWS: [(u64, &str); 13] = [
    (0, ""),
    (0, "0"),
    (1, "1"),
    (5, "101"),
    (5, "00000000101"),
    (2047, "11111111111"),
    (2048, "00000000000"),
    (255, "11111111"),
    (256, "00000000"),
    (11229, "010101111011101"),
    (
        18446744073709551615,
        "1111111111111111111111111111111111111111111111111111111111111111",
    ),
    (
        9223372036854775808,
        "01000000000000000000000000000000000000000000000000000000000000000",
    ),
    (
        6,
        "0000000000000000000000000000000000000000000000000000000000000000000110",
    ),
];

// A frame's identifier, its bytes, and its check.
const FRAMES: [(u16, &[u8], u16); 20] = [
    (0, &[], 0),
    (5, &[1], 11229),
    (2047, &[255, 255, 255, 255, 255, 255, 255, 255], 30034),
    (1007, &[120, 120, 120, 120, 120, 3, 195, 194], 61),
    (1, &[], 11671),
    (1024, &[0], 17304),
    (855, &[], 17856),
    (148, &[122, 8], 2095),
    (225, &[188, 122], 18532),
    (479, &[238, 182, 143, 200, 134], 17725),
    (1410, &[105, 181, 160], 30129),
    (915, &[215, 118, 233, 214], 29297),
    (2005, &[236], 18205),
    (1474, &[161, 230, 207, 33, 251, 9, 100], 21006),
    (574, &[88, 8, 146, 253, 77, 51, 59, 202], 31316),
    (194, &[239], 7637),
    (1211, &[118, 91, 181, 40, 120, 158], 5578),
    (1274, &[162, 198], 1274),
    (1951, &[226, 37, 139, 242, 72], 22349),
    (472, &[199, 192, 7, 133, 47, 147, 32], 16339),
];

#[test]
fn rows_are_written(rt: HostRuntime) -> Result<(), Fail> {
    for (number, row) in ROWS {
        let mut bits = vec![in rt.alloc(); false; row.len()]?;
        write_bits(number, &mut bits);
        for (bit, digit) in bits.iter().zip(row.bytes()) {
            assert_eq!(rt; *bit, digit == b'1');
        }
    }
    Ok(())
}

#[test]
fn rows_are_read(rt: HostRuntime) -> Result<(), Fail> {
    for (number, row) in ROWS {
        let bits: Vec<bool> = row.bytes().map(|digit| digit == b'1').collect(rt.alloc())?;
        let lowest = match bits.len() {
            width @ 0..=63 => number % (1 << width),
            _ => number,
        };
        assert_eq!(rt; number_of(&bits), Some(lowest));
    }
    Ok(())
}

#[test]
fn too_many_high_bits_are_no_number(rt: HostRuntime) -> Result<(), Fail> {
    assert_eq!(rt; number_of(&vec![in rt.alloc(); true; 65]?), None);
    assert_eq!(rt; number_of(&vec![in rt.alloc(); true; 64]?), Some(u64::MAX));
    Ok(())
}

#[test]
fn places_count_from_the_lowest_bit(rt: HostRuntime) {
    assert!(rt; bit_at(4, 2) && !bit_at(4, 1) && !bit_at(4, 3));
    assert!(rt; bit_at(u128::MAX, 127) && !bit_at(u128::MAX, 128) && !bit_at(u128::MAX, u32::MAX));
}

#[test]
fn checks_of_frames(rt: HostRuntime) {
    for (id, data, crc) in FRAMES {
        assert_eq!(rt; frame_crc(id, data).value(), crc);
    }
}

// Of an identifier the 11 lowest bits count, and of a length the 4 lowest.
#[test]
fn wide_identifiers_and_lengths(rt: HostRuntime) {
    assert_eq!(rt; frame_crc(5 + 2048, &[1]).value(), 11229);
    assert_eq!(rt; frame_crc(65535, &[]).value(), frame_crc(2047, &[]).value());
    let bytes = [7u8; 17];
    let header = Crc::new().push_byte(0).push_byte(5 * 16 + 1);
    assert_eq!(rt;
        frame_crc(5, &bytes).value(),
        header.push_bytes(&bytes).value()
    );
}

// The value that catalogues of checks give for CRC-15/CAN.
#[test]
fn check_of_the_nine_digits(rt: HostRuntime) {
    assert_eq!(rt; Crc::new().push_bytes(b"123456789").value(), 0x059e);
}

// Each byte in turn, from wherever the one before it left the check.
#[test]
fn bit_by_bit_and_byte_by_byte(rt: HostRuntime) {
    let mut by_bits = Crc::new();
    let mut by_bytes = Crc::new();
    for byte in 0..=255u8 {
        for place in (0..8).rev() {
            by_bits = by_bits.push_bit(bit_at(u128::from(byte), place));
        }
        by_bytes = by_bytes.push_byte(byte);
        assert_eq!(rt; by_bits.value(), by_bytes.value());
    }
}
