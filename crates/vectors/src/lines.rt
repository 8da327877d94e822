// Lines against known ones and against those of a second maker, and what a room holds in the end.
use crate::second;
use frame::{Done, Frame, LONGEST_LINE, Line, make_line};
use std::alloc::{AllocError, Global};
use std::process::Abort;
use std::test::Fail;

// A frame's name, its bytes, and its line, as `python3 tests/checks.py` prints it. Every length is there.
const KNOWN: [(u64, &[u8], &str); 14] = [
    (0, &[], "00000100000100000100000100000100000101111111"),
    // Five high bits, and five low ones, end the fields of the next two, so one more bit is put in there.
    (99, &[], "0000011100011000011001010101111101111111"),
    (147, &[], "000010010011000010010110110000011111111"),
    (5, &[1], "000001000010100010000010010101011110111011111111"),
    (
        1024,
        &[0],
        "0100000100000100010000010001000011100110001111111",
    ),
    (
        148,
        &[122, 8],
        "000010010100001001111010000011000001010000011011111111111",
    ),
    (
        1410,
        &[105, 181, 160],
        "0101100000110001101101001101101011010000011110101101100011111111",
    ),
    (
        915,
        &[215, 118, 233, 214],
        "0011100100110100110101110111011011101001110101101110010011100011111111",
    ),
    (
        479,
        &[238, 182, 143, 200, 134],
        "00011101111100101111011101011011010001111101001000100001101000101001111011111111",
    ),
    (
        1211,
        &[118, 91, 181, 40, 120, 158],
        "01001011101101100111011001011011101101010010100001111000100111100010101110010101111111",
    ),
    (
        1474,
        &[161, 230, 207, 33, 251, 9, 100],
        "010111000010011110100001111001101100111100100001111101011000010010110010010100100000111101111111",
    ),
    (
        2047,
        &[255, 255, 255, 255, 255, 255, 255, 255],
        "011111011111011000111110111110111110111110111110111110111110111110111110111110111110111110111110110101010100101111111",
    ),
    (
        0,
        &[0, 0, 0, 0, 0, 0, 0, 0],
        "000001000001001000001000001000001000001000001000001000001000001000001000001000001000001000001000010100010110111111111",
    ),
    (
        1007,
        &[120, 120, 120, 120, 120, 3, 195, 194],
        "001111100111110000011111000001111100000111110000011111000001111100000100000111110000011111000001100000100000111110011111111",
    ),
];

// What a room holds before a line is made: neither 0 nor 1, so that each place that is written shows.
pub(crate) const UNTOUCHED: u8 = 170;

// Bytes that have long runs or join them, so that bits are often put in, also at the fields' end.
const RUNS: [u8; 5] = [0x00, 0xff, 0x0f, 0xf0, 0x78];

// The tests have numbers of their own, so that they don't follow a wrong one.
pub(crate) const LARGEST_NAME: u64 = 2047;

// Frames of short, middling and long lines, for what is tried at every place of a line.
pub(crate) const SOME: [(u64, &[u8]); 5] = [
    (0, &[]),
    (99, &[]),
    (5, &[1]),
    (2047, &[255, 255, 255, 255]),
    (1007, &[120, 120, 120, 120, 120, 3, 195, 194]),
];

// Numbers as if drawn by lot, but the same ones at each run.
#[derive(Drop)]
pub(crate) struct Lots(pub(crate) u64);

impl Lots {
    // The state's low bits repeat soon, so only its high ones are drawn.
    pub(crate) fn draw(&mut self) -> u64 {
        self.0 = self
            .0
            .wrapping_mul(6364136223846793005)
            .wrapping_add(1442695040888963407);
        self.0 >> 33
    }

    // Half of the bytes are drawn from those with long runs.
    pub(crate) fn bytes(&mut self) -> [u8; 8] {
        let mut bytes = [0u8; 8];
        for byte in bytes.iter_mut() {
            let lot = self.draw();
            *byte = match RUNS.get((lot % 10) as usize) {
                Some(run) => *run,
                None => (lot / 10 % 256) as u8,
            };
        }
        bytes
    }
}

// The room of that length that `make_line` leaves: the line in front, if there is place for it, and the rest untouched.
fn room_after(heap: Global, line: &[bool], len: usize) -> Result<Vec<u8>, AllocError> {
    let mut room = Vec::new(heap);
    if line.len() <= len {
        room.extend(line.iter().map(|bit| u8::from(*bit)))?;
    }
    room.resize(len, UNTOUCHED)?;
    Ok(room)
}

// Whether `room` is what `make_line` leaves of an untouched one.
fn is_left(heap: Global, line: &[bool], room: &[u8]) -> Result<bool, AllocError> {
    Ok(room_after(heap, line, room.len())?.as_slice() == room)
}

// Whether `make_line` writes and says that this is the line of the frame with this name and these bytes.
fn makes(heap: Global, line: &[bool], name: u64, bytes: &[u8]) -> Result<bool, AllocError> {
    let mut room = [UNTOUCHED; LONGEST_LINE];
    let made = Done::Made(line.len() as u64);
    Ok(make_line(name, bytes, &mut room) == made && is_left(heap, line, &room)?)
}

// Whether its `Line` has these bits.
fn has_bits(line: &[bool], name: u64, bytes: &[u8]) -> bool {
    Frame::new(name, bytes).is_some_and(|frame| Line::from(&frame).bits() == line)
}

// Both of these. A letter is a name and bytes here, as the entries take it.
fn check_both(
    rt: &(impl Abort + AllocGlobal),
    line: &[bool],
    name: u64,
    bytes: &[u8],
) -> Result<(), Fail> {
    let heap = rt.alloc();
    let len = bytes.len();
    assert!(rt;
        makes(heap, line, name, bytes)?,
        "makes: name {name}, {len} bytes"
    );
    assert!(rt;
        has_bits(line, name, bytes),
        "has_bits: name {name}, {len} bytes"
    );
    Ok(())
}

#[test]
fn known_lines(rt: HostRuntime) -> Result<(), Fail> {
    let heap = rt.alloc();
    for (name, bytes, digits) in KNOWN {
        let line: Vec<bool> = digits.bytes().map(|digit| digit == b'1').collect(heap)?;
        check_both(&rt, &line, name, bytes)?;
        assert!(rt;
            second::line(heap, name, bytes)? == line,
            "the second maker's line"
        );
    }
    Ok(())
}

// Every name with every length. The line is asked of both makers, and compared bit by bit.
#[test]
fn any_frame_against_the_second_maker(rt: HostRuntime) -> Result<(), Fail> {
    let heap = rt.alloc();
    let mut lots = Lots(1);
    for name in 0..=LARGEST_NAME {
        for len in 0..=8usize {
            let drawn = lots.bytes();
            let bytes = &drawn[0..len];
            check_both(&rt, &second::line(heap, name, bytes)?, name, bytes)?;
        }
    }
    Ok(())
}

#[test]
fn rooms_of_every_length(rt: HostRuntime) -> Result<(), Fail> {
    let heap = rt.alloc();
    for (name, bytes) in SOME {
        let line = second::line(heap, name, bytes)?;
        for len in 0..=line.len().saturating_add(1) {
            let mut room = vec![in heap; UNTOUCHED; len]?;
            let done = make_line(name, bytes, &mut room);
            let bits = line.len() as u64;
            let told = if len < line.len() {
                Done::Short(bits)
            } else {
                Done::Made(bits)
            };
            assert_eq!(rt; done, told, "the answer at a room of {len}");
            assert!(rt; is_left(heap, &line, &room)?, "the room of {len}");
        }
    }
    Ok(())
}

#[test]
fn letters_that_are_not_good(rt: HostRuntime) {
    let letters: [(u64, &[u8]); 6] = [
        (2048, &[]),
        (2048, &[1, 2, 3, 4, 5, 6, 7, 8]),
        (u64::MAX, &[]),
        (5, &[1, 2, 3, 4, 5, 6, 7, 8, 9]),
        (0, &[0; 9]),
        (u64::MAX, &[0; 9]),
    ];
    for (name, bytes) in letters {
        let mut room = [UNTOUCHED; LONGEST_LINE];
        let done = make_line(name, bytes, &mut room);
        assert_eq!(rt; done, Done::Refused(1), "letter {name}");
        assert!(rt;
            room == [UNTOUCHED; LONGEST_LINE],
            "the room of letter {name}"
        );
        assert_eq!(rt; make_line(name, bytes, &mut []), Done::Refused(1));
        assert!(rt; Frame::new(name, bytes).is_none());
    }
}
