// Lines read again, bits that are no lines against a second reader, and what is refused.
use crate::lines::{LARGEST_NAME, Lots, SOME, UNTOUCHED};
use crate::second_reader::Found;
use crate::{second, second_reader};
use frame::{Done, LONGEST_LINE};
use reader::{Reading, bytes_of, place_above, read_line};
use std::alloc::{AllocError, Global};
use std::process::Abort;
use std::test::Fail;

const ROOM: usize = 8;

// How long rooms are that aren't eight bytes.
const BAD_ROOMS: [usize; 10] = [0, 1, 2, 3, 4, 5, 6, 7, 9, 100];

// Numbers that are no bits; the lowest bit of some of them is high, and of others low.
const NO_BITS: [u8; 4] = [2, 3, 128, 255];

// Even numbers: with a bit added, the lowest bit is that one.
const EVEN: [u8; 4] = [0, b'0', 170, 254];

// The line of this frame has seven high bits within it.
const SEVEN_WITHIN: (u64, &[u8]) = (15, &[]);

// Each bit as a number, added to `even`.
fn numbers(heap: Global, bits: &[bool], even: u8) -> Result<Vec<u8>, AllocError> {
    bits.iter()
        .map(|bit| even.wrapping_add(u8::from(*bit)))
        .collect(heap)
}

fn push_drawn(bits: &mut Vec<bool>, lots: &mut Lots, count: u64) -> Result<(), AllocError> {
    for _ in 0..count {
        bits.push(lots.draw() % 2 == 1)?;
    }
    Ok(())
}

// What `read_line` answers where this is found.
impl From<&Found> for Done {
    fn from(found: &Found) -> Self {
        Done::Read(found.name, found.bytes.len() as u64, found.end as u64)
    }
}

// What an untouched room holds then.
fn room_after(found: &Option<Found>) -> [u8; ROOM] {
    let mut room = [UNTOUCHED; ROOM];
    if let Some(found) = found {
        if let Some(front) = room.get_mut(..found.bytes.len()) {
            front.copy_from_slice(&found.bytes);
        }
    }
    room
}

// What was read, in the second reader's terms. It asks for memory, so it can be no `From`.
fn found_in(heap: Global, reading: Option<Reading>) -> Result<Option<Found>, AllocError> {
    let Some(Reading { frame, end }) = reading else {
        return Ok(None);
    };
    let name = u64::from(frame.id());
    let bytes = frame.data().to_vec(heap)?;
    Ok(Some(Found { name, bytes, end }))
}

// Both readers read the same of these bits.
fn check_alike(rt: &(impl Abort + AllocGlobal), bits: &[bool]) -> Result<(), Fail> {
    let heap = rt.alloc();
    let found = second_reader::read(heap, bits)?;
    let mut room = [UNTOUCHED; ROOM];
    let done = read_line(&numbers(heap, bits, 0)?, &mut room);
    assert_eq!(rt;
        done,
        found.as_ref().map_or(Done::Nothing, Done::from),
        "the answer to {bits:?}"
    );
    assert!(rt; room == room_after(&found), "the room of {bits:?}");
    for even in EVEN {
        let read = found_in(heap, Reading::of(&numbers(heap, bits, even)?))?;
        assert!(rt; read == found, "{bits:?} over {even}");
    }
    Ok(())
}

// Reading these numbers to a room of that length is refused, and the room is left untouched.
fn check_refused(
    rt: &(impl Abort + AllocGlobal),
    numbers: &[u8],
    len: usize,
    number: u64,
) -> Result<(), Fail> {
    let heap = rt.alloc();
    let mut room = vec![in heap; UNTOUCHED; len]?;
    let done = read_line(numbers, &mut room);
    assert_eq!(rt; done, Done::Refused(number), "{numbers:?}, a room of {len}");
    assert!(rt; room == vec![in heap; UNTOUCHED; len]?, "the room of {len}");
    Ok(())
}

// Every name with every length, and with any bits behind the line.
#[test]
fn any_line_is_read_again(rt: HostRuntime) -> Result<(), Fail> {
    let heap = rt.alloc();
    let mut lots = Lots(2);
    for name in 0..=LARGEST_NAME {
        for len in 0..=8usize {
            let drawn = lots.bytes();
            let bytes = drawn[0..len].to_vec(heap)?;
            let mut bits = second::line(heap, name, &bytes)?;
            let end = bits.len();
            let behind = lots.draw() % 20;
            push_drawn(&mut bits, &mut lots, behind)?;
            let expected = Some(Found { name, bytes, end });
            assert_eq!(rt; second_reader::read(heap, &bits)?, expected);
            check_alike(&rt, &bits)?;
        }
    }
    Ok(())
}

// The line with the bit at that place turned.
fn turned(heap: Global, line: &[bool], place: usize) -> Result<Vec<bool>, AllocError> {
    let mut bits = line.to_vec(heap)?;
    if let Some(bit) = bits.get_mut(place) {
        *bit = !*bit;
    }
    Ok(bits)
}

// A line's front with any bits behind it, enough for the longest line.
fn with_drawn(heap: Global, front: &[bool], lots: &mut Lots) -> Result<Vec<bool>, AllocError> {
    let mut bits = front.to_vec(heap)?;
    push_drawn(&mut bits, lots, LONGEST_LINE as u64)?;
    Ok(bits)
}

// Lines of which a bit is turned, and lines cut off at any place, also with other bits behind.
#[test]
fn lines_that_are_hurt(rt: HostRuntime) -> Result<(), Fail> {
    let heap = rt.alloc();
    let mut lots = Lots(3);
    for (name, bytes) in SOME.into_iter().chain([SEVEN_WITHIN]) {
        let line = second::line(heap, name, bytes)?;
        for place in 0..line.len() {
            let front = &line[0..place];
            check_alike(&rt, front)?;
            check_alike(&rt, &turned(heap, &line, place)?)?;
            check_alike(&rt, &with_drawn(heap, front, &mut lots)?)?;
        }
    }
    Ok(())
}

// At every place of a line and of what stands behind it, whatever the room is.
#[test]
fn numbers_that_are_no_bits(rt: HostRuntime) -> Result<(), Fail> {
    let heap = rt.alloc();
    let mut bits = second::line(heap, 5, &[1])?;
    push_drawn(&mut bits, &mut Lots(4), 3)?;
    let good = numbers(heap, &bits, 0)?;
    assert_eq!(rt; place_above(1, &good), None);
    for place in 0..good.len() {
        for no_bit in NO_BITS {
            let mut bad = good.clone()?;
            bad[place] = no_bit;
            assert_eq!(rt; place_above(1, &bad), Some(place));
            check_refused(&rt, &bad, ROOM, 2)?;
            for len in BAD_ROOMS {
                check_refused(&rt, &bad, len, 2)?;
            }
        }
    }
    Ok(())
}

#[test]
fn rooms_that_are_not_eight_bytes(rt: HostRuntime) -> Result<(), Fail> {
    let heap = rt.alloc();
    let good = numbers(heap, &second::line(heap, 5, &[1])?, 0)?;
    for len in BAD_ROOMS {
        check_refused(&rt, &good, len, 3)?;
        check_refused(&rt, &[1, 0, 1], len, 3)?;
        check_refused(&rt, &[], len, 3)?;
    }
    check_alike(&rt, &[])
}

// A row of letters that all say the same length; each other number is its place, so that a part tells where it begins.
fn letters(heap: Global, len: u16, count: u16) -> Result<Vec<u16>, AllocError> {
    (0..len)
        .map(|place| if place % 10 == 1 { count } else { place })
        .collect(heap)
}

// The numbers of the letter at that place, if the row has one whole.
fn letter_at(row: &[u16], i: u64) -> Option<&[u16]> {
    row.chunks_exact(10).nth(usize::try_from(i).ok()?)
}

// Whether `bytes` are those of the letter at that place.
fn are_bytes(bytes: &[u16], row: &[u16], i: u64) -> bool {
    match letter_at(row, i) {
        Some([_, count @ 0..=8, behind @ ..]) => {
            bytes.len() == usize::from(*count) && behind.starts_with(bytes)
        }
        _ => bytes.is_empty(),
    }
}

// Also at places so large that ten times as much is small again in 64 bits.
#[test]
fn bytes_of_letters_in_a_row(rt: HostRuntime) -> Result<(), Fail> {
    let heap = rt.alloc();
    let large = [
        u64::MAX,
        u64::MAX / 10,
        u64::MAX / 10 + 1,
        1 << 63,
        (1 << 63) + 1,
    ];
    for len in [0, 1, 2, 9, 10, 11, 12, 19, 20, 21, 29, 30, 31] {
        for count in [0, 1, 2, 3, 4, 5, 6, 7, 8, 9, 10, 255, 256, 65535] {
            let row = letters(heap, len, count)?;
            for i in (0..=4).chain(large) {
                let bytes = bytes_of(&row, i);
                assert!(rt; are_bytes(bytes, &row, i), "{bytes:?} at {i} of {row:?}");
            }
        }
    }
    Ok(())
}
