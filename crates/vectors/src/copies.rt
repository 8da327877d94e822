// Frames, lines and what was read are small values: each is handed on whole, more than once, and used again behind it. That each function here is
// proved is the most of the test.
use frame::{Frame, Line};
use reader::Reading;

const NAME: u64 = 5;

const BYTES: [u8; 2] = [1, 255];

// How long the line of this frame is, as tests/console.py makes it.
const LENGTH: usize = 58;

fn id_of(frame: Frame) -> u16 {
    frame.id()
}

fn len_of(line: Line) -> usize {
    line.bits().len()
}

fn end_of(reading: Reading) -> usize {
    reading.end
}

fn ids(frame: Frame) -> [u16; 3] {
    [id_of(frame), id_of(frame), frame.id()]
}

fn lens(line: Line) -> [usize; 3] {
    [len_of(line), len_of(line), line.bits().len()]
}

fn ends(reading: Reading) -> [usize; 3] {
    [end_of(reading), end_of(reading), reading.end]
}

fn in_turn(one: Line, other: Line) -> [Line; 3] {
    [one, other, one]
}

#[test]
fn what_is_handed_on_can_be_used_again(rt: HostRuntime) {
    let frame = Frame::new(NAME, &BYTES);
    assert!(rt; frame.is_some_and(|frame| ids(frame) == [5, 5, 5]));
    let line = frame.map(|frame| Line::from(&frame));
    assert!(rt; line.is_some_and(|line| lens(line) == [LENGTH; 3]));
    assert!(rt; line.is_some_and(|line| in_turn(line, line)[2] == line));
    let reading = frame.map(|frame| Reading { frame, end: LENGTH });
    assert!(rt; reading.is_some_and(|reading| ends(reading) == [LENGTH; 3]));
}
