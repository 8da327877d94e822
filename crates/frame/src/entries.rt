// The entry that makes lines, over numbers and lent memory.
ghost use Rattle.std.specs.Prelude.{◌≡◌, ◌≤◌, ◌++◌, map, length, drop};
ghost use Rattle.bits.specs.Bits.{bit};
ghost use Rattle.frame.specs.Entries.{outcome, make_answer, make_room};

use crate::done::Done;
use crate::frame::Frame;
use crate::line::Line;
use crate::refusal::Refusal;

// Writes the line of the letter with this name and these bytes to the front of `room`, as numbers 0 and 1.
pub fn make_line(name: u64, bytes: &[u8], room: &mut [u8]) -> Done
    ensures answer { outcome result ≡ make_answer name bytes.now (length room.old) }
    ensures room { room.new ≡ make_room name bytes.now room.old }
{
    let Some(frame) = Frame::new(name, bytes) else {
        return Done::from(Refusal::BadLetter);
    };
    let line = Line::from(&frame);
    let bits = line.bits();
    let len = bits.len();
    if len > room.len() {
        return Done::Short(len as u64);
    }
    write_front(bits, room);
    Done::Made(len as u64)
}

// Writes `line` to the front of `room`, as numbers 0 and 1. It goes by places, which is plainer than the other loop that proves: one over
// the room, which takes the bits one by one by `next` and breaks off behind the last. A `zip` doesn't prove, since of a slice that is
// written through an adapter of `iter_mut` only the length is known.
fn write_front(line: &[bool], room: &mut [u8])
    requires { length line.now ≤ length room.old }
    ensures { room.new ≡ map bit line.now ++ drop (length line.now) room.old }
{
    for (place, high) in line.iter().enumerate() {
        room[place] = u8::from(*high);
    }
}
