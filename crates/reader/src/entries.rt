// The entry that reads lines, over numbers and lent memory.
ghost use Rattle.std.specs.Prelude.{◌≡◌, length, MatchResult};
ghost use Rattle.frame.specs.Entries.{outcome, refusal_number};
ghost use Rattle.reader.specs.Entries.{ReadSays, read_answer, read_refusal, read_room};
ghost use Rattle.reader.specs.Seen.{seen};

use crate::places::place_above;
use crate::reading::Reading;
use frame::{Done, MOST_BYTES, Refusal};

// A high bit as a number, the largest that a bit can be.
const HIGH: u8 = 1;

// Reads the letter whose line stands at the beginning of `bits`, which are numbers 0 and 1, and writes its bytes to the front of
// `room`.
pub fn read_line(bits: &[u8], room: &mut [u8]) -> Done
    ensures { ReadSays bits.now room.old (outcome result) room.new }
{
    if let Err(refusal) = judge(bits, room) {
        return Done::from(refusal);
    }
    hand_over(Reading::of(bits), room)
}

// Whether these are numbers 0 and 1, and the room is for the bytes of a letter.
fn judge(bits: &[u8], room: &[u8]) -> Result<(), Refusal>
    ensures { MatchResult result (λ _. read_refusal bits.now room.now ≡ 0) (λ r. read_refusal bits.now room.now ≡ refusal_number r) }
{
    if place_above(HIGH, bits).is_some() {
        return Err(Refusal::BadBit);
    }
    if room.len() != MOST_BYTES {
        return Err(Refusal::BadRoom);
    }
    Ok(())
}

// Answers what was read, and writes the letter's bytes to the front of `room`, if there is one.
fn hand_over(reading: Option<Reading>, room: &mut [u8]) -> Done
    requires { length room.old ≡ 8 }
    ensures answer { outcome result ≡ read_answer (seen reading) }
    ensures room { room.new ≡ read_room (seen reading) room.old }
{
    let Some(Reading { frame, end }) = reading else {
        return Done::Nothing;
    };
    let data = frame.data();
    room[..data.len()].copy_from_slice(data);
    Done::Read(u64::from(frame.id()), data.len() as u64, end as u64)
}
