// A letter, judged: a frame if it is good, else a refusal. A name above 2047 is refused first, then more than eight bytes, then
// a byte above 255.
ghost use Rattle.std.specs.Prelude.{◌≡◌, ℕ, ◌≤◌, List, length, MatchResult};
ghost use Rattle.console.specs.Commands.{Holds};
ghost use Rattle.console.specs.Refusals.{Judged, bad_byte};
ghost use Rattle.row.specs.Items.{items};

use crate::letter::Letter;
use crate::refusal::Refusal;
use frame::{Frame, LARGEST_ID, MOST_BYTES};
use row::Row;

impl TryFrom<Letter> for Frame {
    type Error = Refusal;

    ghost try_from_gives = { λ letter r. (ns : List ℕ) → Holds letter.bytes ns → Judged letter.name ns r };

    fn try_from(letter: Letter) -> Result<Self, Refusal> {
        if letter.name > LARGEST_ID {
            return Err(Refusal::Name);
        }
        let count = letter.bytes.count;
        if count > MOST_BYTES {
            return Err(Refusal::Count(count as u64));
        }
        let bytes = bytes_of(letter.bytes.first.as_slice())?;
        Ok(Frame::new(letter.name, bytes.as_slice()).unwrap())
    }
}

// The bytes that the numbers are, if all of them are bytes.
fn bytes_of(numbers: &[u64]) -> Result<Row<u8, MOST_BYTES>, Refusal>
    requires { length numbers.now ≤ 8 }
    ensures { MatchResult result (λ row. (bad_byte 0 numbers.now ≡ None) × (items row ≡ numbers.now)) (λ x. bad_byte 0 numbers.now ≡ Some x) }
{
    let mut bytes = Row::new();
    for (i, number) in numbers.iter().enumerate() {
        let byte = u8::try_from(*number).map_err(|_| Refusal::Byte(i as u64))?;
        bytes.push(byte).unwrap();
    }
    Ok(bytes)
}
