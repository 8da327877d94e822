// Frames in a row of numbers, ten for each: its name, how many bytes it has, and eight places for these. That is how whoever calls the
// entry has them, and C is to call it so, so that they are no structs.
ghost use Rattle.std.specs.Prelude.{◌≡◌, ◌+◌, ◌*◌, ◌<◌, ◌≤◌, [], length, take, drop, MatchOption};
ghost use Rattle.reader.specs.Rows.{bytes_at};

use frame::MOST_BYTES;

// How many numbers a frame takes in a row.
const NUMBERS: usize = 2 + MOST_BYTES;

// The bytes of the letter at the place `i` of `row`, as a part of the row; none where there is no such letter, or it says that it
// has more than eight.
pub fn bytes_of<'a>(row: &'a [u16], i: u64) -> &'a [u16]
    ensures { result.now ≡ bytes_at row.now i }
{
    part_of(row, i).unwrap_or(&row[..0])
}

// The same, if there is such a letter. The entry's two arguments go on to where each is used.
fn part_of(row: &[u16], i: u64) -> Option<&[u16]>
    ensures { MatchOption result (bytes_at row.now i ≡ []) (λ part. part.now ≡ bytes_at row.now i) }
{
    let letter = letter_at(row, i)?;
    letter.get(2..2 + usize::from(letter[1]))
}

// The ten numbers of the letter at the place `i`, if the row is long enough for it.
fn letter_at(row: &[u16], i: u64) -> Option<&[u16]>
    ensures { MatchOption result (length row.now < 10 * i + 10) (λ letter. (10 * i + 10 ≤ length row.now) × (letter.now ≡ take 10 (drop (10 * i) row.now))) }
{
    let from = usize::try_from(i).ok()?.checked_mul(NUMBERS)?;
    row.get(from..)?.get(..NUMBERS)
}
