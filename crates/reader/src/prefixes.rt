// The fields of a frame, read bit by bit: whether a bit can come next, and the frame in the end.
ghost use Rattle.std.specs.Prelude.{◌≡◌, ◌+◌, ◌*◌, ◌<◌, ◌≤◌, true, false, [], ◌∷◌, ◌++◌, MatchOption, nat_le};
ghost use Rattle.frame.specs.Contents.{frame_data};
ghost use Rattle.frame.specs.Fields.{fields};
ghost use Rattle.reader.specs.Beginning.{Begins, least_length};
ghost use Rattle.reader.specs.Hearing.{row, whole};
ghost use Rattle.reader.specs.Reading.{length_in};

use crate::prefix::Prefix;
use bits::Crc;
use frame::widths::{BYTE, CHECK, FIXED, HEADER, ID, LENGTH};
use frame::{Frame, MOST_BYTES};

// The most bytes that a frame has.
const LARGEST_LEN: u32 = MOST_BYTES as u32;

impl Prefix {
    // No bit yet.
    pub(crate) fn new() -> Self
        ensures { row result ≡ [] }
    {
        Prefix {
            number: 0,
            count: 0,
            len: 0,
            crc: Crc::new(),
        }
    }

    // Whether these are all bits of the fields.
    pub(crate) fn is_whole(self) -> bool
        ensures { result ≡ whole self }
    {
        self.count == FIXED + BYTE * self.len
    }

    // One bit more, or nothing where no good frame's fields begin so: a length above eight, and a check that doesn't fit, are seen at
    // the first bit that makes them so.
    pub(crate) fn push(self, bit: bool) -> Option<Self>
        requires { whole self ≡ false }
        ensures { Begins (row self) → MatchOption result (Begins (row self ++ bit ∷ []) → ⊥) (λ p. (row p ≡ row self ++ bit ∷ []) × Begins (row p)) }
    {
        let len = self.len_with(bit)?;
        if self.is_in_check() && bit != self.crc.highest() {
            return None;
        }
        Some(Prefix {
            number: 2 * self.number + u128::from(bit),
            count: self.count + 1,
            len,
            crc: self.crc.push_bit(bit),
        })
    }

    // Whether the next bit is one of the check's.
    fn is_in_check(self) -> bool
        ensures { result ≡ nat_le (15 + 8 * self.len) self.count }
    {
        self.count >= HEADER + BYTE * self.len
    }

    // What is known of the length once `bit` is there too; nothing where it is above eight then, whatever comes.
    fn len_with(self, bit: bool) -> Option<u32>
        ensures { MatchOption result (8 < least_length (row self ++ bit ∷ [])) (λ k. (k ≡ length_in (row self ++ bit ∷ [])) × (least_length (row self ++ bit ∷ []) ≤ 8)) }
    {
        if self.count < ID || self.count >= HEADER {
            return Some(self.len);
        }
        let len = 2 * self.len + u32::from(bit);
        // As if only low bits of it were still to come.
        let least = len * (1 << (HEADER - 1 - self.count));
        (least <= LARGEST_LEN).then_some(len)
    }

    // The frame whose fields these are: before the check stand its bytes, and before these its length and its identifier.
    pub(crate) fn frame(self) -> Frame
        requires { whole self ≡ true }
        ensures { Begins (row self) → fields result.id (frame_data result) ≡ row self }
    {
        let plain = self.number >> CHECK;
        let id = plain >> (LENGTH + BYTE * self.len);
        let bytes = plain.to_be_bytes();
        let data = &bytes[bytes.len() - self.len as usize..];
        Frame::new(id as u64, data).unwrap()
    }
}
