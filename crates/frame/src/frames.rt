// Frames made, asked and compared.
ghost use Rattle.std.specs.Prelude.{◌≡◌, ◌↔◌, if◌then◌else◌, Some, None, IsTrue};
ghost use Rattle.std.specs.Cmp.{and_equiv, and_per, nat_eq_equiv, on_equiv, on_per, partial_equiv_from_equiv};
ghost use Rattle.std.specs.Cmp.Lexicographic.{lists_equiv};
ghost use Rattle.std.specs.Option.{option_map};
ghost use Rattle.frame.specs.Contents.{contents, frame_data, frame_eq};
ghost use Rattle.frame.specs.Good.{good};

use crate::frame::{Frame, LARGEST_ID};
use row::Row;
use std::fmt;

impl Frame {
    // The frame with this identifier and these bytes, if it is good.
    pub fn new(id: u64, bytes: &[u8]) -> Option<Self>
        ensures { option_map contents result ≡ (if good id bytes.now then Some (id, bytes.now) else None) }
    {
        if id > LARGEST_ID {
            return None;
        }
        let mut frame = Frame {
            id: id as u16,
            bytes: Row::new(),
        };
        frame.bytes.extend_from_slice(bytes).ok()?;
        Some(frame)
    }

    pub fn id(&self) -> u16
        ensures { result ≡ self.now.id }
    {
        self.id
    }

    pub fn data(&self) -> &[u8]
        ensures { result.now ≡ frame_data self.now }
    {
        self.bytes.as_slice()
    }
}

// Frames are alike if their identifiers and their bytes are. A derive would promise which function it computes, and not what that decides.
impl PartialEq for Frame {
    ghost eq = { frame_eq };

    ghost laws = { and_per (on_per frame_data (partial_equiv_from_equiv (lists_equiv nat_eq_equiv))) (on_per (λ f. f.id) (partial_equiv_from_equiv nat_eq_equiv)) };

    fn eq(&self, other: &Frame) -> bool
        ensures computed { result ≡ frame_eq self.now other.now }
        ensures decided { IsTrue result ↔ (contents self.now ≡ contents other.now) }
    {
        self.bytes == other.bytes && self.id == other.id
    }
}

impl Eq for Frame {
    ghost laws = { and_equiv (on_equiv frame_data (lists_equiv nat_eq_equiv)) (on_equiv (λ f. f.id) nat_eq_equiv) };
}

// As its identifier and its bytes are written, and not how they lie.
impl fmt::Debug for Frame {
    fn fmt<W: fmt::Write>(&self, f: &mut fmt::Formatter<W>) -> fmt::Result {
        let id = self.id;
        let data = self.data();
        write!(f, "Frame({id}, {data:?})")
    }
}

// What `==` decides of frames, as a function: whether their identifiers and their bytes are the same. Lines have such a function of their
// own, since what it says of them is another thing.
pub fn is_same_frame(a: &Frame, b: &Frame) -> bool
    ensures computed { result ≡ frame_eq a.now b.now }
    ensures decided { IsTrue result ↔ (contents a.now ≡ contents b.now) }
{
    a == b
}
