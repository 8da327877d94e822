// The numbers behind a letter's name: how many there are, and the first eight of them. A letter has no use for more, since one
// with more than eight bytes isn't good whatever they are. They lie in fixed memory, since a line is answered even where there
// is no memory left.
ghost use Rattle.std.specs.Prelude.{◌≡◌, ℕ, ◌+◌, ◌^◌, ◌<◌, min, List, [], ◌∷◌, ◌++◌, length};
ghost use Rattle.row.specs.Items.{items};

use frame::MOST_BYTES;
use row::Row;

// Which numbers a value stands for isn't told by it, past the eighth, so that contracts say it, as `Holds`, and not the type.
#[derive(Clone, Copy)]
pub struct Numbers {
    pub(crate) count: usize,
    pub(crate) first: Row<u64, MOST_BYTES>,
    // So each value stands for some numbers.
    ghost filled: { length (items first) ≡ min count 8 },
}

impl Numbers {
    ghost use Rattle.console.specs.Commands.{Holds};

    // No number yet.
    pub(crate) fn new() -> Self
        ensures { Holds result [] }
    {
        Numbers {
            count: 0,
            first: Row::new(),
        }
    }

    // One number more, which is only counted where the row is full.
    pub(crate) fn push(&mut self, number: u64)
        requires { self.old.count + 1 < 2 ^ 64 }
        ensures count { self.new.count ≡ self.old.count + 1 }
        ensures holds { (ns : List ℕ) → Holds self.old ns → Holds self.new (ns ++ number ∷ []) }
    {
        let _ = self.first.push(number);
        self.count += 1;
    }
}
