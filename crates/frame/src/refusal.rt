// What the entries refuse, and by which number users know it.
ghost use Rattle.std.specs.Prelude.{◌≡◌};
ghost use Rattle.frame.specs.Entries.{outcome, refusal_number, refused};

use crate::done::Done;

#[derive(Clone, Copy, Debug, PartialEq, Eq)]
pub enum Refusal {
    // A letter that isn't good.
    BadLetter = 1,
    // A bit that is neither 0 nor 1.
    BadBit = 2,
    // A room that isn't as long as it has to be.
    BadRoom = 3,
}

impl Refusal {
    pub fn number(self) -> u64
        ensures { result ≡ refusal_number self }
    {
        self as u64
    }
}

impl From<Refusal> for Done {
    ghost from_gives = { λ r d. outcome d ≡ refused (refusal_number r) };

    fn from(refusal: Refusal) -> Self {
        Done::Refused(refusal.number())
    }
}
