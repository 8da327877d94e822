// What the console refuses, by which number, and at which place.
ghost use Rattle.std.specs.Prelude.{◌≡◌};
ghost use Rattle.console.specs.Refusals.{refusal_number, refusal_place};

use frame::Refusal as Entry;

#[derive(Clone, Copy, Debug, PartialEq, Eq)]
pub enum Refusal {
    // A letter whose name is above 2047.
    Name,
    // A letter with more than eight bytes: how many it has.
    Count(u64),
    // A letter with a byte above 255: the place of the first such byte.
    Byte(u64),
    // A text that can't be read, or asks for what isn't there: the place of its line.
    Unreadable(u64),
}

impl Refusal {
    // The number by which users know it. Where an entry refuses the same, it is the entry's.
    pub fn number(self) -> u64
        ensures { result ≡ refusal_number self }
    {
        match self {
            Refusal::Name | Refusal::Count(_) | Refusal::Byte(_) => Entry::BadLetter.number(),
            Refusal::Unreadable(_) => 4,
        }
    }

    pub fn place(self) -> u64
        ensures { result ≡ refusal_place self }
    {
        match self {
            Refusal::Name => 0,
            Refusal::Count(place) | Refusal::Byte(place) | Refusal::Unreadable(place) => place,
        }
    }
}
