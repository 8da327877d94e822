// Where a number stands that is too large.
ghost use Rattle.std.specs.Prelude.{◌≡◌};
ghost use Rattle.reader.specs.Places.{first_above};

// The place of the first of `numbers` that is above `most`, if there is one.
pub fn place_above(most: u8, numbers: &[u8]) -> Option<usize>
    ensures { result ≡ first_above most numbers.now }
{
    numbers.iter().position(|number| *number > most)
}
