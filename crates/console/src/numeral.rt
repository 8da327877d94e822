// Numbers in decimal digits. The library's `parse` would take a sign, and refuse a number that is too large, which has to be read here so that
// it is refused as what it is.
ghost use Rattle.std.specs.Prelude.{◌≡◌};
ghost use Rattle.std.specs.Option.{option_map};
ghost use Rattle.console.specs.Numeral.{number_in, capped};

// The number that the digits of `word` write, of any length; the largest of 64 bits stands for each larger one.
pub fn read_number(word: &[u8]) -> Option<u64>
    ensures { result ≡ option_map capped (number_in word.now) }
{
    if word.is_empty() {
        return None;
    }
    let mut number = 0u64;
    for b in word {
        if !b.is_ascii_digit() {
            return None;
        }
        number = number
            .saturating_mul(10)
            .saturating_add(u64::from(*b - b'0'));
    }
    Some(number)
}
