// Bits of a number, by quotient and remainder, and the number back from its bits.
ghost use Rattle.std.specs.Prelude.{◌≡◌, length};
ghost use Rattle.bits.specs.Bits.{bit_at, bits_of};
ghost use Rattle.bits.specs.Number.{number, in_u64};

// The bit of `x` that counts 2 to the power of `place`; low past the number's 128.
pub fn bit_at(x: u128, place: u32) -> bool
    ensures { result ≡ bit_at x place }
{
    place < u128::BITS && x / (1 << place) % 2 == 1
}

// Fills `out` with as many of the lowest bits of `x` as it has places, the highest first. It goes by places from the last one on: to fill the
// slice from its front and turn it round takes half as long again, and through `iter_mut().rev()` the check finds no proof by itself.
pub fn write_bits(x: u64, out: &mut [bool])
    ensures { out.new ≡ bits_of (length out.old) x }
{
    let mut rest = x;
    for i in (0..out.len()).rev() {
        out[i] = rest % 2 == 1;
        rest /= 2;
    }
}

// The number that `bits` write, the highest first, if it is below 2 to the power of 64.
pub fn number_of(bits: &[bool]) -> Option<u64>
    ensures { result ≡ in_u64 (number bits.now) }
{
    let mut number = 0u64;
    for b in bits {
        number = number.checked_mul(2)?.checked_add(u64::from(*b))?;
    }
    Some(number)
}
