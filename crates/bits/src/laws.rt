// The laws of bits, numbers and checks: each function's contract is one of them, and the function does nothing.
ghost use Rattle.bits.specs.Laws.{NumberOfBits, BitsOfNumber, XorTurns, CrcOfOwnCheck, CrcLinear, CrcByBytes, CrcOfLowFront, CrcOf5_1, CrcOf0};

pub fn number_of_bits()
    ensures { NumberOfBits }
{}

pub fn bits_of_number()
    ensures { BitsOfNumber }
{}

pub fn xor_turns()
    ensures { XorTurns }
{}

pub fn crc_of_own_check()
    ensures { CrcOfOwnCheck }
{}

pub fn crc_linear()
    ensures { CrcLinear }
{}

pub fn crc_by_bytes()
    ensures { CrcByBytes }
{}

pub fn crc_of_low_front()
    ensures { CrcOfLowFront }
{}

pub fn crc_of_5_1()
    ensures { CrcOf5_1 }
{}

pub fn crc_of_0()
    ensures { CrcOf0 }
{}
