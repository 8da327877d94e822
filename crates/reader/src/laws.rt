// The laws of reading: each function's contract is one of them, and the function does nothing.
ghost use Rattle.reader.specs.Laws.{OneReading, WideByte, NoLineBeginsAnother, MadeIsRead, ReadWasMade, FoundStands, SevenWithin, LineOf5_1Read, NineBytes, StillWithin, ReadThenMade, MadeThenRead, FirstAbove, BytesInRow};

pub fn one_reading()
    ensures { OneReading }
{}

pub fn wide_byte()
    ensures { WideByte }
{}

pub fn no_line_begins_another()
    ensures { NoLineBeginsAnother }
{}

pub fn made_is_read()
    ensures { MadeIsRead }
{}

pub fn read_was_made()
    ensures { ReadWasMade }
{}

pub fn found_stands()
    ensures { FoundStands }
{}

pub fn seven_within()
    ensures { SevenWithin }
{}

pub fn line_of_5_1_read()
    ensures { LineOf5_1Read }
{}

pub fn nine_bytes()
    ensures { NineBytes }
{}

pub fn still_within()
    ensures { StillWithin }
{}

pub fn read_then_made()
    ensures { ReadThenMade }
{}

pub fn made_then_read()
    ensures { MadeThenRead }
{}

pub fn first_above()
    ensures { FirstAbove }
{}

pub fn bytes_in_row()
    ensures { BytesInRow }
{}
