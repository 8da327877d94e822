// The laws of fields, lines and answers: each function's contract is one of them, and the function does nothing.
ghost use Rattle.frame.specs.Laws.{FiveThenOther, NoSix, LengthOfLine, LongestLine, Unstuffed, FieldsInLine, LineOf0, LineOf5_1, LineOf1007, FieldsApart, OutcomesApart};

pub fn five_then_other()
    ensures { FiveThenOther }
{}

pub fn no_six()
    ensures { NoSix }
{}

pub fn length_of_line()
    ensures { LengthOfLine }
{}

pub fn longest_line()
    ensures { LongestLine }
{}

pub fn unstuffed()
    ensures { Unstuffed }
{}

pub fn fields_in_line()
    ensures { FieldsInLine }
{}

pub fn fields_apart()
    ensures { FieldsApart }
{}

pub fn outcomes_apart()
    ensures { OutcomesApart }
{}

pub fn line_of_0()
    ensures { LineOf0 }
{}

pub fn line_of_5_1()
    ensures { LineOf5_1 }
{}

pub fn line_of_1007()
    ensures { LineOf1007 }
{}
