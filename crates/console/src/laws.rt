// The laws of texts, refusals and sessions: each function's contract is one of them, and the function does nothing.
ghost use Rattle.console.specs.Laws.{SpacedWords, WordsSpaced, BlankIsEmpty, TypedIsRead, ReadWasTyped, LineWasTyped, EachHolds, GoodOrRefused, RefusedInOrder, RefusedSame, LineOfLast, Examples};

pub fn spaced_words()
    ensures { SpacedWords }
{}

pub fn words_spaced()
    ensures { WordsSpaced }
{}

pub fn blank_is_empty()
    ensures { BlankIsEmpty }
{}

pub fn typed_is_read()
    ensures { TypedIsRead }
{}

pub fn read_was_typed()
    ensures { ReadWasTyped }
{}

pub fn line_was_typed()
    ensures { LineWasTyped }
{}

pub fn each_holds()
    ensures { EachHolds }
{}

pub fn good_or_refused()
    ensures { GoodOrRefused }
{}

pub fn refused_in_order()
    ensures { RefusedInOrder }
{}

pub fn refused_same()
    ensures { RefusedSame }
{}

pub fn line_of_last()
    ensures { LineOfLast }
{}

pub fn examples()
    ensures { Examples }
{}
