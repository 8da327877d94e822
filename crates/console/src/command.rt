// A line of text read as a command.
ghost use Rattle.std.specs.Prelude.{◌≡◌};
ghost use Rattle.std.specs.Option.{option_and_then, option_map};
ghost use Rattle.console.specs.Commands.{Says, SaysLetter, capped_reading};
ghost use Rattle.console.specs.Numeral.{capped, number_in};
ghost use Rattle.console.specs.Reading.{reading, letter_words, before_colon};
ghost use Rattle.console.specs.Words.{words};

use crate::letter::Letter;
use crate::numbers::Numbers;
use crate::numeral::read_number;

const LINE: &[u8] = b"line";

// A letter begins with this word, and a space behind it.
const LETTER: &[u8] = b"letter ";

const SPACE: u8 = b' ';

const COLON: &[u8] = b":";

// What a line says.
#[derive(Clone, Copy)]
pub enum Command {
    Blank,
    Letter(Letter),
    Line,
}

// What a line with this text says, if it can be read.
pub fn read_command(text: &[u8]) -> Option<Command>
    ensures { Says result (capped_reading (reading text.now)) }
{
    if text.is_empty() {
        return Some(Command::Blank);
    }
    if text == LINE {
        return Some(Command::Line);
    }
    let letter = read_letter(text.strip_prefix(LETTER)?)?;
    Some(Command::Letter(letter))
}

// The letter, if `text` is what stands behind the word `letter` and its space: a name, and numbers.
fn read_letter(text: &[u8]) -> Option<Letter>
    ensures { SaysLetter result (capped_reading (letter_words (words text.now))) }
{
    let mut words = text.split(|b| *b == SPACE);
    let name = read_name(words.next()?)?;
    let mut bytes = Numbers::new();
    for word in words {
        bytes.push(read_number(word)?);
    }
    Some(Letter { name, bytes })
}

// The number in a word that a colon ends.
fn read_name(word: &[u8]) -> Option<u64>
    ensures { result ≡ option_map capped (option_and_then number_in (before_colon word.now)) }
{
    read_number(word.strip_suffix(COLON)?)
}
