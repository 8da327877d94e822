// A session made, and lines answered.
ghost use Rattle.std.specs.Prelude.{◌≡◌, ℕ, IfOk, Some};
ghost use Rattle.std.specs.Option.{option_map};
ghost use Rattle.frame.specs.Contents.{contents, frame_data};
ghost use Rattle.console.specs.Answers.{answer, line_reply, reply};
ghost use Rattle.console.specs.Commands.{SaysLetter, capped_reading};
ghost use Rattle.console.specs.Reading.{Reading, reading};
ghost use Rattle.console.specs.Sessions.{state, current_letter, no_letters, kept_letter, after};

use crate::command::{Command, read_command};
use crate::letter::Letter;
use crate::refusal::Refusal;
use crate::session::Session;
use frame::{Frame, LARGEST_ID, Line};
use std::alloc::{AllocError, Global};

// How many names there are.
const NAMES: usize = LARGEST_ID as usize + 1;

impl Session {
    // A session that keeps no letter yet.
    pub fn new(heap: Global) -> Result<Self, AllocError>
        ensures { IfOk result (λ s. state s ≡ no_letters) }
    {
        let mut kept = Vec::new(heap);
        kept.resize(NAMES, None)?;
        Ok(Session {
            kept,
            current: None,
        })
    }

    // Does what the line with this text says, or refuses it; `place` is the line's place. What is answered is the current
    // letter's line, or nothing.
    pub fn answer(&mut self, text: &[u8], place: u64) -> Result<Option<Line>, Refusal>
        ensures answer { reply result ≡ answer place (reading text.now) (state self.old) }
        ensures kept { state self.new ≡ after (reading text.now) (state self.old) }
    {
        let Some(command) = read_command(text) else {
            return Err(Refusal::Unreadable(place));
        };
        // A letter and `line` have functions of their own: here, what these hold would be made ready for every line, a blank one too.
        match command {
            Command::Blank => Ok(None),
            Command::Letter(letter) => self.letter(letter),
            Command::Line => self.line(place),
        }
    }

    // Keeps the letter, if it is good, and says what is answered to whatever was read as it.
    fn letter(&mut self, letter: Letter) -> Result<Option<Line>, Refusal>
        ensures answer { (p : ℕ) (r : Reading) → SaysLetter (Some letter) (capped_reading r) → reply result ≡ answer p r (state self.old) }
        ensures kept { (r : Reading) → SaysLetter (Some letter) (capped_reading r) → state self.new ≡ after r (state self.old) }
    {
        self.keep(Frame::try_from(letter)?);
        Ok(None)
    }

    // The current letter's line, or a refusal where there is no such letter.
    fn line(&self, place: u64) -> Result<Option<Line>, Refusal>
        ensures { reply result ≡ line_reply place (current_letter (state self.now)) }
    {
        let frame = self.current_letter().ok_or(Refusal::Unreadable(place))?;
        Ok(Some(Line::from(&frame)))
    }

    // The letter that was kept last. A current name has its letter in the table, so that only the first `?` is ever taken.
    fn current_letter(&self) -> Option<Frame>
        ensures { option_map contents result ≡ current_letter (state self.now) }
    {
        let name = self.current?;
        *self.kept.get(name as usize)?
    }

    // Keeps a good letter under its name, in place of an earlier one, as the current one.
    fn keep(&mut self, frame: Frame)
        ensures { state self.new ≡ kept_letter frame.id (frame_data frame) (state self.old) }
    {
        let name = frame.id();
        self.kept[name as usize] = Some(frame);
        self.current = Some(name);
    }
}
