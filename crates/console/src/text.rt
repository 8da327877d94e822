// The text of an answer, with its lines' ends.
ghost use Rattle.std.specs.Prelude.{Some};
ghost use Rattle.console.specs.Answers.{reply, reply_text};

use crate::refusal::Refusal;
use frame::Line;
use std::fmt;

// An answer as it is printed: nothing where there is nothing to say, else the current letter's line or a refusal.
#[derive(Clone, Copy, Debug, PartialEq, Eq)]
pub struct Printed(pub Result<Option<Line>, Refusal>);

impl fmt::Display for Printed {
    ghost output = { λ p. Some (reply_text (reply p.0)) };

    fn fmt<W: fmt::Write>(&self, f: &mut fmt::Formatter<W>) -> fmt::Result {
        match &self.0 {
            Ok(None) => Ok(()),
            Ok(Some(line)) => writeln!(f, "{line}"),
            Err(refusal) => {
                let number = refusal.number();
                let place = refusal.place();
                writeln!(f, "refused {number} at {place}")
            }
        }
    }
}
