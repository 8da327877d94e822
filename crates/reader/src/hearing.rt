// A line heard bit by bit, behind its start.
ghost use Rattle.std.specs.Prelude.{◌≡◌, true, false, [], ◌∷◌};
ghost use Rattle.frame.specs.Line.{start};
ghost use Rattle.frame.specs.Stuffing.{due};
ghost use Rattle.reader.specs.Hearing.{Goes, Has, whole};

use crate::prefix::Prefix;
use crate::reader::Reader;
use frame::{END, Frame, Run, START};

// What one bit more makes of the bits that were heard, where some good frame's line begins with them all. The library's `ControlFlow` has
// this shape; these names say what was heard.
#[derive(Clone, Copy)]
pub enum Heard {
    // They begin a line, and more is to come.
    Within(Reader),
    // They are the line of this frame.
    Line(Frame),
}

// `Goes` stands in four contracts: it relates what is asked to what is answered, so that no type can have it, and `hear` promises what
// each of its three steps does.
impl Reader {
    // A reader that has heard the start.
    pub(crate) fn new() -> Self
        ensures { Has (start ∷ []) result }
    {
        Reader {
            fields: Prefix::new(),
            run: Run::new(START),
            end: 0,
        }
    }

    // One bit more: a stuff bit where one is due, else one of the fields, and behind them one of the end; nothing where no good
    // frame's line goes on so. What comes next is told by what was heard, so there is no step to keep; a table of the three steps would
    // say the same conditions again.
    pub(crate) fn hear(self, bit: bool) -> Option<Heard>
        ensures { Goes self bit result }
    {
        if self.run.is_due() {
            self.hear_stuff_bit(bit)
        } else if self.fields.is_whole() {
            self.hear_end_bit(bit)
        } else {
            self.hear_field_bit(bit)
        }
    }

    // A bit where a stuff bit is due.
    fn hear_stuff_bit(self, bit: bool) -> Option<Heard>
        requires { due self.run.count ≡ true }
        ensures { Goes self bit result }
    {
        if bit != self.run.stuff_bit() {
            return None;
        }
        Some(Heard::Within(Reader {
            fields: self.fields,
            run: Run::new(bit),
            end: 0,
        }))
    }

    // A bit of the fields.
    fn hear_field_bit(self, bit: bool) -> Option<Heard>
        requires { (due self.run.count ≡ false) × (whole self.fields ≡ false) }
        ensures { Goes self bit result }
    {
        let fields = self.fields.push(bit)?;
        Some(Heard::Within(Reader {
            fields,
            run: self.run.with(bit),
            end: 0,
        }))
    }

    // A bit of the line's end. A struct with ghost fields can't be built by `..self`.
    fn hear_end_bit(self, bit: bool) -> Option<Heard>
        requires { (due self.run.count ≡ false) × (whole self.fields ≡ true) }
        ensures { Goes self bit result }
    {
        if !bit {
            return None;
        }
        if self.end + 1 == END {
            return Some(Heard::Line(self.fields.frame()));
        }
        Some(Heard::Within(Reader {
            fields: self.fields,
            run: self.run,
            end: self.end + 1,
        }))
    }
}
