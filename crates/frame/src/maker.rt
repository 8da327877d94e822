// The maker of a line. A maker of rows puts the fields' bits, and a maker of stuff bits puts one where one is due; each hands on
// to the other, since what is put in counts as any other bit. So each has one rule and a contract of its own, where a loop would hold both.
// What they share stands behind one reference, so that a compiler can make one loop of the two.
ghost use Rattle.std.specs.Prelude.{◌≡◌, ◌+◌, ◌≤◌, ◌++◌, not, length};
ghost use Rattle.frame.specs.Contents.{frame_data, line_bits};
ghost use Rattle.frame.specs.Line.{start, end, line};
ghost use Rattle.frame.specs.Making.{Fits, HasPut, Puts, Ready, Started, rest, rest_due};
ghost use Rattle.row.specs.Items.{items};

use crate::fields::Fields;
use crate::frame::Frame;
use crate::line::{LONGEST_LINE, Line};
use crate::run::Run;
use row::Row;

// The bit that a line begins with, a low one.
pub const START: bool = false;

// How many high bits a line ends with.
pub const END: usize = 7;

// A line that is being made.
#[derive(Drop)]
struct Maker {
    // The bits of the fields that are still to put.
    fields: Fields,
    // How the bits that were put end.
    run: Run,
    bits: Row<bool, LONGEST_LINE>,
}

// The line of a frame.
impl From<&Frame> for Line {
    ghost from_gives = { λ frame l. line_bits l ≡ line frame.now.id (frame_data frame.now) };

    fn from(frame: &Frame) -> Self {
        let mut maker = Maker::new(frame);
        maker.put_row();
        maker.finish()
    }
}

impl Maker {
    // A maker that has the line of `frame` to make, and has put its start, which counts as any other bit.
    fn new(frame: &Frame) -> Self
        ensures { Started frame.now result }
    {
        let mut maker = Maker {
            fields: Fields::from(frame),
            run: Run::new(START),
            bits: Row::new(),
        };
        maker.bits.push(START).unwrap();
        maker
    }

    // Puts what is left of the fields.
    #[cycle(put_row_put_stuff_bit)]
    fn put_row(&mut self)
        requires { Fits 4 self.old (rest self.old) }
        ensures { Puts self.old (rest self.old) self.new }
    {
        let Some(bit) = self.fields.next() else {
            return;
        };
        self.put(bit);
        self.put_stuff_bit();
    }

    // Puts a stuff bit if one is due, and goes on with the row.
    #[cycle(put_row_put_stuff_bit)]
    fn put_stuff_bit(&mut self)
        requires { Fits 5 self.old (rest_due self.old) }
        ensures { Puts self.old (rest_due self.old) self.new }
    {
        if self.run.is_due() {
            self.put_other();
        }
        self.put_row();
    }

    // Puts a bit of the other kind than the last one.
    fn put_other(&mut self)
        requires { Ready self.old }
        ensures { HasPut (not self.old.run.bit) self.old self.new }
    {
        self.put(self.run.stuff_bit());
    }

    // Puts one bit, and counts how many like it stand together now.
    fn put(&mut self, bit: bool)
        requires { Ready self.old }
        ensures { HasPut bit self.old self.new }
    {
        self.run = self.run.with(bit);
        self.bits.push(bit).unwrap();
    }

    // The line: what was put, and behind it high bits for its end. The maker is lent, which spares a copy.
    fn finish(&mut self) -> Line
        requires { length (items self.old.bits) + length end ≤ 125 }
        ensures { line_bits result ≡ items self.old.bits ++ end }
    {
        self.bits.extend_from_slice(&[true; END]).unwrap();
        Line { bits: self.bits }
    }
}
