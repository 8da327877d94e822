// A line: what goes over the bus for a frame. The type stands alone here, since the definitions that name it can't be imported
// where it is declared: lines.rt has what it does, and maker.rt how it is made.
ghost use Rattle.std.specs.Prelude.{◌≤◌, length};
ghost use Rattle.row.specs.Items.{items};

use row::Row;

// No frame's line is longer.
pub const LONGEST_LINE: usize = 125;

#[derive(Clone, Copy)]
pub struct Line {
    pub(crate) bits: Row<bool, LONGEST_LINE>,
    ghost fits: { length (items bits) ≤ 125 },
}
