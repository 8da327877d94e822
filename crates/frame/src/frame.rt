// A good frame: no other can be made. The type stands alone here, since the definitions that name it can't be imported where
// it is declared: frames.rt has what it does.
ghost use Rattle.std.specs.Prelude.{◌≡◌, ◌<◌, ◌≤◌, true, length};
ghost use Rattle.frame.specs.Good.{all_bytes};
ghost use Rattle.row.specs.Items.{items};

use row::Row;

// The largest identifier.
pub const LARGEST_ID: u64 = 2047;

// The most bytes that a frame carries.
pub const MOST_BYTES: usize = 8;

#[derive(Clone, Copy)]
pub struct Frame {
    pub(crate) id: u16,
    pub(crate) bytes: Row<u8, MOST_BYTES>,
    ghost good: { (id < 2048) × (length (items bytes) ≤ 8) },
    ghost narrow: { all_bytes (items bytes) ≡ true },
}
