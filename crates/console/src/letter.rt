// A letter as it was read: its name, and the numbers behind it. Nothing is known of them yet, but that the largest of 64 bits
// stands for each larger one.
use crate::numbers::Numbers;

#[derive(Clone, Copy)]
pub struct Letter {
    pub(crate) name: u64,
    pub(crate) bytes: Numbers,
}
