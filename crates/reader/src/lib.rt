// Lines read, bit by bit, and the bytes of a frame handed back as a part of a row.
#![tactic(auto)]

mod entries;
mod hearing;
pub mod laws;
mod places;
mod prefix;
mod prefixes;
mod reader;
mod reading;
mod rows;

pub use entries::read_line;
pub use places::place_above;
pub use reading::Reading;
pub use rows::bytes_of;
