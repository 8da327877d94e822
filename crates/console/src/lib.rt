// The console's language: a line of text is read, answered, and changes what the session keeps.
#![tactic(auto)]

mod answer;
mod command;
mod judge;
pub mod laws;
mod letter;
mod numbers;
mod numeral;
mod refusal;
mod session;
mod text;

pub use refusal::Refusal;
pub use session::Session;
pub use text::Printed;
