// What the entries answer: making a line, and reading one, which stands in a crate above this one. It is no `Result`, and a refusal is a
// number here, since users know these answers by their names and numbers, and they are to be handed to C so. Inside, refusals are
// `Refusal`.

#[derive(Clone, Copy, Debug, PartialEq, Eq)]
pub enum Done {
    // A line was made; how long it is.
    Made(u64),
    // The room is too short for the line; how long that is.
    Short(u64),
    // A line was read: the letter's name, how many bytes it has, and where its line ends.
    Read(u64, u64, u64),
    // No line stands there.
    Nothing,
    // Refused, by this number.
    Refused(u64),
}
