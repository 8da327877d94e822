// What the console keeps from line to line. The type stands alone here, since the definitions that name it can't be imported
// where it is declared: answer.rt has what it does.
ghost use Rattle.std.specs.Prelude.{◌≡◌, vec_len};
ghost use Rattle.console.specs.Places.{InPlace};

use frame::Frame;

#[derive(Drop)]
pub struct Session {
    // At the place of each name the letter of that name. A map would ask for memory to keep a letter, and a line is answered even
    // where there is none left.
    pub(crate) kept: Vec<Option<Frame>>,
    // The name of the current letter.
    pub(crate) current: Option<u16>,
    ghost whole: { vec_len kept ≡ 2048 },
    ghost placed: { InPlace kept.items },
}
