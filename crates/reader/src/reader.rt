// A line that is being read, behind its start. The type stands alone here, since the definitions that name it can't be imported
// where it is declared: hearing.rt has what it does.
ghost use Rattle.std.specs.Prelude.{◌≡◌, ◌+◌, ◌*◌, ◌<◌, ◌≤◌, false};
ghost use Rattle.frame.specs.Stuffing.{due};

use crate::prefix::Prefix;
use frame::Run;

#[derive(Clone, Copy)]
pub struct Reader {
    // The fields so far, with stuff bits taken out.
    pub(crate) fields: Prefix,
    // How the fields end as they were heard, with stuff bits.
    pub(crate) run: Run,
    // How many bits of the line's end were read.
    pub(crate) end: usize,
    ghost counted: { (1 ≤ run.count) × (run.count ≤ 5) × (end ≤ 6) },
    ghost ending: { (0 < end → (fields.count ≡ 30 + 8 * fields.len) × (due run.count ≡ false)) },
}
