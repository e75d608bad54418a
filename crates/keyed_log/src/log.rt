// The log's type.
ghost use Rattle.std.specs.Prelude.{◌≤◌, length, take};
ghost use Rattle.keyed_log.specs.Entries.{Rising};

use super::keyed::Keyed;

// The first `used` of the borrowed slots hold the log's entries, whose keys rise.
#[derive(Drop)]
pub struct Log<'a, E: Keyed> {
    pub(crate) slots: &'a mut [E],
    pub(crate) used: usize,
    pub ghost fits: { used ≤ length slots.now },
    pub ghost rising: { Rising E.key (take used slots.now) },
}
