// The minute record's type.
ghost use Rattle.std.specs.Prelude.{◌≡◌, true};
ghost use Rattle.keyed_log.specs.Entries.{last as newest};
ghost use Rattle.keyed_log.specs.Logs.{held};
ghost use Rattle.minute_record.specs.Minutes.{Sampled, is_recent};

use super::minute::Minute;
use keyed_log::keyed::Keyed;
use keyed_log::log::Log;

// The recorded minutes, and the last instant taken.
#[derive(Drop)]
pub struct MinuteRecord<'a> {
    pub(crate) log: Log<'a, Minute>,
    pub(crate) latest: Option<i64>,
    ghost sampled: { Sampled (held log) },
    ghost recent: { is_recent latest (newest (held log)) ≡ true },
}
