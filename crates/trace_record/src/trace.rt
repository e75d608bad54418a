// The trace record's type.
ghost use Rattle.std.specs.Prelude.{◌≤◌};
ghost use Rattle.keyed_log.specs.Logs.{held};
ghost use Rattle.power.specs.Taking.{Bounded};

use keyed_log::log::Log;
use power::sample::Sample;

// Samples in the sequence of their instants, and the longest width of a piece that counts, in seconds.
#[derive(Drop)]
pub struct TraceRecord<'a> {
    pub(crate) log: Log<'a, Sample>,
    pub(crate) critical: u16,
    ghost bounded: { Bounded (held log) },
    ghost short: { critical ≤ 900 },
}
