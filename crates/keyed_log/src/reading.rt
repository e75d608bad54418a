// How a log begins, and the questions to it. None changes it.
ghost use Rattle.std.specs.Prelude.{◌≡◌, [], length};
ghost use Rattle.std.specs.List.{slice_get};
ghost use Rattle.keyed_log.specs.Entries.{first, last as latest, through as at_or_before, onward as at_or_after, between as strictly_between};
ghost use Rattle.keyed_log.specs.Logs.{held, memory};

use super::keyed::Keyed;
use super::log::Log;
use super::search::{between, onward, through};

impl<'a, E: Keyed> Log<'a, E> {
    // A log without entries, for as many as the memory has slots.
    pub fn over(slots: &'a mut [E]) -> Self
        ensures none { held result ≡ [] }
        ensures memory { memory result ≡ slots.old }
    {
        Log { slots, used: 0 }
    }

    pub fn count(&self) -> usize
        ensures { result ≡ length (held self.now) }
    {
        self.used
    }

    // The entries, in the sequence of their keys.
    pub fn entries(&self) -> &[E]
        ensures { result.now ≡ held self.now }
    {
        &self.slots[..self.used]
    }

    // The entry at a place from 0; none past the end.
    pub fn at(&self, place: usize) -> Option<E>
        ensures { result ≡ slice_get (held self.now) place }
    {
        self.entries().get(place).copied()
    }

    // The last entry; none where the log is empty.
    pub fn last(&self) -> Option<E>
        ensures { result ≡ latest (held self.now) }
    {
        self.entries().last().copied()
    }

    // The entries with a key at or before `n`.
    pub fn through(&self, n: i64) -> &[E]
        ensures { result.now ≡ at_or_before E.key n (held self.now) }
    {
        through(self.entries(), n)
    }

    // The entries with a key at or after `n`.
    pub fn onward(&self, n: i64) -> &[E]
        ensures { result.now ≡ at_or_after E.key n (held self.now) }
    {
        onward(self.entries(), n)
    }

    // The entries with a key after `a` and before `b`.
    pub fn between(&self, a: i64, b: i64) -> &[E]
        ensures { result.now ≡ strictly_between E.key a b (held self.now) }
    {
        between(self.entries(), a, b)
    }

    // The last entry with a key at or before `n`; none where there is no such entry.
    pub fn last_at_or_before(&self, n: i64) -> Option<E>
        ensures { result ≡ latest (at_or_before E.key n (held self.now)) }
    {
        self.through(n).last().copied()
    }

    // The first entry with a key at or after `n`; none where there is no such entry.
    pub fn first_at_or_after(&self, n: i64) -> Option<E>
        ensures { result ≡ first (at_or_after E.key n (held self.now)) }
    {
        self.onward(n).first().copied()
    }
}
