// The entries of a slice with rising keys up to a bound and from it on, found by halving.
ghost use Rattle.std.specs.Prelude.{◌≡◌};
ghost use Rattle.keyed_log.specs.Entries.{Rising, through as at_or_before, onward as at_or_after, between as strictly_between};

use super::keyed::Keyed;

// The entries with a key at or before `n`.
pub(crate) fn through<E: Keyed>(entries: &[E], n: i64) -> &[E]
    requires { Rising E.key entries.now }
    ensures { result.now ≡ at_or_before E.key n entries.now }
{
    &entries[..entries.partition_point(|e| e.key_of() <= n)]
}

// The entries with a key at or after `n`.
pub(crate) fn onward<E: Keyed>(entries: &[E], n: i64) -> &[E]
    requires { Rising E.key entries.now }
    ensures { result.now ≡ at_or_after E.key n entries.now }
{
    &entries[entries.partition_point(|e| e.key_of() < n)..]
}

// The entries with a key after `a` and before `b`.
pub(crate) fn between<E: Keyed>(entries: &[E], a: i64, b: i64) -> &[E]
    requires { Rising E.key entries.now }
    ensures { result.now ≡ strictly_between E.key a b entries.now }
{
    let before = &entries[..entries.partition_point(|e| e.key_of() < b)];
    &before[before.partition_point(|e| e.key_of() <= a)..]
}
