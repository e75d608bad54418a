// The rule without auxiliaries.
ghost use Rattle.std.specs.Prelude.{pos};
ghost use Rattle.auxiliary.specs.Rules.{none_laws};

use super::rule::AuxiliaryRule;

// 0 kW at each gross power.
#[derive(Clone, Copy)]
pub struct NoAuxiliaries;

impl AuxiliaryRule for NoAuxiliaries {
    ghost drawn = { λ _ _. pos 0 };

    ghost laws = { none_laws };

    fn auxiliary(&self, _gross: i32) -> i32 {
        0
    }
}
