// The factor by which a period's net powers are certified.
ghost use Rattle.std.specs.Prelude.{◌≡◌, true};
ghost use Rattle.settlement.specs.Bounds.{factor_bounds};

use arith::divisor::Divisor;

// The certified sum A over the net sum N, both in halves. It is kept as two numbers and never rounded.
#[derive(Clone, Copy)]
pub struct Factor {
    pub net_sum: Divisor,
    pub certified_sum: i64,
    ghost bounded: { factor_bounds net_sum.value certified_sum ≡ true },
}
