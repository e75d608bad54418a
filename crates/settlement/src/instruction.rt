// The dispatch instruction of a period.
ghost use Rattle.std.specs.Prelude.{◌≡◌, true};
ghost use Rattle.settlement.specs.Bounds.{instruction_bounds};

// In kWh: energies from -300,000 to 300,000, weights from 0 to 300,000.
#[derive(Clone, Copy)]
pub struct Instruction {
    pub instructed: i64,
    pub market_schedule: i64,
    pub direct_weight: i64,
    pub scheduled_weight: i64,
    ghost bounded: { instruction_bounds instructed market_schedule direct_weight scheduled_weight ≡ true },
}
