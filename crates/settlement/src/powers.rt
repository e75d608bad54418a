// Net power and the instructed level, in kW.
ghost use Rattle.std.specs.Prelude.{◌≡◌, true};
ghost use Rattle.settlement.specs.Bounds.{net_power_bounds, level_bounds};

// Gross power less auxiliaries: from -1,050,000 to 1,000,000 kW.
#[derive(Clone, Copy)]
pub struct NetPower {
    pub kilowatts: i32,
    ghost bounded: { net_power_bounds kilowatts ≡ true },
}

// The instructed energy as a constant power over the period: from -1,200,000 to 1,200,000 kW.
#[derive(Clone, Copy)]
pub struct Level {
    pub kilowatts: i32,
    ghost bounded: { level_bounds kilowatts ≡ true },
}
