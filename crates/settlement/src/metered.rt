// The certified meter of a period.
ghost use Rattle.std.specs.Prelude.{◌≡◌, true};
ghost use Rattle.settlement.specs.Bounds.{meter_bounds};

// From 0 to 300,000 kWh.
#[derive(Clone, Copy)]
pub struct Metered {
    pub kilowatt_hours: i64,
    ghost bounded: { meter_bounds kilowatt_hours ≡ true },
}
