// What a whole number may be divided by.
ghost use Rattle.std.specs.Prelude.{◌^◌, ◌<◌};

// A whole number above 0 that an `i64` holds.
#[derive(Clone, Copy)]
pub struct Divisor {
    pub value: u64,
    ghost positive: { 0 < value },
    ghost small: { value < 2 ^ 63 },
}
