// The minutes of a quarter of an hour, as printed and as worked.
use settlement::area::Areas;
use settlement::powers::NetPower;

// A minute of a printed table: its net power, and its upward and downward energy in kWh.
#[derive(Clone, Copy)]
pub struct PrintedMinute {
    pub net: NetPower,
    pub upward: u32,
    pub downward: u32,
}

// The same minute worked: its certified power in kW, its areas, and whether both are those printed to 1 kWh.
#[derive(Clone, Copy)]
pub struct WorkedMinute {
    pub certified: i32,
    pub areas: Areas,
    pub agrees: bool,
}

// The upward and the downward area of the whole quarter of an hour, in halves.
#[derive(Clone, Copy)]
pub struct Totals {
    pub upward: i64,
    pub downward: i64,
}
