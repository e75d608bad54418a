// A range of a declaration.
ghost use Rattle.std.specs.Prelude.{◌≡◌, int_le};
ghost use Rattle.auxiliary.specs.Ranges.{gross_bound};

// The most ranges that a declaration has.
pub const MOST_RANGES: usize = 10;

// In kW; in a draft and in a declaration the net bound is from 0 to 1,000,000, the auxiliary power from 0 to 50,000.
#[derive(Clone, Copy, Default)]
pub struct Range {
    pub net_bound: i32,
    pub auxiliary: i32,
}

impl Range {
    // Net bound plus auxiliary power, in kW.
    pub(crate) fn gross_bound(self) -> i64
        ensures { result ≡ gross_bound self }
    {
        self.net_bound as i64 + self.auxiliary as i64
    }

    // Whether its gross bound is at least that gross power, in kW.
    pub(crate) fn reaches(self, gross: i32) -> bool
        ensures { result ≡ int_le gross (gross_bound self) }
    {
        gross as i64 <= self.gross_bound()
    }
}
