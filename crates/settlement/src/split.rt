// What the split of the instructed energy gives.

// In kWh, with the sign of what is split.
#[derive(Clone, Copy, PartialEq, Eq, Debug)]
pub struct Parts {
    pub direct: i64,
    pub scheduled: i64,
    pub other: i64,
}
