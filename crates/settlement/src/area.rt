// The areas of a piece, in halves.

// Upward and downward where the piece counts, idle where it does not.
#[derive(Clone, Copy, PartialEq, Eq, Debug)]
pub struct Areas {
    pub upward: i64,
    pub downward: i64,
    pub idle: i64,
}
