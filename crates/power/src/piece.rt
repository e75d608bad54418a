// One piece of a period's course.
ghost use Rattle.std.specs.Prelude.{◌≡◌};

// Power in kW goes in a straight line from `start` to `end`, over `width` seconds.
#[derive(Clone, Copy, PartialEq, Eq, Debug)]
pub struct Piece<P> {
    pub start: P,
    pub end: P,
    pub width: u16,
    // it takes part in upward and downward energy; else it is idle
    pub counts: bool,
}

// A piece of gross power.
pub type GrossPiece = Piece<i32>;

impl<P: Copy> Piece<P> {
    // The same piece between other ends.
    pub fn with_ends<Q>(self, start: Q, end: Q) -> Piece<Q>
        ensures { result ≡ record { start = start; end = end; width = self.width; counts = self.counts } }
    {
        Piece {
            start,
            end,
            width: self.width,
            counts: self.counts,
        }
    }
}
