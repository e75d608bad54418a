// The pieces of a period's course, one after the other.
ghost use Rattle.std.specs.Prelude.{◌≡◌};
ghost use Rattle.std.specs.Iterator.{YieldsFirst, item_count};
ghost use Rattle.power.specs.Course.{listed};

use super::piece::GrossPiece;
use super::record::PowerRecord;
use std::marker::Model;

// The pieces that are still to come, seen as their list.
#[derive(Drop)]
pub struct Pieces<'a, R: PowerRecord> {
    power: &'a R,
    period: i64,
    place: usize,
}

impl<'a, R: PowerRecord> Model for Pieces<'a, R> {
    ghost use Rattle.std.specs.Prelude.{List, drop};
    ghost use Rattle.power.specs.Course.{GrossPiece, listed};

    ghost Value = { List GrossPiece };

    ghost view = { λ s. drop s.place (listed (R.course s.power.now s.period)) };
}

impl<'a, R: PowerRecord> Pieces<'a, R> {
    // All pieces of the period; none where it is not covered.
    pub fn of(power: &'a R, period: i64) -> Self
        ensures { result ≡ listed (R.course power.now period) }
    {
        Pieces {
            power,
            period,
            place: 0,
        }
    }
}

impl<R: PowerRecord> Iterator for Pieces<'_, R> {
    type Item = GrossPiece;

    ghost next_gives = { YieldsFirst (λ left. left) };

    ghost remaining = { item_count (λ left. left) };

    #[tactic(auto, using(crate::proofs::Left::left_at))]
    fn next(&mut self) -> Option<GrossPiece> {
        let piece = self.power.piece(self.period, self.place)?;
        self.place += 1;
        Some(piece)
    }
}
