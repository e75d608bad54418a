// What a period's gross power has above and below a level.
ghost use Rattle.std.specs.Prelude.{◌≡◌, ◌^◌, true, ◌+ℤ◌, ◌-ℤ◌};
ghost use Rattle.power.specs.Day.{gross_bounds};
ghost use Rattle.power.specs.Course.{LawfulPiece, listed};
ghost use Rattle.settlement.specs.Areas.{Small};
ghost use Rattle.course.specs.Gross.{gross_areas, Sums, AtMost};

use power::piece::GrossPiece;
use power::pieces::Pieces;
use power::record::PowerRecord;
use settlement::area::Areas;
use settlement::piece::areas;
use settlement::powers::Level;

// A gross power less the level, in kW.
fn over(gross: i32, level: Level) -> i32
    requires { gross_bounds gross ≡ true }
    ensures { result ≡ gross -ℤ level.kilowatts }
{
    gross - level.kilowatts
}

// The areas of a piece, in halves: its gross power is held against the level as it is, not certified.
fn piece_areas(piece: GrossPiece, level: Level) -> Areas
    requires { LawfulPiece piece }
    ensures value { result ≡ gross_areas level.kilowatts piece }
    ensures small { Small result }
{
    areas(piece.with_ends(over(piece.start, level), over(piece.end, level)))
}

fn plus(a: Areas, b: Areas) -> Areas
    requires sum { AtMost (2 ^ 60) a }
    requires small { Small b }
    ensures upward { result.upward ≡ a.upward +ℤ b.upward }
    ensures downward { result.downward ≡ a.downward +ℤ b.downward }
    ensures idle { result.idle ≡ a.idle +ℤ b.idle }
{
    Areas {
        upward: a.upward + b.upward,
        downward: a.downward + b.downward,
        idle: a.idle + b.idle,
    }
}

// The areas of all pieces of a period.
pub(crate) fn period_areas<R: PowerRecord>(power: &R, period: i64, level: Level) -> Areas
    ensures { Sums level.kilowatts (listed (R.course power.now period)) result }
{
    let mut sum = Areas {
        upward: 0,
        downward: 0,
        idle: 0,
    };
    for piece in Pieces::of(power, period) {
        sum = plus(sum, piece_areas(piece, level));
    }
    sum
}
