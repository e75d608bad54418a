// The areas of one piece above and below the level, from its deviations or its net powers.
ghost use Rattle.std.specs.Prelude.{◌≡◌, ℕ, ◌+◌, ◌*◌, ◌/◌, ◌^◌, ◌<◌, ◌≤◌, ℤ, pos, ◌+ℤ◌, ◌-ℤ◌, ◌*ℤ◌, unsigned_abs};
ghost use Rattle.settlement.specs.Areas.{signed, upward as upward_of, areas as areas_of, slack, Near, Small, Whole};
ghost use Rattle.settlement.specs.Terms.{areas_by, NearBy};
ghost use Rattle.settlement.specs.Fractions.{Rounds};

use super::area::Areas;
use super::powers::NetPower;
use super::terms::Terms;
use arith::division::divide;
use arith::divisor::Divisor;
use power::piece::Piece;

// A piece of net power.
pub type NetPiece = Piece<NetPower>;

// A piece held against a level: its ends are what certified power has above the level, in kW.
pub type DeviationPiece = Piece<i32>;

fn sum(a: i32, b: i32) -> i64
    ensures value { result ≡ a +ℤ b }
    ensures bound { unsigned_abs result ≤ 2 ^ 32 }
{
    a as i64 + b as i64
}

fn times(height: i64, width: u16) -> i64
    requires { unsigned_abs height ≤ 2 ^ 32 }
    ensures value { result ≡ height *ℤ pos width }
    ensures bound { unsigned_abs result ≤ 2 ^ 48 }
{
    height * width as i64
}

// (start + end) × width: what lies below the level counts as negative.
pub fn signed_area(piece: DeviationPiece) -> i64
    ensures value { result ≡ signed piece.start piece.end piece.width }
    ensures bound { unsigned_abs result ≤ 2 ^ 48 }
{
    times(sum(piece.start, piece.end), piece.width)
}

// The floor of g × g × w / (g + s), where the line goes from g above the level to s below it, or back.
// The width comes in after the first division, so that no product leaves 64 bits.
fn crossing(above: u32, below: u32, width: u16) -> i64
    requires below { 0 < below }
    requires above { above ≤ 2 ^ 31 }
    ensures value { result ≡ pos (above * above * width / (above + below)) }
    ensures bound { unsigned_abs result ≤ 2 ^ 48 }
{
    let by = Divisor {
        value: above as u64 + below as u64,
    };
    let (whole, rest) = divide(above as i64 * above as i64, by);
    let (part, _) = divide(rest as i64 * width as i64, by);
    whole * width as i64 + part
}

// What a piece has above the level.
pub fn upward_area(piece: DeviationPiece) -> i64
    ensures value { result ≡ upward_of piece.start piece.end piece.width }
    ensures bound { unsigned_abs result ≤ 2 ^ 48 }
{
    let high = piece.start.max(piece.end);
    let low = piece.start.min(piece.end);
    if low >= 0 {
        return signed_area(piece);
    }
    if high <= 0 {
        return 0;
    }
    crossing(high.unsigned_abs(), low.unsigned_abs(), piece.width)
}

// What a piece has above the level, below it, and idle; `areas` states its laws.
fn worked_areas(piece: DeviationPiece) -> Areas
    ensures value { result ≡ areas_of piece.start piece.end piece.width piece.counts }
    ensures small { Small result }
{
    let signed = signed_area(piece);
    if !piece.counts {
        return Areas {
            upward: 0,
            downward: 0,
            idle: signed,
        };
    }
    let upward = upward_area(piece);
    Areas {
        upward,
        downward: upward - signed,
        idle: 0,
    }
}

// The areas of a piece that goes in a straight line from one deviation to another.
pub fn areas(piece: DeviationPiece) -> Areas
    ensures value { result ≡ areas_of piece.start piece.end piece.width piece.counts }
    ensures whole { Whole piece.start piece.end piece.width result }
    ensures small { Small result }
    ensures near { (N : ℕ) (x y : ℤ) → 0 < N → Rounds N piece.start x → Rounds N piece.end y → Near (piece.width + slack piece.start piece.end) N x y piece.width piece.counts result }
{
    worked_areas(piece)
}

// The net energy of a piece: (net start + net end) × width.
pub fn net_energy(piece: NetPiece) -> i64
    ensures value { result ≡ signed piece.start.kilowatts piece.end.kilowatts piece.width }
    ensures bound { unsigned_abs result ≤ 2 ^ 48 }
{
    signed_area(piece.with_ends(piece.start.kilowatts, piece.end.kilowatts))
}

impl Terms {
    // The areas of a piece of net power; `areas` states how near they lie.
    fn worked_areas(self, piece: NetPiece) -> Areas
        ensures value { result ≡ areas_by self piece }
        ensures small { Small result }
    {
        let from = self.deviation(piece.start);
        let to = self.deviation(piece.end);
        worked_areas(piece.with_ends(from, to))
    }

    // The areas of a piece of net power, certified and held against the level.
    pub fn areas(self, piece: NetPiece) -> Areas
        ensures value { result ≡ areas_by self piece }
        ensures small { Small result }
        ensures near { NearBy self piece result }
    {
        self.worked_areas(piece)
    }
}
