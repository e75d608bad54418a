// What the tests of records share: samples that a record takes, and the pieces that it answers.
use power::piece::{GrossPiece, Piece};
use power::record::PowerRecord;
use power::refusal::Refusal;
use power::sample::Sample;

// Takes a sample; the number of its refusal, if it is refused.
pub fn take<R: PowerRecord>(
    record: &mut R,
    instant: i64,
    power: i64,
    flag: bool,
) -> Result<(), u32> {
    record
        .take(Sample {
            instant,
            power,
            flag,
        })
        .map_err(Refusal::number)
}

pub fn piece(start: i32, end: i32, width: u16, counts: bool) -> Option<GrossPiece> {
    Some(Piece {
        start,
        end,
        width,
        counts,
    })
}
