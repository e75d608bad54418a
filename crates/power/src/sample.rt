// What a recorder writes down.
use keyed_log::keyed::Keyed;

// Any numbers: a record judges them when it takes the sample.
#[derive(Clone, Copy, PartialEq, Eq, Debug)]
pub struct Sample {
    // second of the day
    pub instant: i64,
    // gross, kW
    pub power: i64,
    // the unit was under automatic generation control
    pub flag: bool,
}

impl Keyed for Sample {
    ghost key = { λ s. s.instant };

    fn key_of(&self) -> i64 {
        self.instant
    }
}
