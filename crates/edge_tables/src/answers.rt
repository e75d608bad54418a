// What the tests ask of an answer.
use settlement::powers::NetPower;
use settlement::refusal::Refusal;

// The number of the refusal, where it is one.
pub fn refusal_number<T: Drop>(answer: Result<T, Refusal>) -> Option<u32> {
    answer.err().map(Refusal::number)
}

// The net power in kW, which must be in bounds.
pub fn net_power(kilowatts: i64) -> Result<NetPower, Refusal> {
    NetPower::new(kilowatts).ok_or(Refusal::OutOfBounds)
}
