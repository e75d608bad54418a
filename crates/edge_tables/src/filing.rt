// Numbers just inside and just outside their bounds, and the numbers of the refusals.
use super::answers::refusal_number;
use settlement::instruction::Instruction;
use settlement::metered::Metered;
use settlement::powers::{Level, NetPower};
use settlement::refusal::Refusal;
use std::test::Fail;

#[test]
fn net_powers(rt: HostRuntime) {
    // kW, whether it is taken
    for (kilowatts, taken) in [
        (i64::MIN, false),
        (-1_050_001, false),
        (-1_050_000, true),
        (0, true),
        (1_000_000, true),
        (1_000_001, false),
        (i64::MAX, false),
    ] {
        let net = NetPower::new(kilowatts);
        assert_eq!(rt;
            net.is_some_and(|net| net.kilowatts as i64 == kilowatts),
            taken
        );
    }
}

#[test]
fn levels(rt: HostRuntime) -> Result<(), Fail> {
    // kWh, level in kW
    for (instructed, level) in [
        (-300_000, -1_200_000),
        (-1, -4),
        (0, 0),
        (1, 4),
        (300_000, 1_200_000),
    ] {
        assert_eq!(rt; Level::new(instructed)?.kilowatts, level);
        assert_eq!(rt;
            Instruction::new(instructed, 7, 1, 1)?.level().kilowatts,
            level
        );
    }
    Ok(())
}

#[test]
fn energies(rt: HostRuntime) {
    // kWh, number of the refusal as an energy, as a weight or a meter
    for (filed, energy, weight) in [
        (i64::MIN, Some(6), Some(6)),
        (-300_001, Some(6), Some(6)),
        (-300_000, None, Some(6)),
        (-1, None, Some(6)),
        (0, None, None),
        (300_000, None, None),
        (300_001, Some(6), Some(6)),
        (i64::MAX, Some(6), Some(6)),
    ] {
        assert_eq!(rt; refusal_number(Level::new(filed)), energy);
        assert_eq!(rt; refusal_number(Metered::new(filed)), weight);
        assert_eq!(rt; refusal_number(Instruction::new(filed, 0, 0, 0)), energy);
        assert_eq!(rt; refusal_number(Instruction::new(0, filed, 0, 0)), energy);
        assert_eq!(rt; refusal_number(Instruction::new(0, 0, filed, 0)), weight);
        assert_eq!(rt; refusal_number(Instruction::new(0, 0, 0, filed)), weight);
    }
}

#[test]
fn refusals(rt: HostRuntime) {
    for (refusal, number) in [
        (Refusal::OutOfBounds, 6),
        (Refusal::NoNetEnergy, 11),
        (Refusal::FactorAboveFour, 12),
    ] {
        assert_eq!(rt; refusal.number(), number);
    }
}
