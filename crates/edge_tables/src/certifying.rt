// The factor and what it certifies, at its bounds.
use super::answers::{net_power, refusal_number};
use settlement::factor::Factor;
use settlement::metered::Metered;
use settlement::powers::Level;
use settlement::terms::Terms;
use std::test::Fail;

#[test]
fn factors(rt: HostRuntime) -> Result<(), Fail> {
    // net sum, meter, number of the refusal
    for (net_sum, meter, number) in [
        (0, 0, Some(11)),
        (-1, 0, Some(11)),
        (i64::MIN, 300_000, Some(11)),
        (0, 300_000, Some(11)),
        (1, 0, None),
        (1, 1, Some(12)),
        (7_200, 4, None),
        (7_200, 5, Some(12)),
        (7_199, 4, Some(12)),
        (1_800, 1, None),
        (1_799, 1, Some(12)),
        (540_000_000, 300_000, None),
        (539_999_999, 300_000, Some(12)),
        (4_611_686_018_427_387_903, 300_000, None),
        (4_611_686_018_427_387_904, 300_000, None),
        (i64::MAX, 0, None),
        (i64::MAX, 300_000, None),
    ] {
        let factor = Factor::new(net_sum, Metered::new(meter)?);
        assert_eq!(rt; refusal_number(factor), number);
    }
    Ok(())
}

#[test]
fn certified_powers(rt: HostRuntime) -> Result<(), Fail> {
    // net sum, meter, net power, certified power
    for (net_sum, meter, net, certified) in [
        (7_200, 4, -1_050_000, -4_200_000),
        (7_200, 4, 0, 0),
        (7_200, 4, 1_000_000, 4_000_000),
        (540_000_000, 300_000, -1_050_000, -4_200_000),
        (540_000_000, 300_000, 1_000_000, 4_000_000),
        (14_400, 1, -1_050_000, -525_000),
        (14_400, 1, -3, -1),
        (14_400, 1, -1, 0),
        (14_400, 1, 1, 1),
        (14_400, 1, 3, 2),
        (7_200, 0, 1_000_000, 0),
        (1_890_000_000, 1, -1_050_000, -4),
        (1_890_000_000, 1, 1_000_000, 4),
        (i64::MAX, 300_000, -1_050_000, 0),
        (i64::MAX, 300_000, 1_000_000, 0),
        (1_079_802_000, 139_047, -1_050_000, -973_507),
        (1_079_802_000, 139_047, 1_000_000, 927_150),
    ] {
        let factor = Factor::new(net_sum, Metered::new(meter)?)?;
        let net = net_power(net)?;
        assert_eq!(rt; factor.certified(net), certified);
    }
    Ok(())
}

#[test]
fn deviations(rt: HostRuntime) -> Result<(), Fail> {
    // net sum, meter, net power, instructed energy, deviation
    for (net_sum, meter, net, instructed, deviation) in [
        (7_200, 4, -1_050_000, 300_000, -5_400_000),
        (7_200, 4, -1_050_000, -300_000, -3_000_000),
        (7_200, 4, 1_000_000, -300_000, 5_200_000),
        (7_200, 4, 0, 300_000, -1_200_000),
        (7_200, 4, 0, 0, 0),
        (14_400, 1, -1, 1, -4),
        (14_400, 1, 1, -1, 5),
        (1_079_802_000, 139_047, 429_800, 135_000, -141_511),
    ] {
        let terms = Terms {
            factor: Factor::new(net_sum, Metered::new(meter)?)?,
            level: Level::new(instructed)?,
        };
        let net = net_power(net)?;
        assert_eq!(rt; terms.deviation(net), deviation);
    }
    Ok(())
}
