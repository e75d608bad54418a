// Areas of a piece: on the level, above, below and across it, counting or not.
use super::answers::net_power;
use power::piece::Piece;
use settlement::area::Areas;
use settlement::factor::Factor;
use settlement::metered::Metered;
use settlement::piece::{areas, net_energy};
use settlement::powers::Level;
use settlement::terms::Terms;
use std::test::Fail;

fn parts(upward: i64, downward: i64, idle: i64) -> Areas {
    Areas {
        upward,
        downward,
        idle,
    }
}

fn piece<P>(start: P, end: P, width: u16, counts: bool) -> Piece<P> {
    Piece {
        start,
        end,
        width,
        counts,
    }
}

#[test]
fn across_the_level(rt: HostRuntime) {
    // deviations, width, (upward, downward) of a piece that counts
    for (start, end, width, (upward, downward)) in [
        (0, 0, 1, (0, 0)),
        (0, 5, 60, (300, 0)),
        (5, 0, 60, (300, 0)),
        (0, -5, 60, (0, 300)),
        (-5, 0, 60, (0, 300)),
        (3, 4, 60, (420, 0)),
        (-3, -4, 60, (0, 420)),
        (7, 9, 0, (0, 0)),
        (-600, 1_400, 900, (882_000, 162_000)),
        (1_400, -600, 900, (882_000, 162_000)),
        (-597, 1_405, 900, (887_423, 160_223)),
        (1, -1, 1, (0, 0)),
        (-1, 1, 1, (0, 0)),
        (1, -2, 1, (0, 1)),
        (-1, 2, 1, (1, 0)),
        (1, -2, 900, (300, 1_200)),
    ] {
        let r = areas(piece(start, end, width, true));
        assert_eq!(rt; r, parts(upward, downward, 0));
    }
}

#[test]
fn far_from_the_level(rt: HostRuntime) {
    // deviations, width, (upward, downward) of a piece that counts
    for (start, end, width, (upward, downward)) in [
        (5_400_000, 5_400_000, 1, (10_800_000, 0)),
        (5_400_000, 5_400_000, 900, (9_720_000_000, 0)),
        (-5_400_000, -5_400_000, 900, (0, 9_720_000_000)),
        (5_400_000, -5_400_000, 1, (2_700_000, 2_700_000)),
        (-5_400_000, 5_400_000, 1, (2_700_000, 2_700_000)),
        (5_400_000, -5_400_000, 900, (2_430_000_000, 2_430_000_000)),
        (5_400_000, -5_399_999, 900, (2_430_000_225, 2_429_999_325)),
        (-1, 5_400_000, 900, (4_859_999_100, 0)),
        (1, -5_400_000, 900, (0, 4_859_999_100)),
        (i32::MAX, i32::MAX, 65_535, (281_470_681_612_290, 0)),
        (i32::MIN, i32::MIN, 65_535, (0, 281_470_681_743_360)),
        (
            i32::MAX,
            i32::MIN,
            65_535,
            (70_367_670_386_688, 70_367_670_452_223),
        ),
        (
            i32::MIN,
            i32::MAX,
            65_535,
            (70_367_670_386_688, 70_367_670_452_223),
        ),
        (i32::MAX, -1, 65_535, (140_735_340_740_610, 0)),
        (i32::MIN, 1, 65_535, (0, 140_735_340_806_145)),
        (i32::MIN, 0, 65_535, (0, 140_735_340_871_680)),
    ] {
        let r = areas(piece(start, end, width, true));
        assert_eq!(rt; r, parts(upward, downward, 0));
    }
}

#[test]
fn not_counting(rt: HostRuntime) {
    // deviations, width, idle
    for (start, end, width, idle) in [
        (0, 0, 900, 0),
        (3, 4, 60, 420),
        (-3, -4, 60, -420),
        (-597, 1_405, 900, 727_200),
        (-5_400_000, -5_400_000, 900, -9_720_000_000),
        (i32::MIN, i32::MIN, 65_535, -281_470_681_743_360),
        (i32::MIN, i32::MAX, 65_535, -65_535),
    ] {
        let r = areas(piece(start, end, width, false));
        assert_eq!(rt; r, parts(0, 0, idle));
    }
}

#[test]
fn net_energies(rt: HostRuntime) -> Result<(), Fail> {
    // net powers, width, net energy
    for (start, end, width, energy) in [
        (0, 0, 900, 0),
        (-1_050_000, -1_050_000, 900, -1_890_000_000),
        (1_000_000, 1_000_000, 900, 1_800_000_000),
        (-1_050_000, 1_000_000, 1, -50_000),
        (214_800, 264_800, 120, 57_552_000),
        (1, 2, 65_535, 196_605),
    ] {
        let start = net_power(start)?;
        let end = net_power(end)?;
        assert_eq!(rt; net_energy(piece(start, end, width, true)), energy);
    }
    Ok(())
}

#[test]
fn pieces(rt: HostRuntime) -> Result<(), Fail> {
    let terms = Terms {
        factor: Factor::new(513_066_000, Metered::new(75_000)?)?,
        level: Level::new(70_000)?,
    };
    // net powers, width, whether it counts, (upward, downward, idle)
    for (start, end, width, counts, (upward, downward, idle)) in [
        (279_750, 264_800, 120, true, (1_589_308, 12_868, 0)),
        (267_800, 249_800, 120, true, (21_867, 1_849_227, 0)),
        (249_800, 239_800, 60, true, (0, 2_681_820, 0)),
        (264_800, 279_750, 120, false, (0, 0, 1_576_440)),
        (
            -1_050_000,
            1_000_000,
            900,
            true,
            (248_920_481, 800_282_981, 0),
        ),
    ] {
        let start = net_power(start)?;
        let end = net_power(end)?;
        let r = terms.areas(piece(start, end, width, counts));
        assert_eq!(rt; r, parts(upward, downward, idle));
    }
    Ok(())
}
