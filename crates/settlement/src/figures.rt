// The reference figures, proved of the definitions and worked by the code.
ghost use Rattle.std.specs.Prelude.{◌≡◌, true};
ghost use Rattle.settlement.specs.Figures.{ReferenceFigures};

use super::area::Areas;
use super::factor::Factor;
use super::instruction::Instruction;
use super::metered::Metered;
use super::piece::{areas, net_energy};
use super::powers::{Level, NetPower};
use super::split::Parts;
use super::terms::Terms;
use arith::interpolation::interpolate;
use power::piece::Piece;

fn net_energy_agrees() -> bool
    ensures { result ≡ true }
{
    let piece = Piece {
        start: NetPower { kilowatts: 214_800 },
        end: NetPower { kilowatts: 264_800 },
        width: 120,
        counts: true,
    };
    net_energy(piece) == 57_552_000
}

fn interpolation_agrees() -> bool
    ensures { result ≡ true }
{
    (interpolate(0, 1, 1, 2) == Some(1)) & (interpolate(0, -1, 1, 2) == Some(0))
}

fn crossing_agrees() -> bool
    ensures { result ≡ true }
{
    let even = Piece {
        start: -600,
        end: 1_400,
        width: 900,
        counts: true,
    };
    let floored = even.with_ends(-597, 1_405);
    (areas(even)
        == Areas {
            upward: 882_000,
            downward: 162_000,
            idle: 0,
        })
        & (areas(floored)
            == Areas {
                upward: 887_423,
                downward: 160_223,
                idle: 0,
            })
}

fn split_agrees() -> bool
    ensures { result ≡ true }
{
    let instruction = Instruction {
        instructed: 0,
        market_schedule: 7,
        direct_weight: 1,
        scheduled_weight: 1,
    };
    instruction.split()
        == Parts {
            direct: -3,
            scheduled: -4,
            other: 0,
        }
}

fn factor_agrees() -> bool
    ensures { result ≡ true }
{
    let passes = Factor::new(7_200, Metered { kilowatt_hours: 4 });
    let refused = Factor::new(7_200, Metered { kilowatt_hours: 5 });
    passes.is_ok() & refused.is_err_and(|refusal| refusal.number() == 12)
}

fn certified_agrees() -> bool
    ensures { result ≡ true }
{
    let Ok(factor) = Factor::new(
        1_079_802_000,
        Metered {
            kilowatt_hours: 139_047,
        },
    ) else {
        return false;
    };
    let Ok(level) = Level::new(135_000) else {
        return false;
    };
    let net = NetPower { kilowatts: 429_800 };
    let piece = Piece {
        start: net,
        end: net,
        width: 60,
        counts: true,
    };
    (factor.certified(net) == 398_489)
        & (Terms { factor, level }.areas(piece)
            == Areas {
                upward: 0,
                downward: 16_981_320,
                idle: 0,
            })
}

// Whether the code gives each reference figure.
pub fn reference_figures() -> bool
    ensures figures { ReferenceFigures }
    ensures agree { result ≡ true }
{
    let leaves = net_energy_agrees() & interpolation_agrees() & crossing_agrees();
    leaves & split_agrees() & factor_agrees() & certified_agrees()
}
