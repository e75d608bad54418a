// The reference figures, proved of the definitions and worked by the code.
ghost use Rattle.std.specs.Prelude.{◌≡◌, true};
ghost use Rattle.power.specs.Day.{gross_bounds};
ghost use Rattle.figures.specs.Figures.{ReferenceFigures, power_at_the_start, HasTwoRanges};

use auxiliary::declaration::Declaration;
use auxiliary::draft::Draft;
use power::sample::Sample;
use trace_record::trace::TraceRecord;

// The power at second 900 of a trace that has 0 kW at second 899 and another power at second 901.
fn power_at_the_start(later: i64) -> Option<i64>
    ensures { gross_bounds later ≡ true → result ≡ power_at_the_start later }
{
    let first = Sample {
        instant: 899,
        power: 0,
        flag: true,
    };
    let second = Sample {
        instant: 901,
        power: later,
        flag: true,
    };
    let mut memory = [first; 2];
    let mut trace = TraceRecord::over(&mut memory, 900);
    trace.take_sample(first).ok()?;
    trace.take_sample(second).ok()?;
    let point = trace.point_at(900)?;
    Some(point.power)
}

fn boundary_agrees() -> bool
    ensures { result ≡ true }
{
    (power_at_the_start(1) == Some(1)) & (power_at_the_start(-1) == Some(0))
}

// The declaration of 200 kW up to 270,000 kW net and 250 kW up to 600,000 kW net.
fn declaration() -> Declaration
    ensures { HasTwoRanges result }
{
    let mut draft = Draft::new();
    let _ = draft.add(270_000, 200);
    let _ = draft.add(600_000, 250);
    draft.put_into_force()
}

fn ranges_agree() -> bool
    ensures { result ≡ true }
{
    let declaration = declaration();
    let below = declaration.auxiliary_at(270_200) == 200;
    let above = declaration.auxiliary_at(270_201) == 250;
    let beyond = declaration.auxiliary_at(700_000) == 250;
    below & above & beyond
}

// Whether the code gives each reference figure.
pub fn reference_figures() -> bool
    ensures figures { ReferenceFigures }
    ensures agree { result ≡ true }
{
    boundary_agrees() & ranges_agree() & settlement::figures::reference_figures()
}
