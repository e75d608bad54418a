// What a declaration in force answers.
ghost use Rattle.std.specs.Prelude.{◌≡◌};
ghost use Rattle.auxiliary.specs.Answering.{in_force, first_reaching, declared};
ghost use Rattle.auxiliary.specs.InForce.{declared_laws};

use super::declaration::Declaration;
use super::range::Range;
use super::rule::AuxiliaryRule;

// The first range whose gross bound is at least that gross power, in kW.
fn first_reaching(ranges: &[Range], gross: i32) -> Option<Range>
    ensures { result ≡ first_reaching ranges.now gross }
{
    ranges.iter().copied().find(|range| range.reaches(gross))
}

impl Declaration {
    // The auxiliary power at a gross power, both in kW.
    pub fn auxiliary_at(&self, gross: i32) -> i32
        ensures { result ≡ declared (in_force self.now) gross }
    {
        let ranges = self.ranges.listed.as_slice();
        let first = first_reaching(ranges, gross);
        let last = ranges.last().copied();
        first.or(last).map_or(0, |range| range.auxiliary)
    }
}

impl AuxiliaryRule for Declaration {
    ghost drawn = { λ d gross. declared (in_force d) gross };

    ghost laws = { declared_laws };

    fn auxiliary(&self, gross: i32) -> i32 {
        self.auxiliary_at(gross)
    }
}
