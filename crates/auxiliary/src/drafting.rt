// What a draft does.
ghost use Rattle.std.specs.Prelude.{◌≡◌, true, false, [], length, is_ok, IfOk, IfErr};
ghost use Rattle.auxiliary.specs.Bounds.{range_bounds};
ghost use Rattle.auxiliary.specs.Answering.{in_force};
ghost use Rattle.auxiliary.specs.Ranges.{range_of};
ghost use Rattle.auxiliary.specs.Drafting.{ranges_of, adding, added};
ghost use Rattle.auxiliary.specs.declared.refusal.Refusal.TheVariants.{OutOfBounds};

use super::declaration::Declaration;
use super::draft::Draft;
use super::range::Range;
use super::ranges::Ranges;
use super::refusal::Refusal;

// kW
pub const MOST_NET_BOUND: i64 = 1_000_000;

pub const MOST_AUXILIARY: i64 = 50_000;

// The range of a net bound and an auxiliary power, in kW.
fn range_of(net_bound: i64, auxiliary: i64) -> Result<Range, Refusal>
    ensures taken { IfOk result (λ r. (range_bounds net_bound auxiliary ≡ true) × (r ≡ range_of net_bound auxiliary)) }
    ensures refused { IfErr result (λ e. (range_bounds net_bound auxiliary ≡ false) × (e ≡ OutOfBounds)) }
{
    if (0..=MOST_NET_BOUND).contains(&net_bound) && (0..=MOST_AUXILIARY).contains(&auxiliary) {
        Ok(Range {
            net_bound: net_bound as i32,
            auxiliary: auxiliary as i32,
        })
    } else {
        Err(Refusal::OutOfBounds)
    }
}

impl Draft {
    // Without ranges.
    pub fn new() -> Draft
        ensures { ranges_of result ≡ [] }
    {
        Draft {
            ranges: Ranges::new(),
        }
    }

    // How many ranges it has.
    pub fn count(&self) -> usize
        ensures { result ≡ length (ranges_of self.now) }
    {
        self.ranges.listed.len()
    }

    // One range more, of a net bound and an auxiliary power in kW; a refused one leaves the draft as it was.
    pub fn add(&mut self, net_bound: i64, auxiliary: i64) -> Result<(), Refusal>
        ensures answer { result ≡ adding (ranges_of self.old) net_bound auxiliary }
        ensures after { ranges_of self.new ≡ added (ranges_of self.old) net_bound auxiliary }
        ensures refused { is_ok result ≡ false → self.new ≡ self.old }
    {
        let range = range_of(net_bound, auxiliary)?;
        let false = self.ranges.listed.is_full() else {
            return Err(Refusal::TooManyRanges);
        };
        let true = self.ranges.ends_below(range.gross_bound()) else {
            return Err(Refusal::NotRising);
        };
        self.ranges.push(range);
        Ok(())
    }

    // The declaration of the same ranges.
    pub fn put_into_force(self) -> Declaration
        ensures { in_force result ≡ ranges_of self }
    {
        Declaration {
            ranges: self.ranges,
        }
    }
}
