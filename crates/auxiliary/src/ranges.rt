// The ranges of a draft and of a declaration.
ghost use Rattle.std.specs.Prelude.{◌≡◌, ◌≤◌, true, [], ◌∷◌, ◌++◌, length};
ghost use Rattle.auxiliary.specs.Ranges.{gross_bound, within_bounds, all_within_bounds, last_of, Rising, has_room, above};

use super::range::{MOST_RANGES, Range};
use arrayvec::ArrayVec;

// By rising gross bounds, in the value itself.
#[derive(Drop)]
pub(crate) struct Ranges {
    pub(crate) listed: ArrayVec<Range, MOST_RANGES>,
    ghost few: { length listed.items ≤ 10 },
    ghost bounded: { all_within_bounds listed.items ≡ true },
    ghost rising: { Rising listed.items },
}

impl Ranges {
    pub(crate) fn new() -> Ranges
        ensures { result.listed.items ≡ [] }
    {
        Ranges {
            listed: ArrayVec::new(),
        }
    }

    // Whether a gross bound, in kW, is above that of the last range, where there is one.
    pub(crate) fn ends_below(&self, gross_bound: i64) -> bool
        ensures { result ≡ above (last_of self.now.listed.items) gross_bound }
    {
        self.listed
            .last()
            .is_none_or(|last| last.gross_bound() < gross_bound)
    }

    pub(crate) fn push(&mut self, range: Range)
        requires bounds { within_bounds range ≡ true }
        requires room { has_room self.old.listed.items ≡ true }
        requires higher { above (last_of self.old.listed.items) (gross_bound range) ≡ true }
        ensures { self.new.listed.items ≡ self.old.listed.items ++ range ∷ [] }
    {
        self.listed.push(range);
    }
}
