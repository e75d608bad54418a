// What a log takes in. A refusal leaves its entries and every slot as they were.
ghost use Rattle.std.specs.Prelude.{◌≡◌, length};
ghost use Rattle.keyed_log.specs.Entries.{last};
ghost use Rattle.keyed_log.specs.Logs.{held, memory};
ghost use Rattle.keyed_log.specs.Writing.{appending, appended, append_slots, later, replacing, replaced, replace_slots, same};

use super::keyed::Keyed;
use super::log::Log;
use super::refusal::Refusal;

impl<'a, E: Keyed> Log<'a, E> {
    // Whether `e` has a later key than the last entry, if there is one.
    fn is_later(&self, e: E) -> bool
        ensures { result ≡ later E.key (last (held self.now)) e }
    {
        self.last().is_none_or(|x| x.key_of() < e.key_of())
    }

    // Whether there is a last entry, and `e` has its key.
    fn is_same(&self, e: E) -> bool
        ensures { result ≡ same E.key (last (held self.now)) e }
    {
        self.last().is_some_and(|x| x.key_of() == e.key_of())
    }

    // Adds an entry with a key above the last one's.
    pub fn append(&mut self, e: E) -> Result<(), Refusal>
        ensures answer { result ≡ appending E.key (held self.old) (length (memory self.old)) e }
        ensures held { held self.new ≡ appended result (held self.old) e }
        ensures memory { memory self.new ≡ append_slots result (memory self.old) (length (held self.old)) e }
    {
        let true = self.is_later(e) else {
            return Err(Refusal::NotRising);
        };
        let true = self.used < self.slots.len() else {
            return Err(Refusal::Full);
        };
        self.slots[self.used] = e;
        self.used += 1;
        Ok(())
    }

    // Puts `e` in the place of the last entry, which has the same key.
    pub fn replace_last(&mut self, e: E) -> Result<(), Refusal>
        ensures answer { result ≡ replacing E.key (held self.old) e }
        ensures held { held self.new ≡ replaced result (held self.old) e }
        ensures memory { memory self.new ≡ replace_slots result (memory self.old) (length (held self.old)) e }
    {
        let true = self.is_same(e) else {
            return Err(Refusal::NotRising);
        };
        self.slots[self.used - 1] = e;
        Ok(())
    }
}
