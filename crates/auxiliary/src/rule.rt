// What an auxiliary rule is.
ghost use Rattle.std.specs.Prelude.{◌≡◌, ℤ};
ghost use Rattle.auxiliary.specs.Rules.{RuleLaws};

pub trait AuxiliaryRule {
    // The auxiliary power at a gross power, both in kW.
    ghost drawn: { Self → ℤ → ℤ };

    // What each rule must prove.
    ghost laws: { RuleLaws drawn };

    // That power at `gross`; asking changes nothing.
    fn auxiliary(&self, gross: i32) -> i32
        ensures { result ≡ drawn self.now gross };
}
