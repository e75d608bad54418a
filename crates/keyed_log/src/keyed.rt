// What a log asks of its entries.
ghost use Rattle.std.specs.Prelude.{◌≡◌, ℤ};

// An entry with a whole-number key.
pub trait Keyed: Copy {
    ghost key: { Self → ℤ };

    fn key_of(&self) -> i64
        ensures { result ≡ key self.now };
}
