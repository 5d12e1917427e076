// Rows that have a key.
ghost use Rattle.std.specs.Prelude.{◌≡◌, ℕ};

// By its ghost member a contract names the key; of a closure it would have to say what it computes.
pub trait Keyed {
    ghost key_of: { Self → ℕ };

    fn key(&self) -> usize
        ensures { result ≡ key_of self.now };
}
