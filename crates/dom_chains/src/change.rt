//! Changes of the items of a key.

ghost use Rattle.std.specs.Prelude.{◌≡◌, ℕ};

/// A change of an item and of its key.
pub trait Change<T> {
    // the key and the item after the change
    ghost changed: { Self → ℕ × T → ℕ × T };

    // the condition on an item that is changed
    ghost CanTake: { Self → ℕ × T → Type 0 };

    /// Returns the key and the item after the change.
    fn apply(&self, key: u32, item: T) -> (u32, T)
        requires { CanTake self.now (key, item) }
        ensures { result ≡ changed self.now (key, item) };
}
