//! The data and attributes of a node.

ghost use Rattle.std.specs.Prelude.{◌≡◌, ℕ};

/// The data and attributes of a node. The tree reads only their length.
pub trait Body {
    ghost length: { Self → ℕ };

    /// Returns the length of the data in code units (DOM Standard, "Interface CharacterData").
    fn length(&self) -> usize
        ensures { result ≡ length self.now };
}
