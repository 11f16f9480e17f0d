//! The cells of a page.

ghost use Rattle.std.specs.Prelude.{◌≡◌, Option, Some, None};

/// A cell of a table: an item, or nothing.
///
/// The language has no niches: an `Option` takes space for its tag besides the item. A cell with its own form for nothing, as a pointer has null,
/// takes only the space of the item.
pub trait Cell<T>: Copy {
    // the item in a cell
    ghost held: { Self → Option T };

    /// Returns a cell without an item.
    fn vacant() -> Self
        ensures { held result ≡ None };

    /// Returns a cell with an item.
    fn of(item: T) -> Self
        ensures { held result ≡ Some item };

    /// Returns the item in the cell, if any.
    fn item(self) -> Option<T>
        ensures { result ≡ held self };
}

/// The cell of an item without a smaller one.
impl<T: Copy> Cell<T> for Option<T> {
    ghost held = { λ o. o };

    fn vacant() -> Option<T> {
        None
    }

    fn of(item: T) -> Option<T> {
        Some(item)
    }

    fn item(self) -> Option<T> {
        self
    }
}
