//! The table from numbers to places.

use dom_links::{Link, Place};
use dom_pages::{Cell, Pages};

/// The places of nodes by number.
pub(crate) type NodeTable = Pages<Place, PlaceCell>;

/// The place of a node, or none for a number whose node was freed. It is a link of eight bytes: none is null.
#[derive(Clone, Copy)]
pub(crate) struct PlaceCell {
    link: Link,
}

impl Cell<Place> for PlaceCell {
    ghost held = { λ cell. cell.link };

    fn vacant() -> PlaceCell {
        PlaceCell { link: Link::none() }
    }

    fn of(item: Place) -> PlaceCell {
        PlaceCell {
            link: Link::to(item),
        }
    }

    fn item(self) -> Option<Place> {
        self.link.get()
    }
}
