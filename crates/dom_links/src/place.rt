//! Places of nodes: addresses that own nothing. The pool alone reads the nodes there, and a place cannot be made from a number.
ghost use Rattle.std.specs.Prelude.{◌≡◌, Some, None};
ghost use Rattle.dom_links.specs.Pointers.{IsPlace};

use crate::pool::NodePtr;
use std::marker::Model;
use std::ptr::{NonNull, null_mut};

/// The address of a node. It owns nothing: the store has the node's slot, and whether the node still exists.
#[derive(Clone, Copy)]
pub struct Place {
    ptr: *mut u8,
}

impl Model for Place {
    ghost use denote.RawPtr.{Ptr};
    ghost use Rattle.dom_links.specs.Pointers.{IsPlace};

    ghost Value = { Ptr };

    ghost view = { λ p. p.ptr };

    ghost invariant = { λ p. IsPlace p.ptr };

    ghost inverse = { λ q. record { ptr = q } };
}

impl Place {
    pub(crate) fn at<N>(ptr: *mut N) -> Place
        requires { IsPlace ptr }
        ensures { result ≡ ptr }
    {
        let place = unsafe { NonNull::new_unchecked(ptr) };
        Place {
            ptr: place.cast::<u8>().as_ptr(),
        }
    }

    pub(crate) fn node<N>(self) -> NodePtr<N>
        ensures { result.ptr ≡ self }
    {
        let place = unsafe { NonNull::new_unchecked(self.ptr) };
        NodePtr {
            ptr: place.cast::<N>().as_ptr(),
        }
    }
}

/// A place, or none. It is as large as one pointer: none is null.
#[derive(Clone, Copy)]
pub struct Link {
    ptr: *mut u8,
}

impl Model for Link {
    ghost use Rattle.std.specs.Prelude.{Option};
    ghost use denote.RawPtr.{Ptr, Testable};
    ghost use Rattle.dom_links.specs.Pointers.{link_of, pointer_of, pointer_of-link_of};

    ghost Value = { Option Ptr };

    ghost view = { λ l. link_of l.ptr };

    ghost invariant = { λ l. Testable l.ptr };

    ghost inverse = { λ o. record { ptr = pointer_of o } };

    ghost inverse_ok = { λ l h i. record { ptr = pointer_of-link_of l.ptr i } };
}

impl Link {
    /// Returns a link to nothing.
    pub fn none() -> Link
        ensures { result ≡ None }
    {
        Link { ptr: null_mut() }
    }

    /// Returns a link to a place.
    pub fn to(place: Place) -> Link
        ensures { result ≡ Some place }
    {
        Link { ptr: place.ptr }
    }

    /// Returns the place that it leads to. Only this function checks for null.
    pub fn get(self) -> Option<Place>
        ensures { result ≡ self }
    {
        let place = NonNull::new(self.ptr)?;
        Some(Place {
            ptr: place.as_ptr(),
        })
    }

    pub(crate) fn ptr<N>(self) -> Option<*mut N>
        ensures { result ≡ self }
    {
        Some(self.get()?.node().ptr)
    }
}
