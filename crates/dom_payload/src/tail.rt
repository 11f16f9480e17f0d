//! The tail of a split text, kept in the original buffer.

ghost use Rattle.std.specs.Prelude.{◌≡◌, ◌-◌, ◌≤◌, [], drop, length, IsTrue, ◌↔◌, OnOk, OnErr};
ghost use Rattle.dom_model.specs.Forests.Texts.{spliced};

use dom_units::{Units, units_within};
use std::alloc::{AllocError, Global};
use std::marker::Model;

/// The units of a buffer after a skipped front. Once more units are skipped than are left, the front is removed.
#[derive(Drop)]
pub(crate) struct Tail {
    text: Units,
    passed: usize,
}

impl Model for Tail {
    ghost use Rattle.std.specs.Prelude.{ℕ, ◌≤◌, List, drop, length};

    ghost Value = { List ℕ };

    ghost view = { λ t. drop t.passed t.text };

    ghost invariant = { λ t. t.passed ≤ length t.text };
}

impl Tail {
    /// Returns an empty tail.
    pub(crate) fn new(alloc: Global) -> Tail
        ensures { result ≡ [] }
    {
        Tail::of(Units::new(alloc))
    }

    /// Returns a tail that is a whole text.
    pub(crate) fn of(text: Units) -> Tail
        ensures { result ≡ text }
    {
        Tail { text, passed: 0 }
    }

    /// Borrows the units.
    pub(crate) fn units(&self) -> &[u16]
        ensures { result.now ≡ self.now }
    {
        let count = self.text.len() - self.passed;
        units_within(self.text.units(), self.passed, count)
    }

    /// Returns whether no unit is left.
    pub(crate) fn is_empty(&self) -> bool
        ensures { IsTrue result ↔ (self.now ≡ []) }
    {
        self.units().is_empty()
    }

    /// Replaces `count` units from `at` on by `added` ("replace data").
    pub(crate) fn splice(
        &mut self,
        at: usize,
        count: usize,
        added: &[u16],
    ) -> Result<(), AllocError>
        requires within { at ≤ length self.old }
        requires enough { count ≤ length self.old - at }
        ensures ok { OnOk result (self.new ≡ spliced at count added.now self.old) }
        ensures err { OnErr result (self.new ≡ self.old) }
    {
        // a law: so many units fit the memory
        let _ = self.text.len();
        let outcome = self.text.splice(self.passed + at, count, added);
        self.close_up();
        outcome
    }

    /// Reserves room for `more` units behind those of the buffer.
    pub(crate) fn reserve(&mut self, more: usize) -> Result<(), AllocError>
        ensures { self.new ≡ self.old }
    {
        self.text.reserve(more)
    }

    /// Skips `count` more units at the front.
    pub(crate) fn pass(&mut self, count: usize)
        requires { count ≤ length self.old }
        ensures { self.new ≡ drop count self.old }
    {
        // a law: so many units fit the memory
        let _ = self.text.len();
        self.passed += count;
        self.close_up();
    }

    // Removes the skipped units if they are more than those left.
    fn close_up(&mut self)
        ensures { self.new ≡ self.old }
    {
        let left = self.text.len() - self.passed;
        if left < self.passed && self.text.splice(0, self.passed, &[]).is_ok() {
            self.passed = 0;
        }
    }
}
