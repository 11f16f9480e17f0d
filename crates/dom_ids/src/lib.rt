//! Ids: the numbers that callers use for things.
#![tactic(auto)]

ghost use Rattle.std.proofs.Common.{rules};
ghost use Rattle.std.specs.Cmp.Rules.{comparing};
ghost use Rattle.std.specs.Prelude.{◌≡◌, nat_eq};

use std::marker::{Model, PhantomData};

/// The number of a thing of a kind, for callers. The first thing made gets 0, and no number is reused.
///
/// Ids of different kinds have different types, so they cannot be confused.
#[derive(Clone, Copy, Debug, Hash, Drop)]
pub struct Id<K> {
    number: u32,
    kind: PhantomData<K>,
}

impl<K> Model for Id<K> {
    ghost use Rattle.std.specs.Prelude.{ℕ, ◌<◌, ◌^◌};

    ghost Value = { ℕ };

    ghost view = { λ id. id.number };

    ghost invariant = { λ id. id.number < 2 ^ 32 };

    ghost inverse = { λ n. record { number = n; kind = record {} } };
}

impl<K> PartialEq for Id<K> {
    ghost eq = { nat_eq };

    ghost laws = { Prim.search (comparing, rules) };

    fn eq(&self, other: &Id<K>) -> bool {
        self.number == other.number
    }
}

impl<K> Eq for Id<K> {
    ghost laws = { Prim.search (comparing, rules) };
}

impl<K> Id<K> {
    /// Returns the id with a number, whether or not such a thing exists.
    pub fn new(number: u32) -> Id<K>
        ensures { result ≡ number }
    {
        Id {
            number,
            kind: PhantomData,
        }
    }

    /// Returns the number.
    pub fn number(self) -> u32
        ensures { result ≡ self }
    {
        self.number
    }
}
