//! The content of a slot.

use crate::node_id::NodeId;
use dom_kinds::Label;
use std::marker::Model;

/// The index of a child without a cached one.
pub const UNKNOWN: u32 = u32::MAX;

/// A node as its slot stores it, with its number for callers.
///
/// `index` is its index among its siblings if it is below the parent's `sure`, the number of first children whose `index` is right. From the parent's
/// `reach` on it is `UNKNOWN`, so that it is not used if `sure` grows. `owned` is the number of nodes whose node document it is, if the tree counts
/// them.
#[derive(Drop)]
pub struct Item<X> {
    pub number: NodeId,
    pub document: NodeId,
    pub label: Label,
    pub body: X,
    pub index: u32,
    pub sure: u32,
    pub reach: u32,
    pub owned: u32,
}

impl<X> Model for Item<X> {
    ghost use Rattle.dom_tree.specs.Slots.{Kept, kept_code};

    ghost Value = { Kept X };

    ghost coded = { kept_code X.code };

    ghost view = { λ i. record {
      node = record { number = i.number; document = i.document; label = i.label; body = i.body };
      index = i.index;
      sure = i.sure;
      reach = i.reach;
      owned = i.owned;
    } };
}
