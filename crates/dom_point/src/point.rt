//! A boundary point.

use dom_tree::NodeId;
use std::marker::Model;

/// A node and an offset: the gap ahead of the child or unit at that offset, or behind the last (DOM Standard, "Boundary points").
#[derive(Clone, Copy, Debug, PartialEq, Eq)]
pub struct Point {
    pub node: NodeId,
    pub offset: usize,
}

impl Model for Point {
    ghost use Rattle.dom_model.specs.Worlds.World.{Point};

    ghost Value = { Point };

    ghost view = { λ p. record { node = p.node; offset = p.offset } };

    ghost inverse = { λ p. record { node = p.node; offset = p.offset } };
}
