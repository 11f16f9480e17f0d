//! What a filter is made of (DOM Standard, "Interface NodeFilter").

use dom_model::Verdict;
use std::marker::Model;

/// A node name, or `*` for every one, and what the filter says of nodes of that name.
#[derive(Drop)]
pub struct Rule {
    pub name: String,
    pub verdict: Verdict,
}

impl Model for Rule {
    ghost use Rattle.std.specs.Prelude.{string_bytes};
    ghost use Rattle.dom_model.specs.Worlds.World.{FilterRule};

    ghost Value = { FilterRule };

    ghost view = { λ r. record { name = string_bytes r.name; verdict = r.verdict } };
}

/// The kinds of node that are shown, as a `whatToShow` mask, and rules by name. The first rule for a node's name decides.
///
/// Bit `nodeType - 1` of `show` stands for a kind. A node that no rule names is accepted.
#[derive(Drop)]
pub struct Filter {
    pub show: u32,
    pub rules: Vec<Rule>,
}

impl Model for Filter {
    ghost use Rattle.dom_model.specs.Worlds.World.{Filter as PlainFilter};

    ghost Value = { PlainFilter };

    ghost view = { λ f. record { show = f.show; rules = f.rules.items } };
}
