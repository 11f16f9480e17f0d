//! Filters with their rules in a map by name (DOM Standard, "Interface NodeFilter").

ghost use Rattle.std.specs.Prelude.{◌≡◌, ℕ, List, string_bytes, bytes_eq, if◌then◌else◌, IfOk, OnOk};
ghost use Rattle.dom_model.specs.declared.Verdict.{Verdict as AVerdict};
ghost use Rattle.dom_model.specs.Traversal.Filters.{shows, ruled, verdict_on, accepts, rejects};
ghost use Rattle.dom_model.specs.Forests.Forest.{HasNode};
ghost use Rattle.dom_traverse.specs.FilterRules.{known_or, AreRulesByName};

use crate::filter::{Filter, Rule};
use dom_kinds::{Kind, NodeType};
use dom_model::Verdict;
use dom_tree::{At, NodeId, Tree};
use std::alloc::{AllocError, Global};
use std::collections::BTreeMap;
use std::marker::Model;

// A filter, with the verdict of the first rule for each name, and that for all other names. An ordered map has no worst case.
#[derive(Drop)]
pub struct Judge {
    filter: Filter,
    verdicts: BTreeMap<String, Verdict>,
    others: Verdict,
}

impl Model for Judge {
    ghost use Rattle.dom_model.specs.Worlds.World.{Filter as PlainFilter};

    ghost Value = { PlainFilter };

    ghost view = { λ j. j.filter };

    ghost use Rattle.dom_traverse.specs.FilterRules.{AreRulesByName};

    ghost invariant = { λ j. AreRulesByName j.filter.rules j.verdicts j.others };
}

// Adds a rule's verdict, unless its name has one.
fn note(verdicts: &mut BTreeMap<String, Verdict>, rule: &Rule) -> Result<(), AllocError>
    ensures { OnOk result ((name : List ℕ) (others : AVerdict) →
        known_or verdicts.new others name ≡ known_or verdicts.old (if bytes_eq rule.now.name name
        then rule.now.verdict else others) name) }
{
    if verdicts.contains_key(rule.name.as_str()) {
        return Ok(());
    }
    let name = rule.name.clone()?;
    verdicts.insert(name, rule.verdict)?;
    Ok(())
}

// Returns the verdicts of rules by name, and that for all other names: of the first rule for every name, or none.
fn by_name(
    alloc: Global,
    rules: &[Rule],
) -> Result<(BTreeMap<String, Verdict>, Verdict), AllocError>
    ensures { IfOk result (λ known. AreRulesByName rules.now known.0 known.1) }
{
    let mut verdicts = BTreeMap::new(alloc);
    for rule in rules {
        if rule.name.as_str() == "*" {
            return Ok((verdicts, rule.verdict));
        }
        note(&mut verdicts, rule)?;
    }
    Ok((verdicts, Verdict::Accept))
}

impl Judge {
    // Returns the filter with its rules by name.
    pub fn new(alloc: Global, filter: Filter) -> Result<Judge, AllocError>
        ensures { IfOk result (λ judge. judge ≡ filter) }
    {
        let (verdicts, others) = by_name(alloc, filter.rules.as_slice())?;
        Ok(Judge {
            filter,
            verdicts,
            others,
        })
    }

    // Returns the filter's verdict on a node.
    pub fn judge<X>(&self, node: &At<'_, X>) -> Verdict
        ensures { result ≡ verdict_on node.now.tree.forest self.now node.now.node }
    {
        node.state_law();
        let label = node.label();
        if self.shows(label.kind) {
            self.ruled(label.node_name())
        } else {
            Verdict::Skip
        }
    }

    // Returns whether the filter accepts a node.
    pub fn accepts<X>(&self, node: &At<'_, X>) -> bool
        ensures { result ≡ accepts node.now.tree.forest self.now node.now.node }
    {
        self.judge(node) == Verdict::Accept
    }

    // Returns whether the filter accepts the node of a number.
    pub fn accepts_number<X>(&self, tree: &Tree<X>, node: NodeId) -> bool
        requires { HasNode tree.now.forest node }
        ensures { result ≡ accepts tree.now.forest self.now node }
    {
        self.accepts(&tree.at(node))
    }

    // Returns whether the filter rejects a node.
    pub fn rejects<X>(&self, node: &At<'_, X>) -> bool
        ensures { result ≡ rejects node.now.tree.forest self.now node.now.node }
    {
        self.judge(node) == Verdict::Reject
    }

    // Returns whether nodes of the kind are shown.
    fn shows(&self, kind: Kind) -> bool
        ensures { result ≡ shows self.now.show kind }
    {
        (self.filter.show >> (kind.number() - 1)) % 2 == 1
    }

    // Returns the verdict of the first rule for the name.
    fn ruled(&self, name: &str) -> Verdict
        ensures { result ≡ ruled self.now.rules name.now }
    {
        match self.verdicts.get(name) {
            Some(verdict) => *verdict,
            None => self.others,
        }
    }
}
