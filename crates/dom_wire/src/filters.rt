//! Reading filters and moves.

ghost use Rattle.std.specs.Prelude.{◌≡◌, [], ◌∷◌};
ghost use Rattle.serde_json.specs.View.{view, items_view};
ghost use Rattle.dom_model.specs.Commands.Line.{named_in, verdict_names, move_names, rule_in, rule_from, each_item, list_in, move_in};
ghost use Rattle.dom_wire.specs.Reads.{Decodes};

use crate::read_error::ReadError;
use dom_commands::{Move, Rule, Verdict};
use dom_model::OwnError;
use serde_json::Value;
use std::alloc::Global;

// Returns the verdict of that name.
fn verdict_of(text: &str) -> Option<Verdict>
    ensures { result ≡ named_in verdict_names text.now }
{
    match text {
        "accept" => Some(Verdict::Accept),
        "skip" => Some(Verdict::Skip),
        "reject" => Some(Verdict::Reject),
        _ => None,
    }
}

// Returns the move of that name.
fn course_of(text: &str) -> Option<Move>
    ensures { result ≡ named_in move_names text.now }
{
    match text {
        "parentNode" => Some(Move::ParentNode),
        "firstChild" => Some(Move::FirstChild),
        "lastChild" => Some(Move::LastChild),
        "previousSibling" => Some(Move::PreviousSibling),
        "nextSibling" => Some(Move::NextSibling),
        "previousNode" => Some(Move::PreviousNode),
        "nextNode" => Some(Move::NextNode),
        _ => None,
    }
}

/// Reads a string that names a walker's move.
pub(crate) fn course_in(value: &Value) -> Option<Move>
    ensures { result ≡ move_in (view value.now) }
{
    match value.as_str() {
        Some(text) => course_of(text),
        None => None,
    }
}

/// Reads an array of rules, each an array of a name and a verdict.
pub(crate) fn rules_in(alloc: Global, value: &Value) -> Result<Vec<Rule>, ReadError>
    ensures { Decodes (λ rules. rules.items) result (list_in rule_in (view value.now)) }
{
    match value {
        Value::Array(items) => each_rule(alloc, items.as_slice()),
        _ => Err(ReadError::Own(OwnError::BadArguments)),
    }
}

fn each_rule(alloc: Global, items: &[Value]) -> Result<Vec<Rule>, ReadError>
    ensures { Decodes (λ rules. rules.items) result (each_item rule_in (items_view items.now)) }
{
    let mut rules: Vec<Rule> = Vec::new(alloc);
    for item in items {
        match rule_in(alloc, item) {
            Ok(rule) => {
                if rules.push(rule).is_err() {
                    return Err(ReadError::Memory);
                }
            }
            Err(error) => return Err(error),
        }
    }
    Ok(rules)
}

fn rule_in(alloc: Global, value: &Value) -> Result<Rule, ReadError>
    ensures { Decodes (λ rule. rule) result (rule_in (view value.now)) }
{
    match value {
        Value::Array(items) => rule_from(alloc, items.as_slice()),
        _ => Err(ReadError::Own(OwnError::BadArguments)),
    }
}

// Reads a name, and then a verdict.
fn rule_from(alloc: Global, items: &[Value]) -> Result<Rule, ReadError>
    ensures { Decodes (λ rule. rule) result (rule_from (items_view items.now)) }
{
    if items.len() != 2 {
        return Err(ReadError::Own(OwnError::BadArguments));
    }
    rule_of(alloc, &items[0], &items[1])
}

fn rule_of(alloc: Global, name: &Value, verdict: &Value) -> Result<Rule, ReadError>
    ensures { Decodes (λ rule. rule) result
        (rule_from (items_view (name.now ∷ verdict.now ∷ []))) }
{
    let Some(name) = name.as_str() else {
        return Err(ReadError::Own(OwnError::BadArguments));
    };
    let Some(verdict) = verdict.as_str() else {
        return Err(ReadError::Own(OwnError::BadArguments));
    };
    let Some(verdict) = verdict_of(verdict) else {
        return Err(ReadError::Own(OwnError::BadArguments));
    };
    match String::from_str(alloc, name) {
        Ok(name) => Ok(Rule { name, verdict }),
        Err(_) => Err(ReadError::Memory),
    }
}
