//! The filters of iterators and walkers, as C passes them.

ghost use Rattle.std.specs.Prelude.{◌≡◌};
ghost use Rattle.dom_c.specs.Arguments.{ReadsArgument};
ghost use Rattle.dom_c.specs.NameLists.{verdict_in, rules_in};

use crate::argument_fault::ArgumentFault;
use crate::arguments::name_of;
use dom_session::{Rule, Verdict};
use std::alloc::Global;

fn verdict_of(number: u8) -> Result<Verdict, ArgumentFault>
    ensures { ReadsArgument (λ verdict. verdict) result (verdict_in number) }
{
    match number {
        1 => Ok(Verdict::Accept),
        2 => Ok(Verdict::Reject),
        3 => Ok(Verdict::Skip),
        _ => Err(ArgumentFault::BadChoice),
    }
}

/// Reads the rules of a filter: names one after the other, the length of each, and for each the standard's number of a verdict.
pub(crate) fn rules_of(
    alloc: Global,
    names: &[u8],
    lengths: &[u32],
    verdicts: &[u8],
) -> Result<Vec<Rule>, ArgumentFault>
    ensures { ReadsArgument (λ rules. rules.items) result
        (rules_in names.now lengths.now verdicts.now) }
{
    let mut rules: Vec<Rule> = Vec::new(alloc);
    let mut bytes = names;
    let mut others = verdicts;
    for length in lengths {
        let [verdict, left @ ..] = others else {
            return Err(ArgumentFault::BadLengths);
        };
        let Some((front, back)) = bytes.split_at_checked(*length as usize) else {
            return Err(ArgumentFault::BadLengths);
        };
        let name = name_of(alloc, front)?;
        let verdict = verdict_of(*verdict)?;
        if rules.push(Rule { name, verdict }).is_err() {
            return Err(ArgumentFault::Memory);
        }
        bytes = back;
        others = left;
    }
    match (others, bytes) {
        ([], []) => Ok(rules),
        _ => Err(ArgumentFault::BadLengths),
    }
}
