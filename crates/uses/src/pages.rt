//! Calls of `dom_pages`.

ghost use Rattle.std.specs.Prelude.{◌≡◌, ◌≢◌, ℕ, ◌+◌, ◌≤◌, ◌==◌, true, if◌then◌else◌, length, Some, None, IfOk, OnErr};
ghost use Rattle.dom_pages.specs.Numbered.{item_at};

use dom_pages::{Cell, Pages};
use std::alloc::AllocError;

/// Gives two numbers, or none if it is out of memory.
pub fn number_two(
    table: &mut Pages<u32>,
    first: u32,
    second: u32,
) -> Result<(usize, usize), AllocError>
    requires room { length table.old.items + 2 ≤ 4294967296 }
    ensures first { IfOk result (λ numbers. item_at table.new.items numbers.0 ≡ Some first) }
    ensures second { IfOk result (λ numbers. item_at table.new.items numbers.1 ≡ Some second) }
    ensures differ { IfOk result (λ numbers. numbers.0 ≢ numbers.1) }
    ensures err { OnErr result (table.new.items ≡ table.old.items) }
{
    table.reserve(2)?;
    let first_number = table.len();
    table.push_reserved(first);
    let second_number = table.len();
    table.push_reserved(second);
    Ok((first_number, second_number))
}

/// Clears a number, and returns its item.
pub fn take(table: &mut Pages<u32>, number: usize) -> Option<u32>
    ensures value { result ≡ item_at table.old.items number }
    ensures gone { item_at table.new.items number ≡ None }
    ensures others { (n : ℕ) → n ≢ number → item_at table.new.items n ≡ item_at table.old.items n }
{
    let found = table.get(number);
    if found.is_some() {
        table.clear(number);
    }
    found
}

/// A yes, a no, or nothing. It takes one byte.
#[derive(Clone, Copy)]
pub struct Vote {
    mark: u8,
}

impl Cell<bool> for Vote {
    ghost held = { λ vote. if vote.mark == 0 then None else Some (vote.mark == 1) };

    fn vacant() -> Vote {
        Vote { mark: 0 }
    }

    fn of(item: bool) -> Vote {
        Vote {
            mark: if item { 1 } else { 2 },
        }
    }

    fn item(self) -> Option<bool> {
        if self.mark == 0 {
            None
        } else {
            Some(self.mark == 1)
        }
    }
}

/// Gives a number for a yes. The table takes a byte for each number.
pub fn number_yes(table: &mut Pages<bool, Vote>) -> Result<usize, AllocError>
    requires room { length table.old.items + 1 ≤ 4294967296 }
    ensures yes { IfOk result (λ number. item_at table.new.items number ≡ Some true) }
    ensures err { OnErr result (table.new.items ≡ table.old.items) }
{
    table.reserve(1)?;
    let number = table.len();
    table.push_reserved(true);
    Ok(number)
}
