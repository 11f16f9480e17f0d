//! Replaces a part of a list. The units after it move once.
ghost use Rattle.std.specs.Prelude.{◌≡◌, ◌-◌, ◌≤◌, vec_len, length, OnOk, OnErr};
ghost use Rattle.dom_model.specs.Forests.Texts.{spliced};

use std::alloc::AllocError;

// Replaces `count` units from the offset `at` on by `added`.
pub(crate) fn splice(
    units: &mut Vec<u16>,
    at: usize,
    count: usize,
    added: &[u16],
) -> Result<(), AllocError>
    requires within { at ≤ vec_len units.old }
    requires enough { count ≤ vec_len units.old - at }
    ensures ok { OnOk result (units.new.items ≡ spliced at count added.now units.old.items) }
    ensures err { OnErr result (units.new.items ≡ units.old.items) }
{
    let end = units.len();
    if count < added.len() {
        // Only makes room: the moved and the added units overwrite these.
        units.extend_from_slice(&added[count..])?;
    }
    let after = at + added.len();
    units.copy_within(at + count..end, after);
    units.truncate(after + (end - (at + count)));
    units.slice_mut(at..after).copy_from_slice(added);
    Ok(())
}
