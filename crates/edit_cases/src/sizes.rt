//! The bytes of a content.

use dom_edit::Content;
use std::mem::size_of;

#[test]
fn bytes_of_a_content(rt: HostRuntime) {
    assert_eq!(rt; size_of::<Content>(), 32);
}
