//! Token texts, drawn as docs/definitions.md draws them.
//!
//! Each edit is drawn twice: from the replies before and after it, and on the text before it alone. The texts are the same, and each end of a live
//! range is in its marker's gap.

use crate::drawn_text::{draw, written};
use crate::edits::{Edit, edited_text, in_order};
use crate::replies::{Told, told_from};
use crate::tokens::{Ends, Point, Side, Token, gap_of};
use dialogues::ranges::{ENDS_AFTER_INSERTION, ENDS_AFTER_REPLACED_DATA, ENDS_AFTER_SPLIT};
use stated_pieces::{USUAL, first_lines, in_pieces, serve_all};
use std::alloc::{AllocError, Global};
use std::process::Abort;
use std::test::Fail;

// An edit of a dialogue after some lines of its input, the number of live ranges then, and the texts before and after it.
#[derive(Clone, Copy)]
struct Case {
    input: &'static [u8],
    lines: usize,
    ranges: usize,
    edit: Edit,
    before: &'static str,
    after: &'static str,
}

// Appends the lines that query the tree of the first node and the live ranges.
fn ask(lines: &mut String, ranges: usize) -> Result<(), AllocError> {
    lines.push_str("[\"tree\",1]\n")?;
    for range in 0..ranges {
        write!(lines, "[\"range\",{range}]\n")?;
    }
    Ok(())
}

// Appends the lines of the dialogue before the edit, the queries, the edit, and the queries again.
fn give(lines: &mut Vec<u8>, case: &Case, questions: &str) -> Result<(), AllocError> {
    let front = first_lines(case.input, case.lines);
    let with_edit = first_lines(case.input, case.lines.saturating_add(1));
    let edit = with_edit.get(front.len()..).unwrap_or(with_edit);
    lines.extend_from_slice(front)?;
    lines.extend_from_slice(questions.as_bytes())?;
    lines.extend_from_slice(edit)?;
    lines.extend_from_slice(questions.as_bytes())
}

// Returns the dialogue up to its edit, with the queries before and after the edit.
fn asked(alloc: Global, case: &Case) -> Result<Vec<u8>, AllocError> {
    let mut questions = String::new(alloc);
    ask(&mut questions, case.ranges)?;
    let mut lines = Vec::new(alloc);
    give(&mut lines, case, questions.as_str())?;
    Ok(lines)
}

// Asserts that each end of a live range is in its marker's gap.
fn stand_in_gaps(
    rt: &impl Abort,
    alloc: Global,
    text: &[Token],
    ranges: &[Ends],
    name: &str,
) -> Result<(), AllocError> {
    for (range, ends) in ranges.iter().enumerate() {
        let start = gap_of(alloc, text, Token::Mark(range, Side::Start))?;
        let end = gap_of(alloc, text, Token::Mark(range, Side::End))?;
        assert!(rt;
            start == Some(ends.start) && end == Some(ends.end),
            "{name} {range}"
        );
    }
    Ok(())
}

// Asserts that a tree and its ranges are drawn as a text.
fn is_drawn(rt: &impl Abort, alloc: Global, told: &Told, text: &str) -> Result<(), AllocError> {
    let tokens = draw(alloc, told)?;
    stand_in_gaps(rt, alloc, tokens.as_slice(), told.ranges.as_slice(), text)?;
    let letters = written(alloc, tokens.as_slice())?;
    assert!(rt; letters.as_str() == text, "{text}");
    Ok(())
}

// Asserts that an edited text, with its markers in order, is the text of a tree and its ranges.
fn is_text_of(
    rt: &impl Abort,
    alloc: Global,
    edited: &[Token],
    told: &Told,
    text: &str,
) -> Result<(), AllocError> {
    let ordered = in_order(alloc, edited)?;
    let due = draw(alloc, told)?;
    assert!(rt; ordered.as_slice() == due.as_slice(), "{text}");
    Ok(())
}

// Asserts that the edit of a text alone gives the text of the tree after the edit.
fn is_edited(
    rt: &impl Abort,
    alloc: Global,
    case: &Case,
    text: &[Token],
    after: &Told,
) -> Result<(), AllocError> {
    let edited = edited_text(alloc, text, case.edit)?;
    stand_in_gaps(
        rt,
        alloc,
        edited.as_slice(),
        after.ranges.as_slice(),
        case.after,
    )?;
    is_text_of(rt, alloc, edited.as_slice(), after, case.after)
}

// Asserts the texts before and after the edit, and that the edit of the first text gives the second.
fn are_as_due(
    rt: &impl Abort,
    alloc: Global,
    case: &Case,
    before: &Told,
    after: &Told,
) -> Result<(), AllocError> {
    is_drawn(rt, alloc, before, case.before)?;
    is_drawn(rt, alloc, after, case.after)?;
    let text = draw(alloc, before)?;
    is_edited(rt, alloc, case, text.as_slice(), after)
}

// Asserts that the replies give the expected texts.
fn tell_as_due(rt: &impl Abort, alloc: Global, case: &Case, replies: &[u8]) -> Result<(), Fail> {
    let replies = str::from_utf8(replies)?;
    let behind = case.lines.saturating_add(case.ranges).saturating_add(2);
    let before = told_from(alloc, replies, case.lines, case.ranges)?;
    let after = told_from(alloc, replies, behind, case.ranges)?;
    are_as_due(rt, alloc, case, &before, &after)?;
    Ok(())
}

fn is_drawn_and_edited(rt: &impl Abort, alloc: Global, case: &Case) -> Result<(), Fail> {
    let lines = asked(alloc, case)?;
    let served = serve_all(alloc, USUAL, in_pieces(lines.as_slice(), 65536));
    let name = case.before;
    assert!(rt; served.ended.is_ok() && served.is_clean, "{name}");
    tell_as_due(rt, alloc, case, served.written.as_slice())
}

#[test]
fn edits_drawn_twice(rt: HostRuntime) -> Result<(), Fail> {
    let cases = [
        // A Text is inserted ahead of another.
        Case {
            input: ENDS_AFTER_INSERTION.input(),
            lines: 10,
            ranges: 1,
            edit: Edit::Move(4, Point { node: 1, offset: 0 }),
            before: r#"<p>"a""[0b""n]0"</p>"#,
            after: r#"<p>"n""a""[0b"]0</p>"#,
        },
        // Units are replaced.
        Case {
            input: ENDS_AFTER_REPLACED_DATA.input(),
            lines: 7,
            ranges: 2,
            edit: Edit::Splice(Point { node: 1, offset: 2 }, 3, b"XY"),
            before: r#""ab[0c]0de[1f]1g""#,
            after: r#""ab[0]0[1XYf]1g""#,
        },
        // Units are cut off.
        Case {
            input: ENDS_AFTER_REPLACED_DATA.input(),
            lines: 11,
            ranges: 2,
            edit: Edit::Splice(Point { node: 1, offset: 4 }, 4294967295, b""),
            before: r#""ab[0]0[1XYf]1g""#,
            after: r#""ab[0]0[1XY]1""#,
        },
        // A Text is split.
        Case {
            input: ENDS_AFTER_SPLIT.input(),
            lines: 11,
            ranges: 2,
            edit: Edit::Parting(Point { node: 2, offset: 2 }, 4),
            before: r#"<p>"ab[0c]0d"[1"e"]1</p>"#,
            after: r#"<p>"ab[0""c]0d"[1"e"]1</p>"#,
        },
    ];
    for case in &cases {
        is_drawn_and_edited(&rt, rt.alloc(), case)?;
    }
    Ok(())
}
