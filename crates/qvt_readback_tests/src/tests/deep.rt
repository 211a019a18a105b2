//! Texts with as many items open as may be, and whether their printed texts can be read.

use super::trees::{Fault, tree_of};
use qvt_base::list_fault::ListFault;
use qvt_base::text::Text;
use qvt_parser::fault::ParseFault;
use qvt_printer::print::print;
use std::alloc::Global;

/// A transformation with so many calls inside each other between these two.
fn nested(alloc: Global, before: &str, calls: usize, after: &str) -> Result<Text, ListFault> {
    let mut text = Text::from_str(alloc, "transformation T(in m : M); ")?;
    text.push_str(before)?;
    for _ in 0..calls {
        text.push_str("f(")?;
    }
    text.push_str("a")?;
    for _ in 0..calls {
        text.push_str(")")?;
    }
    text.push_str(after)?;
    Ok(text)
}

/// Whether the text is too deep.
fn is_too_deep(alloc: Global, text: &Text) -> Result<bool, Fault> {
    match tree_of(alloc, text.as_str()) {
        Ok(_) => Ok(false),
        Err(Fault::Parse(ParseFault::TooDeep(_))) => Ok(true),
        Err(fault) => Err(fault),
    }
}

/// Whether a text that is read is printed as one that is too deep.
fn grows_too_deep(alloc: Global, text: &Text) -> Result<bool, Fault> {
    let tree = tree_of(alloc, text.as_str())?;
    let printed = print(alloc, &tree)?;
    is_too_deep(alloc, &printed)
}

/// What stands before calls and behind them, the greatest number of calls with which the text is
/// read, and whether it is then printed as one that is too deep.
const DEEPEST: [(&str, usize, &str, bool); 13] = [
    ("query q() : Integer = ", 64, ";", true),
    ("helper q() : Integer = g(", 63, ");", true),
    ("query q() : Integer { return ", 63, " }", false),
    ("query q() : Integer { return ", 63, "; }", false),
    ("main() { ", 63, " }", false),
    ("constructor C::C() { ", 63, " }", false),
    ("mapping m() { ", 63, " }", false),
    ("mapping m() { init { } ", 63, " }", false),
    ("mapping m() { init { b } ", 63, " }", true),
    ("mapping m() { ", 63, "; end { b } }", true),
    ("mapping m() { init { b } population { ", 62, " } }", false),
    ("mapping m() { population { ", 62, " } end { b } }", false),
    ("mapping m() { init { ", 62, " } b }", false),
];

/// Whether the row is right, and whether with one call less the printed text is not too deep, and
/// with one more the text is.
fn is_right(alloc: Global, row: &(&str, usize, &str, bool)) -> Result<bool, Fault> {
    let (before, calls, after, grows) = *row;
    let less = nested(alloc, before, calls.saturating_sub(1), after)?;
    let most = nested(alloc, before, calls, after)?;
    let more = nested(alloc, before, calls.saturating_add(1), after)?;
    Ok(
        !grows_too_deep(alloc, &less)?
            && grows_too_deep(alloc, &most)? == grows
            && is_too_deep(alloc, &more)?,
    )
}

#[test]
fn printed_texts_are_too_deep_where_a_block_is_added(rt: HostRuntime) {
    for row in &DEEPEST {
        let (before, _, _, _) = *row;
        assert!(rt; is_right(rt.alloc(), row) == Ok(true), "{before}");
    }
}
