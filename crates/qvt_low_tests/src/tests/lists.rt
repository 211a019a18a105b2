//! Lists and texts.

use qvt_base::copied::Copied;
use qvt_base::list_fault::ListFault;
use qvt_base::lists::{Bytes, NameList};
use qvt_base::seq::Seq;
use qvt_base::text::Text;
use std::alloc::Global;

fn list(alloc: Global) -> Result<Bytes, ListFault> {
    let mut bytes: Bytes = Seq::from_slice(alloc, b"ab")?;
    bytes.push(b'c')?;
    bytes.extend(b"de")?;
    bytes.copy(alloc)
}

fn text(alloc: Global) -> Result<Text, ListFault> {
    let mut text = Text::from_str(alloc, "é")?;
    text.push('x')?;
    text.push_str("yz")?;
    Ok(text)
}

fn list_of_a_text(alloc: Global) -> Result<NameList, ListFault> {
    let mut names = Seq::new(alloc);
    names.push(text(alloc)?)?;
    names.copy(alloc)
}

#[test]
fn lists_and_texts_hold_what_is_put_in(rt: HostRuntime) -> Result<(), ListFault> {
    let alloc = rt.alloc();
    let bytes = list(alloc)?;
    assert!(rt; bytes.as_slice() == b"abcde".as_slice());
    let text = text(alloc)?;
    assert!(rt; text.len() == 5);
    Ok(())
}

#[test]
fn a_list_with_room_holds_what_is_put_in_and_more(rt: HostRuntime) -> Result<(), ListFault> {
    let mut bytes: Bytes = Seq::with_room(rt.alloc(), 2)?;
    assert!(rt; bytes.is_empty());
    bytes.extend(b"abc")?;
    assert!(rt; bytes.as_slice() == b"abc".as_slice());
    Ok(())
}

#[test]
fn a_list_of_texts_is_copied(rt: HostRuntime) -> Result<(), ListFault> {
    let names = list_of_a_text(rt.alloc())?;
    assert!(rt; names.len() == 1);
    assert!(rt; matches!(names.get(0), Some(name) if name.as_str() == "éxyz"));
    assert!(rt; names.get(1).is_none());
    Ok(())
}
