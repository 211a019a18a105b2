//! The texts that are names, and those that are files.

use qvt_base::list_fault::ListFault;
use qvt_base::names::{is_file, is_name};
use qvt_base::text::Text;

/// A text, and whether it is a name and a file.
const TEXTS: [(&str, bool, bool); 8] = [
    ("", false, false),
    ("a", true, true),
    ("_1", true, true),
    ("1a", false, true),
    ("é", true, true),
    ("a b", false, true),
    ("a\n", false, false),
    ("\u{7f}", false, false),
];

#[test]
fn names_and_files_by_their_characters(rt: HostRuntime) {
    for (text, name, file) in &TEXTS {
        assert!(rt; is_name(text) == *name, "{text:?}");
        assert!(rt; is_file(text) == *file, "{text:?}");
    }
}

#[test]
fn names_and_files_have_at_most_200_characters(rt: HostRuntime) -> Result<(), ListFault> {
    let mut long = Text::new(rt.alloc());
    for _ in 0..200 {
        long.push('é')?;
    }
    assert!(rt; is_name(long.as_str()) && is_file(long.as_str()));
    long.push('é')?;
    assert!(rt; !is_name(long.as_str()) && !is_file(long.as_str()));
    Ok(())
}
