//! Enumerations by name and by number.

use super::script::metas_of;
use std::test::Fail;

const TINTS_AND_SIZES: &str =
    "{\"classes\":[{\"name\":\"C\"}],\"enums\":[{\"literals\":[\"red\",\"Size\"],\"name\":\"Tint\"},{\"literals\":[],\"name\":\"Size\"}],\"name\":\"M\"}";

/// They are numbered in the order of the file. A class or a literal is none.
#[test]
fn enumerations_have_names(rt: HostRuntime) -> Result<(), Fail> {
    let metas = metas_of(&rt, rt.alloc(), TINTS_AND_SIZES)?;
    assert_eq!(rt; metas.enumeration(0, "Tint"), Some(0));
    assert_eq!(rt; metas.enumeration(0, "Size"), Some(1));
    assert_eq!(rt; metas.enumeration(0, "C"), None);
    assert_eq!(rt; metas.enumeration(0, "red"), None);
    assert_eq!(rt; metas.enumeration(1, "Tint"), None);
    assert_eq!(rt; metas.enumeration_name(0, 0), "Tint");
    assert_eq!(rt; metas.enumeration_name(0, 1), "Size");
    assert_eq!(rt; metas.enumeration_name(0, 2), "");
    assert_eq!(rt; metas.enumeration_name(1, 0), "");
    Ok(())
}
