//! Objects whose slots hold one Integer each.

use super::script::{run, store_of, tell_store};
use qvt_base::numbers::Oid;
use qvt_base::text::Text;
use std::test::Fail;

const TWO_INTEGERS: &str =
    "{\"classes\":[{\"features\":[{\"name\":\"a\",\"type\":\"Integer\"},{\"name\":\"b\",\"type\":\"Integer\"}],\"name\":\"C\"},{\"name\":\"D\"}],\"name\":\"M\"}";

/// Slots are set, emptied and placed alone. An Integer has no second one beside it, and an extent
/// that can not be changed can still be loaded.
#[test]
fn integers_stand_in_their_slots_alone(rt: HostRuntime) -> Result<(), Fail> {
    let alloc = rt.alloc();
    run(
        &rt,
        alloc,
        TWO_INTEGERS,
        "C C@1 C@2 D",
        &[
            "0.a := #7 = done; 0.a #7",
            "1.b := #-1 = done; 0.a #7; 1.b #-1",
            "0.a := #8 = done; 0.a #8; 1.b #-1",
            "0.a := #8 #8 = done; 0.a #8; 1.b #-1",
            "0.a := #8 #9 = TooMany; 0.a #8; 1.b #-1",
            "0.a += #8 = done; 0.a #8; 1.b #-1",
            "0.a += #9 = TooMany; 0.a #8; 1.b #-1",
            "0.b += #9 = done; 0.a #8; 0.b #9; 1.b #-1",
            "0.a := = done; 0.b #9; 1.b #-1",
            "2.a := #1 = ReadOnly; 0.b #9; 1.b #-1",
            "2.a := #1 #2 = TooMany; 0.b #9; 1.b #-1",
            "2.a += #1 = ReadOnly; 0.b #9; 1.b #-1",
            "2.a <- #1 = done; 0.b #9; 1.b #-1; 2.a #1",
        ],
    )
}

#[test]
fn objects_have_their_class_and_extent(rt: HostRuntime) -> Result<(), Fail> {
    let alloc = rt.alloc();
    let store = store_of(&rt, alloc, TWO_INTEGERS, "C@2 D C C@2")?;
    assert_eq!(rt; store.len(), 4);
    assert_eq!(rt; store.extents().len(), 3);
    assert_eq!(rt; store.extent(0), [Oid(1), Oid(2)].as_slice());
    assert_eq!(rt; store.extent(1), [].as_slice());
    assert_eq!(rt; store.extent(2), [Oid(0), Oid(3)].as_slice());
    assert_eq!(rt; store.metas().class_name(store.class_of(Oid(1))), "D");
    assert_eq!(rt; store.extent_of(Oid(3)), 2);
    assert_eq!(rt; store.container(Oid(3)), None);
    let mut line = Text::from_str(alloc, "store")?;
    tell_store(&rt, alloc, &mut line, &store)?;
    assert_eq!(rt; line.as_str(), "store");
    Ok(())
}
