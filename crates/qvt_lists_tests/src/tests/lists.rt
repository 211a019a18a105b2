//! Lists of features that go on from one another.

ghost use Rattle.std.specs.Prelude.{IfOk};
ghost use Rattle.qvt_metamodel.specs.Lists.{AreMapped};

use qvt_base::copied::Copied;
use qvt_base::list_fault::ListFault;
use qvt_base::lists::FeatureNoList;
use qvt_base::numbers::FeatureNo;
use qvt_base::seq::Seq;
use qvt_base::text::Text;
use qvt_metamodel::copied::copies;
use qvt_metamodel::lists::FeatureLists;
use std::alloc::Global;
use std::test::Fail;

/// The first lists by their numbers, with a bar before each and a space before each number.
fn shown(alloc: Global, lists: &FeatureLists, count: usize) -> Result<Text, Fail> {
    let mut text = Text::new(alloc);
    for class in 0..count {
        text.push_str("|")?;
        for feature in lists.at(class) {
            let word = format!(in alloc; " {}", feature.0)?;
            text.push_str(word.as_str())?;
        }
    }
    Ok(text)
}

/// Three lists, in this room: one of its own, and two that go on from it.
fn three(alloc: Global, room: usize) -> Result<FeatureLists, ListFault> {
    let mut lists = FeatureLists::empty(alloc, 3, room)?;
    let first = Seq::from_slice(alloc, &[FeatureNo(4), FeatureNo(7)])?;
    lists.put(0, first)?;
    lists.go_on(alloc, 1, 0, &[FeatureNo(9)])?;
    lists.go_on(alloc, 2, 0, &[FeatureNo(8), FeatureNo(3)])?;
    Ok(lists)
}

/// The lines, each feature for itself.
fn same_lines(alloc: Global, lists: &FeatureLists) -> Result<Vec<FeatureNoList>, ListFault>
    ensures { IfOk result (λ v. AreMapped lists.now.lines v.items) }
{
    let same = copies(alloc, lists.lines())?;
    Ok(same)
}

/// Whether the line of a list is known to begin with so many features of a line before it.
fn begins_with(lists: &FeatureLists, class: usize, count: usize) -> bool {
    let Some(front) = lists.front(class) else {
        return false;
    };
    match lists.begin(front.line) {
        None => false,
        Some(begin) => begin.line < front.line && begin.count == count,
    }
}

/// Lists that share their lines are told whole, and so are their copies.
#[test]
fn lists_go_on_from_one_another(rt: HostRuntime) -> Result<(), Fail> {
    let alloc = rt.alloc();
    assert_eq!(rt;
        shown(alloc, &FeatureLists::empty(alloc, 2, 0)?, 3)?.as_str(),
        "|||"
    );
    let lists = three(alloc, 6)?;
    assert_eq!(rt; shown(alloc, &lists, 4)?.as_str(), "| 4 7| 4 7 9| 4 7 8 3|");
    assert!(rt; begins_with(&lists, 2, 2));
    assert!(rt; !begins_with(&lists, 1, 2));
    assert_eq!(rt;
        shown(alloc, &lists.copy(alloc)?, 4)?.as_str(),
        "| 4 7| 4 7 9| 4 7 8 3|"
    );
    Ok(())
}

/// Where there is less room than lists take that do not go on in a line, they are refused.
#[test]
fn lists_want_room(rt: HostRuntime) -> Result<(), Fail> {
    let alloc = rt.alloc();
    assert!(rt; three(alloc, 5).is_err());
    let mut lists = three(alloc, 8)?;
    assert!(rt; lists.take(2).is_ok());
    assert!(rt; lists.take(1).is_err());
    Ok(())
}

/// Lists come after others, with their own lines.
#[test]
fn lists_come_after_others(rt: HostRuntime) -> Result<(), Fail> {
    let alloc = rt.alloc();
    let first = three(alloc, 6)?;
    let mut others = FeatureLists::empty(alloc, 2, 1)?;
    others.put(1, Seq::from_slice(alloc, &[FeatureNo(5)])?)?;
    let lines = same_lines(alloc, &others)?;
    let all = first.joined(alloc, &others, lines)?;
    assert_eq!(rt;
        shown(alloc, &all, 6)?.as_str(),
        "| 4 7| 4 7 9| 4 7 8 3|| 5|"
    );
    Ok(())
}
