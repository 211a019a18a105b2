//! Changes that reach other slots: opposites and containers. Each row is judged on the whole store.

use super::script::run;
use std::test::Fail;

const BOXES: &str =
    "{\"classes\":[{\"features\":[{\"containment\":true,\"name\":\"parts\",\"opposite\":\"owner\",\"type\":\"Item\",\"upper\":\"*\"},{\"containment\":true,\"name\":\"extras\",\"opposite\":\"holder\",\"type\":\"Item\",\"upper\":\"*\"}],\"name\":\"Box\"},{\"features\":[{\"name\":\"owner\",\"opposite\":\"parts\",\"type\":\"Box\"},{\"name\":\"holder\",\"opposite\":\"extras\",\"type\":\"Box\"}],\"name\":\"Item\"}],\"name\":\"K\"}";

const LINKS: &str =
    "{\"classes\":[{\"features\":[{\"name\":\"left\",\"opposite\":\"right\",\"type\":\"N\"},{\"name\":\"right\",\"opposite\":\"left\",\"type\":\"N\"},{\"name\":\"next\",\"opposite\":\"prev\",\"type\":\"N\",\"upper\":\"*\"},{\"name\":\"prev\",\"opposite\":\"next\",\"type\":\"N\",\"upper\":2},{\"name\":\"head\",\"opposite\":\"tail\",\"type\":\"N\"},{\"name\":\"tail\",\"opposite\":\"head\",\"type\":\"N\",\"upper\":2}],\"name\":\"N\"}],\"name\":\"L\"}";

const TREES: &str =
    "{\"classes\":[{\"features\":[{\"containment\":true,\"name\":\"kids\",\"opposite\":\"up\",\"type\":\"N\",\"upper\":\"*\"},{\"name\":\"up\",\"opposite\":\"kids\",\"type\":\"N\"},{\"containment\":true,\"name\":\"part\",\"type\":\"N\"},{\"name\":\"refs\",\"type\":\"N\",\"upper\":2},{\"name\":\"bag\",\"type\":\"N\",\"unique\":false,\"upper\":2}],\"name\":\"N\"}],\"name\":\"T\"}";

#[test]
fn a_child_leaves_its_former_container(rt: HostRuntime) -> Result<(), Fail> {
    let alloc = rt.alloc();
    run(
        &rt,
        alloc,
        BOXES,
        "Box Box Item Item",
        &[
            "0.parts += 2 = done; 0.parts 2; 2.owner 0; 2 in 0",
            "1.extras += 2 = done; 1.extras 2; 2.holder 1; 2 in 1",
            "1.parts += 2 = done; 1.parts 2; 2.owner 1; 2 in 1",
            "1.parts := 2 3 = done; 1.parts 2 3; 2.owner 1; 2 in 1; 3.owner 1; 3 in 1",
            "0.extras := 3 2 = done; 0.extras 3 2; 2.holder 0; 2 in 0; 3.holder 0; 3 in 0",
            "2.owner := 1 = done; 0.extras 3; 1.parts 2; 2.owner 1; 2 in 1; 3.holder 0; 3 in 0",
            "2.owner := = done; 0.extras 3; 3.holder 0; 3 in 0",
            "0.extras := = done",
            "3.owner := 0 = done; 0.parts 3; 3.owner 0; 3 in 0",
            "2.owner += 0 = done; 0.parts 3 2; 2.owner 0; 2 in 0; 3.owner 0; 3 in 0",
            "3.owner := 1 = done; 0.parts 2; 1.parts 3; 2.owner 0; 2 in 0; 3.owner 1; 3 in 1",
            "3.owner += 0 = TooMany; 0.parts 2; 1.parts 3; 2.owner 0; 2 in 0; 3.owner 1; 3 in 1",
            "0.parts := 2 3 2 = done; 0.parts 2 3; 2.owner 0; 2 in 0; 3.owner 0; 3 in 0",
            "0.parts += 2 = done; 0.parts 2 3; 2.owner 0; 2 in 0; 3.owner 0; 3 in 0",
            "0.parts := 3 2 = done; 0.parts 3 2; 2.owner 0; 2 in 0; 3.owner 0; 3 in 0",
        ],
    )
}

/// Values put last at once are one change with one refusal, and in a unique slot stand once.
#[test]
fn lists_are_put_last_at_once(rt: HostRuntime) -> Result<(), Fail> {
    let alloc = rt.alloc();
    run(
        &rt,
        alloc,
        BOXES,
        "Box Box Item Item Item@1",
        &[
            "0.parts ++ 2 3 2 = done; 0.parts 2 3; 2.owner 0; 2 in 0; 3.owner 0; 3 in 0",
            "0.parts ++ = done; 0.parts 2 3; 2.owner 0; 2 in 0; 3.owner 0; 3 in 0",
            "1.extras ++ 3 2 3 = done; 1.extras 3 2; 2.holder 1; 2 in 1; 3.holder 1; 3 in 1",
            "0.parts ++ 2 4 = CrossModel; 1.extras 3 2; 2.holder 1; 2 in 1; 3.holder 1; 3 in 1",
            "0.parts ++ 2 2 2 3 3 3 2 2 3 3 2 = done; 0.parts 2 3; 2.owner 0; 2 in 0; 3.owner 0; 3 in 0",
            "2.owner ++ 0 1 = TooMany; 0.parts 2 3; 2.owner 0; 2 in 0; 3.owner 0; 3 in 0",
        ],
    )?;
    run(
        &rt,
        alloc,
        TREES,
        "N N N@2",
        &[
            "0.bag ++ 1 1 = done; 0.bag 1 1",
            "0.bag ++ 1 = TooMany; 0.bag 1 1",
            "0.refs ++ 1 1 1 1 1 1 1 1 1 0 = done; 0.refs 1 0; 0.bag 1 1",
            "0.refs ++ 0 1 = done; 0.refs 1 0; 0.bag 1 1",
            "2.bag ++ 2 = ReadOnly; 0.refs 1 0; 0.bag 1 1",
            "1.kids ++ 0 = done; 0.up 1; 0.refs 1 0; 0.bag 1 1; 0 in 1; 1.kids 0",
            "0.kids ++ 1 = ContainmentCycle; 0.up 1; 0.refs 1 0; 0.bag 1 1; 0 in 1; 1.kids 0",
        ],
    )
}

/// A list that is written takes the place of the old one or comes after it: one change, with one
/// refusal that leaves the store as it was.
#[test]
fn lists_are_written(rt: HostRuntime) -> Result<(), Fail> {
    let alloc = rt.alloc();
    run(
        &rt,
        alloc,
        BOXES,
        "Box Box Item Item Item@1 Box@2 Item@2",
        &[
            "0.parts put 2 3 2 = done; 0.parts 2 3; 2.owner 0; 2 in 0; 3.owner 0; 3 in 0",
            "1.extras add 3 = done; 0.parts 2; 1.extras 3; 2.owner 0; 2 in 0; 3.holder 1; 3 in 1",
            "0.parts add 3 2 = done; 0.parts 2 3; 2.owner 0; 2 in 0; 3.owner 0; 3 in 0",
            "0.parts add = done; 0.parts 2 3; 2.owner 0; 2 in 0; 3.owner 0; 3 in 0",
            "0.parts put 3 4 = CrossModel; 0.parts 2 3; 2.owner 0; 2 in 0; 3.owner 0; 3 in 0",
            "2.owner put 0 1 = TooMany; 0.parts 2 3; 2.owner 0; 2 in 0; 3.owner 0; 3 in 0",
            "5.parts put 6 = ReadOnly; 0.parts 2 3; 2.owner 0; 2 in 0; 3.owner 0; 3 in 0",
            "0.parts put = done",
        ],
    )?;
    run(
        &rt,
        alloc,
        TREES,
        "N N",
        &[
            "0.bag put 1 1 = done; 0.bag 1 1",
            "0.bag add 1 = TooMany; 0.bag 1 1",
            "0.refs add 1 1 0 1 = done; 0.refs 1 0; 0.bag 1 1",
            "0.kids put 1 = done; 0.kids 1; 0.refs 1 0; 0.bag 1 1; 1.up 0; 1 in 0",
            "1.part add 0 = ContainmentCycle; 0.kids 1; 0.refs 1 0; 0.bag 1 1; 1.up 0; 1 in 0",
        ],
    )
}

#[test]
fn opposites_follow_each_other(rt: HostRuntime) -> Result<(), Fail> {
    let alloc = rt.alloc();
    run(
        &rt,
        alloc,
        LINKS,
        "N N N N",
        &[
            "0.left := 1 = done; 0.left 1; 1.right 0",
            "2.left := 1 = done; 1.right 2; 2.left 1",
            "2.left := 2 = done; 2.left 2; 2.right 2",
            "2.left := = done",
            "0.left := 1 = done; 0.left 1; 1.right 0",
            "1.right := 2 = done; 1.right 2; 2.left 1",
            "1.right := = done",
            "0.next := 1 2 = done; 0.next 1 2; 1.prev 0; 2.prev 0",
            "1.prev += 3 = done; 0.next 1 2; 1.prev 0 3; 2.prev 0; 3.next 1",
            "2.next += 1 = TooMany; 0.next 1 2; 1.prev 0 3; 2.prev 0; 3.next 1",
            "1.prev := 0 2 3 = TooMany; 0.next 1 2; 1.prev 0 3; 2.prev 0; 3.next 1",
            "1.prev := 3 0 = done; 0.next 1 2; 1.prev 3 0; 2.prev 0; 3.next 1",
            "0.next := 2 = done; 0.next 2; 1.prev 3; 2.prev 0; 3.next 1",
            "0.next := 2 0 = done; 0.next 2 0; 0.prev 0; 1.prev 3; 2.prev 0; 3.next 1",
            "0.next := = done; 1.prev 3; 3.next 1",
            "3.next := = done",
            "0.tail := 1 2 = done; 0.tail 1 2; 1.head 0; 2.head 0",
            "3.head := 0 = TooMany; 0.tail 1 2; 1.head 0; 2.head 0",
            "0.tail += 3 = TooMany; 0.tail 1 2; 1.head 0; 2.head 0",
            "3.tail += 1 = done; 0.tail 2; 1.head 3; 2.head 0; 3.tail 1",
            "2.head := 3 = done; 1.head 3; 2.head 3; 3.tail 1 2",
            "2.head := 2 = done; 1.head 3; 2.head 2; 2.tail 2; 3.tail 1",
            "2.head := 1 3 = TooMany; 1.head 3; 2.head 2; 2.tail 2; 3.tail 1",
        ],
    )
}

#[test]
fn no_object_comes_inside_itself(rt: HostRuntime) -> Result<(), Fail> {
    let alloc = rt.alloc();
    run(
        &rt,
        alloc,
        TREES,
        "N N N",
        &[
            "0.kids += 0 = ContainmentCycle",
            "0.kids += 1 = done; 0.kids 1; 1.up 0; 1 in 0",
            "1.kids += 2 = done; 0.kids 1; 1.kids 2; 1.up 0; 1 in 0; 2.up 1; 2 in 1",
            "2.kids += 0 = ContainmentCycle; 0.kids 1; 1.kids 2; 1.up 0; 1 in 0; 2.up 1; 2 in 1",
            "0.up := 2 = ContainmentCycle; 0.kids 1; 1.kids 2; 1.up 0; 1 in 0; 2.up 1; 2 in 1",
            "0.up := 1 = ContainmentCycle; 0.kids 1; 1.kids 2; 1.up 0; 1 in 0; 2.up 1; 2 in 1",
            "2.part := 0 = ContainmentCycle; 0.kids 1; 1.kids 2; 1.up 0; 1 in 0; 2.up 1; 2 in 1",
            "2.part := 2 = ContainmentCycle; 0.kids 1; 1.kids 2; 1.up 0; 1 in 0; 2.up 1; 2 in 1",
            "2.part := 0 1 = TooMany; 0.kids 1; 1.kids 2; 1.up 0; 1 in 0; 2.up 1; 2 in 1",
            "0.kids := 1 2 = done; 0.kids 1 2; 1.up 0; 1 in 0; 2.up 0; 2 in 0",
            "1.part := 2 = done; 0.kids 1; 1.up 0; 1.part 2; 1 in 0; 2 in 1",
            "2.up := 1 = done; 0.kids 1; 1.kids 2; 1.up 0; 1 in 0; 2.up 1; 2 in 1",
            "0.kids := 2 = done; 0.kids 2; 2.up 0; 2 in 0",
            "1.kids := 0 = done; 0.kids 2; 0.up 1; 0 in 1; 1.kids 0; 2.up 0; 2 in 0",
        ],
    )
}

#[test]
fn the_first_refusal_is_told(rt: HostRuntime) -> Result<(), Fail> {
    let alloc = rt.alloc();
    run(
        &rt,
        alloc,
        TREES,
        "N N@1 N@2 N",
        &[
            "0.refs += 1 = CrossModel",
            "0.refs += 3 = done; 0.refs 3",
            "0.refs := 3 1 0 = TooMany; 0.refs 3",
            "0.refs := 3 1 = CrossModel; 0.refs 3",
            "1.kids += 3 = CrossModel; 0.refs 3",
            "2.refs += 0 = ReadOnly; 0.refs 3",
            "2.refs := = ReadOnly; 0.refs 3",
            "2.kids += 2 = ContainmentCycle; 0.refs 3",
            "2.part := 2 0 = TooMany; 0.refs 3",
            "0.bag := 3 3 = done; 0.refs 3; 0.bag 3 3",
            "0.bag += 3 = TooMany; 0.refs 3; 0.bag 3 3",
            "0.refs := 3 3 3 = done; 0.refs 3; 0.bag 3 3",
            "0.refs := 0 3 = done; 0.refs 0 3; 0.bag 3 3",
            "0.refs += 0 = done; 0.refs 0 3; 0.bag 3 3",
            "2.refs <- 0 1 = done; 0.refs 0 3; 0.bag 3 3; 2.refs 0 1",
        ],
    )
}
