//! The arena by hand, and each call on its happy path.

use crate::{Arena, Step};
use lab_model::Label;
use std::test::Fail;

fn label(n: u64) -> Label {
    Label { t: n, p: n, v: 0 }
}

#[test]
fn arena_by_hand(rt: HostRuntime) -> Result<(), Fail> {
    let mut arena = Arena::with_room(rt.alloc(), 1, 3)?;
    let a = arena.add(0, None, label(1), None);
    let b = arena.add(0, Some(a), label(2), None);
    assert_eq!(rt; arena.drop_node(0, None), Some(label(1)));
    let left = arena.walk(0).collect::<Vec<Step>>(rt.alloc())?;
    assert_eq!(rt; left.len(), 1);
    assert_eq!(rt; arena.first(0), Some(b));
    assert_eq!(rt; arena.next(b), None);
    assert_eq!(rt; arena.label(b), label(2));
    assert_eq!(rt; arena.spare(), 2);
    arena.make_room(5)?;
    assert!(rt; arena.spare() >= 5);
    Ok(())
}

#[test]
fn parents_stand_in_sealed_chains(rt: HostRuntime) -> Result<(), Fail> {
    let mut arena = Arena::with_room(rt.alloc(), 2, 3)?;
    let a = arena.add(0, None, label(1), None);
    arena.seal(0);
    let b = arena.add(1, None, label(2), None);
    arena.raise(1, b, label(3), Some(a));
    assert_eq!(rt; arena.label(b), label(3));
    assert_eq!(rt; arena.parent(b), Some(a));
    assert_eq!(rt; arena.parent(a), None);
    Ok(())
}
