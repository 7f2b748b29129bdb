//! Weak global references.

use heap::Addr;
use std::test::Fail;
use tables::{TableFault, Weaks};

#[test]
fn weak_references_have_keys(rt: HostRuntime) -> Result<(), Fail> {
    let mut weaks = Weaks::new(rt.alloc());
    let first = weaks.make(Addr::new(8))?;
    let second = weaks.make(Addr::new(8))?;
    assert!(rt; first != second);
    assert!(rt; weaks.get(second) == Ok(Some(Addr::new(8))));
    weaks.delete(first)?;
    assert!(rt; weaks.get(first) == Err(TableFault::Dead));
    assert!(rt; weaks.delete(first) == Err(TableFault::Dead));
    assert!(rt; weaks.get(second) == Ok(Some(Addr::new(8))));
    let again = weaks.make(Addr::new(6))?;
    assert!(rt; again == first && weaks.get(again) == Ok(Some(Addr::new(6))));
    Ok(())
}

// One follows its object, one is cleared, and keeps its key until it is ended.
#[test]
fn weak_references_follow_or_are_cleared(rt: HostRuntime) -> Result<(), Fail> {
    let mut weaks = Weaks::new(rt.alloc());
    assert_eq!(rt; weaks.len(), 0);
    let first = weaks.make(Addr::new(8))?;
    let second = weaks.make(Addr::new(5))?;
    let third = weaks.make(Addr::new(3))?;
    weaks.delete(third)?;
    weaks.set_weak(0, Some(Addr::new(4)));
    weaks.set_weak(1, None);
    weaks.set_weak(2, Some(Addr::new(2)));
    assert!(rt; weaks.get(first) == Ok(Some(Addr::new(4))));
    assert!(rt; weaks.get(second) == Ok(None));
    assert!(rt; weaks.get(third) == Err(TableFault::Dead));
    assert_eq!(rt; weaks.len(), 3);
    if weaks.len() == 3 {
        assert!(rt; weaks.weak(0) == Some(Addr::new(4)));
        assert!(rt; weaks.weak(1) == None && weaks.weak(2) == None);
    }
    weaks.delete(second)?;
    assert!(rt; weaks.get(second) == Err(TableFault::Dead));
    Ok(())
}
