//! Hand-worked hierarchies.
use crate::keyed::{Cyclic, Hierarchy};
use std::alloc::Global;
use std::collections::HashMap;
use std::test::Fail;

// A map from some keys to their parents.
fn map(alloc: Global, entries: &[(u32, &[u32])]) -> Result<HashMap<u32, Vec<u32>>, Fail> {
    let mut map = HashMap::new(alloc);
    for (child, parents) in entries {
        map.insert(*child, parents.to_vec(alloc)?)?;
    }
    Ok(map)
}

// A diamond above 1, above which is 5, which has no entry.
fn diamond(alloc: Global, most: usize) -> Result<Hierarchy<u32>, Fail> {
    let map = map(alloc, &[(1, &[2, 3, 2]), (2, &[4]), (3, &[4]), (4, &[5])])?;
    Ok(Hierarchy::of(alloc, &map, most)?)
}

// Whether a hierarchy is refused at a key.
fn is_refused_at(made: &Result<Hierarchy<u32>, Cyclic<u32>>, key: u32) -> bool {
    matches!(made, Err(Cyclic::At(at)) if *at == key)
}

// Whether the answers about the diamond are right.
fn is_diamond(alloc: Global, made: &Hierarchy<u32>) -> Result<bool, Fail> {
    Ok(
        made.is_below(alloc, &1, &5)?
            && made.is_below(alloc, &3, &4)?
            && !made.is_below(alloc, &2, &3)?
            && !made.is_below(alloc, &5, &1)?
            && !made.is_below(alloc, &7, &5)?
            && !made.is_below(alloc, &1, &1)?,
    )
}

#[test]
fn kept(rt: HostRuntime) -> Result<(), Fail> {
    let made = diamond(rt.alloc(), 100)?;
    assert!(rt; is_diamond(rt.alloc(), &made)?);
    Ok(())
}

#[test]
fn walked(rt: HostRuntime) -> Result<(), Fail> {
    let made = diamond(rt.alloc(), 0)?;
    assert!(rt; is_diamond(rt.alloc(), &made)?);
    Ok(())
}

#[test]
fn cycle_of_three(rt: HostRuntime) -> Result<(), Fail> {
    let map = map(rt.alloc(), &[(0, &[1]), (1, &[2]), (2, &[3]), (3, &[1])])?;
    assert!(rt; is_refused_at(&Hierarchy::of(rt.alloc(), &map, 100), 1));
    Ok(())
}
