//! The cases of stores of entities.
use crate::fault::{CaseFault, expect};
use crate::nodes::{CHILDREN, Store, store, tree, uid};
use cedar_bench_runner::Stopwatch;
use cedar_entities::Entities;
use cedar_terms::EntityUID;
use std::alloc::Global;
use std::time::Duration;

/// Makes the store of so many entities, a tree.
pub fn time_make(rt: &HostRuntime, count: usize) -> Result<Duration, CaseFault> {
    let nodes = tree(rt.alloc(), count, CHILDREN)?;
    let watch = Stopwatch::start(rt);
    watch.stop(Entities::from_entities(rt.alloc(), nodes))
}

/// Asks of each entity of that store whether the first one is among its ancestors.
pub fn time_ask(rt: &HostRuntime, count: usize) -> Result<Duration, CaseFault> {
    let uids = uids(rt.alloc(), count)?;
    let store = store(rt.alloc(), count, CHILDREN)?;
    let watch = Stopwatch::start(rt);
    watch.stop(ask(rt.alloc(), &store, &uids))
}

fn uids(alloc: Global, count: usize) -> Result<Vec<EntityUID>, CaseFault> {
    let mut uids = Vec::new(alloc);
    for number in 0..count {
        uids.push(uid(alloc, "Node", number)?)?;
    }
    Ok(uids)
}

// The first one is an ancestor of each other.
fn ask(alloc: Global, store: &Store, uids: &[EntityUID]) -> Result<(), CaseFault> {
    let Some((first, others)) = uids.split_first() else {
        return Ok(());
    };
    for uid in others {
        expect(store.is_descendant_of(alloc, uid, first)?)?;
    }
    Ok(())
}
