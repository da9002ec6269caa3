//! Slices that are made to ascend and asked, and each law called once.
use cedar_sorted_slices::laws::{ascending_lists_are_unique, none_is_any, part_is_all};
use cedar_sorted_slices::{
    contains, into_ascending, into_sorted, is_ascending, is_disjoint, is_subset,
};
use std::alloc::{AllocError, Global};

fn numbers(alloc: Global, n: u64) -> Result<Vec<u64>, AllocError> {
    (0..n).collect(alloc)
}

#[test]
fn one_of_each_class_is_kept(rt: HostRuntime) -> Result<(), AllocError> {
    let alloc = rt.alloc();
    ascending_lists_are_unique::<u64>();
    let made = into_ascending::<u64>(vec![in alloc; 3, 1, 3, 2, 1]?);
    assert!(rt; made.as_slice() == [1, 2, 3].as_slice());
    let sorted = into_sorted::<u64>(vec![in alloc; 3, 1, 2]?);
    assert!(rt; sorted.as_slice() == made.as_slice());
    assert!(rt; is_ascending::<u64>(&made) && is_ascending::<u64>(&[]));
    assert!(rt; !is_ascending::<u64>(&[1, 1]) && !is_ascending::<u64>(&[2, 1]));
    assert!(rt; contains::<u64>(&made, &3) && !contains::<u64>(&made, &4));
    Ok(())
}

// Short ones are walked, and ten are searched for in a thousand.
#[test]
fn slices_are_compared_as_sets(rt: HostRuntime) -> Result<(), AllocError> {
    let alloc = rt.alloc();
    part_is_all::<u64>();
    none_is_any::<u64>();
    let ten = numbers(alloc, 10)?;
    let many = numbers(alloc, 1000)?;
    let cases: [(&[u64], &[u64], bool, bool); 9] = [
        (&[], &[], true, true),
        (&[], &[1], true, true),
        (&[1], &[], false, true),
        (&[1, 3], &[1, 2, 3], true, false),
        (&[1, 4], &[1, 2, 3], false, false),
        (&[1, 3], &[2, 4], false, true),
        (&ten, &many, true, false),
        (&many, &ten, false, false),
        (&[1, 2000], &many, false, false),
    ];
    for (items, others, is_part, is_apart) in &cases {
        assert!(rt; is_subset::<u64>(items, others) == *is_part);
        assert!(rt; is_disjoint::<u64>(items, others) == *is_apart);
        assert!(rt; is_disjoint::<u64>(others, items) == *is_apart);
    }
    Ok(())
}
