//! The cases of sets of values.
use crate::fault::{CaseFault, expect};
use cedar_bench_runner::Stopwatch;
use cedar_terms::Literal;
use cedar_values::{NoExtension, Set, Value};
use std::alloc::{AllocError, Global};
use std::rc::RcStr;
use std::time::Duration;

/// What the members of a set are, each made of a number that was drawn.
#[derive(Clone, Copy)]
pub enum Members {
    /// The numbers.
    Longs,
    /// Texts that end in them.
    Strings,
    /// Sets of them and 1.
    Nested,
    /// Their last digits.
    Few,
}

/// Makes the set of so many values.
pub fn time_new(rt: &HostRuntime, members: Members, count: usize) -> Result<Duration, CaseFault> {
    let values = members.values(rt.alloc(), count)?;
    let watch = Stopwatch::start(rt);
    watch.stop(Set::new(rt.alloc(), values))
}

/// Drops the set of so many values, whose nested sets no one else has.
pub fn time_drop(rt: &HostRuntime, members: Members, count: usize) -> Result<Duration, CaseFault> {
    let set = Set::new(rt.alloc(), members.values(rt.alloc(), count)?)?;
    let watch = Stopwatch::start(rt);
    watch.stop::<(), CaseFault, CaseFault>(Ok(drop(set)))
}

/// Looks for so many values in the set of every other one.
pub fn time_contains(
    rt: &HostRuntime,
    members: Members,
    count: usize,
) -> Result<Duration, CaseFault> {
    let values = members.values(rt.alloc(), count)?;
    let set = every_other(rt.alloc(), &values)?;
    let watch = Stopwatch::start(rt);
    watch.stop(expect(count_members(&set, &values) >= count / 2))
}

/// Looks whether the set of every other value is a subset of the set of all.
pub fn time_subset(
    rt: &HostRuntime,
    members: Members,
    count: usize,
) -> Result<Duration, CaseFault> {
    let sets = half_and_all(rt.alloc(), members.values(rt.alloc(), count)?)?;
    let watch = Stopwatch::start(rt);
    watch.stop(expect(sets.one.is_subset(&sets.other)))
}

/// Looks whether two sets of so many values each are disjoint, which they are.
pub fn time_disjoint(
    rt: &HostRuntime,
    members: Members,
    count: usize,
) -> Result<Duration, CaseFault> {
    let sets = all_and_far(rt.alloc(), members, count)?;
    let watch = Stopwatch::start(rt);
    watch.stop(expect(sets.one.is_disjoint(&sets.other)))
}

/// Compares two equal sets of so many values by `==`.
pub fn time_equal(rt: &HostRuntime, members: Members, count: usize) -> Result<Duration, CaseFault> {
    let sets = all_twice(rt.alloc(), members, count)?;
    let watch = Stopwatch::start(rt);
    watch.stop(expect(sets.one == sets.other))
}

/// Compares two equal sets of so many values by `cmp`.
pub fn time_order(rt: &HostRuntime, members: Members, count: usize) -> Result<Duration, CaseFault> {
    let sets = all_twice(rt.alloc(), members, count)?;
    let watch = Stopwatch::start(rt);
    watch.stop(expect(sets.one.cmp(&sets.other).is_eq()))
}

/// Makes the set of so many literals.
pub fn time_from_lits(rt: &HostRuntime, count: usize) -> Result<Duration, CaseFault> {
    let literals = literals(rt.alloc(), count)?;
    let watch = Stopwatch::start(rt);
    watch.stop(Set::<NoExtension>::from_lits(rt.alloc(), literals))
}

/// Makes the set of so many values by `from_values`.
pub fn time_from_values(rt: &HostRuntime, count: usize) -> Result<Duration, CaseFault> {
    let values = Members::Longs.values(rt.alloc(), count)?;
    let watch = Stopwatch::start(rt);
    watch.stop(Set::from_values(rt.alloc(), values))
}

/// Looks whether a set of numbers and the same set with one more set are subsets of one another.
pub fn time_subset_mixed(rt: &HostRuntime, count: usize) -> Result<Duration, CaseFault> {
    let sets = all_and_one_more(rt.alloc(), count)?;
    let watch = Stopwatch::start(rt);
    watch.stop(expect(sets.one.is_subset(&sets.other) && !sets.other.is_subset(&sets.one)))
}

impl Members {
    // How many kinds of members are drawn before these.
    fn kinds_before(self) -> usize {
        match self {
            Members::Longs => 0,
            Members::Strings => 1,
            Members::Nested => 2,
            Members::Few => 3,
        }
    }

    // Of a number that was drawn.
    fn member(self, alloc: Global, x: i64) -> Result<Value, AllocError> {
        match self {
            Members::Longs => Ok(Value::from(x)),
            Members::Strings => numbered(alloc, "resource", x),
            Members::Nested => pair(alloc, x, 1),
            Members::Few => Ok(Value::from(x.rem_euclid(10))),
        }
    }

    // One that is no member.
    fn far(self, alloc: Global, x: i64) -> Result<Value, AllocError> {
        match self {
            Members::Longs => Ok(Value::from(!x)),
            Members::Strings => numbered(alloc, "principal", x),
            Members::Nested => pair(alloc, x, -1),
            Members::Few => Ok(Value::from(x.rem_euclid(10).saturating_add(10))),
        }
    }

    fn values(self, alloc: Global, count: usize) -> Result<Vec<Value>, AllocError> {
        let mut values = Vec::new(alloc);
        for x in drawn(alloc, count, count.saturating_mul(self.kinds_before()))? {
            values.push(self.member(alloc, x)?)?;
        }
        Ok(values)
    }

    // As many that are no members, drawn after all members.
    fn far_values(self, alloc: Global, count: usize) -> Result<Vec<Value>, AllocError> {
        let mut values = Vec::new(alloc);
        let kinds_before = self.kinds_before().saturating_add(4);
        for x in drawn(alloc, count, count.saturating_mul(kinds_before))? {
            values.push(self.far(alloc, x)?)?;
        }
        Ok(values)
    }
}

fn numbered(alloc: Global, word: &str, x: i64) -> Result<Value, AllocError> {
    Ok(Value::from(RcStr::from_string(format!(in alloc; "{word}-{x}")?)?))
}

// The set of two numbers.
fn pair(alloc: Global, x: i64, y: i64) -> Result<Value, AllocError> {
    let numbers = vec![in alloc; Literal::Long(x), Literal::Long(y)]?;
    Value::set_of_lits(alloc, numbers, None)
}

// So many numbers after those that were drawn before them. Each is the upper part of a step of
// Knuth's generator, whose seed is how many there are.
fn drawn(alloc: Global, count: usize, before: usize) -> Result<Vec<i64>, AllocError> {
    let mut numbers = Vec::new(alloc);
    let mut step = count as u64;
    for index in 0..before.saturating_add(count) {
        step = step
            .wrapping_mul(6_364_136_223_846_793_005)
            .wrapping_add(1_442_695_040_888_963_407);
        if index >= before {
            numbers.push((step >> 33) as i64)?;
        }
    }
    Ok(numbers)
}

/// So many numbers.
pub fn literals(alloc: Global, count: usize) -> Result<Vec<Literal>, AllocError> {
    let mut literals = Vec::new(alloc);
    for x in drawn(alloc, count, 0)? {
        literals.push(Literal::Long(x))?;
    }
    Ok(literals)
}

// Sets to be compared.
#[derive(Drop)]
struct TwoSets {
    one: Set<NoExtension>,
    other: Set<NoExtension>,
}

// Copies of the values, or of every other one.
fn copies(alloc: Global, values: &[Value], is_every_other: bool) -> Result<Vec<Value>, AllocError> {
    let mut copies = Vec::new(alloc);
    let mut is_left_out = false;
    for value in values {
        if !is_left_out {
            copies.push(value.clone(alloc)?)?;
        }
        is_left_out = is_every_other && !is_left_out;
    }
    Ok(copies)
}

// The set of every other value.
fn every_other(alloc: Global, values: &[Value]) -> Result<Set<NoExtension>, AllocError> {
    Set::new(alloc, copies(alloc, values, true)?)
}

// The set of the values from the last on.
fn backwards(alloc: Global, values: &[Value]) -> Result<Set<NoExtension>, AllocError> {
    let mut copies = copies(alloc, values, false)?;
    copies.reverse();
    Set::new(alloc, copies)
}

fn half_and_all(alloc: Global, values: Vec<Value>) -> Result<TwoSets, AllocError> {
    let one = every_other(alloc, &values)?;
    let other = Set::new(alloc, values)?;
    Ok(TwoSets { one, other })
}

fn all_and_far(alloc: Global, members: Members, count: usize) -> Result<TwoSets, AllocError> {
    let one = Set::new(alloc, members.values(alloc, count)?)?;
    let other = Set::new(alloc, members.far_values(alloc, count)?)?;
    Ok(TwoSets { one, other })
}

fn all_twice(alloc: Global, members: Members, count: usize) -> Result<TwoSets, AllocError> {
    let values = members.values(alloc, count)?;
    let other = backwards(alloc, &values)?;
    let one = Set::new(alloc, values)?;
    Ok(TwoSets { one, other })
}

// The set of numbers, and the same with a set beside them.
fn all_and_one_more(alloc: Global, count: usize) -> Result<TwoSets, AllocError> {
    let values = Members::Longs.values(alloc, count)?;
    let one = backwards(alloc, &values)?;
    let other = with_one_more(alloc, values)?;
    Ok(TwoSets { one, other })
}

fn with_one_more(alloc: Global, values: Vec<Value>) -> Result<Set<NoExtension>, AllocError> {
    let mut values = values;
    values.push(pair(alloc, 0, 1)?)?;
    Set::new(alloc, values)
}

fn count_members(set: &Set<NoExtension>, values: &[Value]) -> usize {
    let mut count: usize = 0;
    for value in values {
        if set.contains(value) {
            count = count.saturating_add(1);
        }
    }
    count
}
