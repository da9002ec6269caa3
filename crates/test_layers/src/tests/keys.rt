//! Expressions as keys, whole and by their shapes alone.
use crate::tests::made::{made, text};
use cedar_builders::ExprBuilder as _;
use cedar_exprs::{Expr, ExprBuilder, ExprShapeOnly};
use cedar_names::Loc;
use cedar_terms::Literal;
use std::collections::{BTreeSet, HashSet};
use std::process::Abort;

// An integer, with the start of its place and its data.
fn literal(rt: &(impl Abort + AllocGlobal), n: i64, start: usize, data: u8) -> Expr<u8> {
    let place = Loc::new(start, 9, text(rt, "source"));
    let builder = ExprBuilder::with_data(data).with_maybe_source_loc(Some(place));
    made(rt, builder.val(rt.alloc(), Literal::Long(n)))
}

// The number, the place and the data of a literal, whether it is equal to 1 at 0 with data 1, and
// whether it has the same shape.
const LITERALS: [(i64, usize, u8, bool, bool); 4] = [
    (1, 0, 1, true, true),
    (1, 7, 1, true, true),
    (1, 0, 2, false, true),
    (2, 0, 1, false, false),
];

fn whole(rt: &(impl Abort + AllocGlobal)) -> HashSet<Expr<u8>> {
    let mut seen = HashSet::new(rt.alloc());
    made(rt, seen.insert(literal(rt, 1, 0, 1)));
    seen
}

// Places do not count, data do.
#[test]
fn places_do_not_count(rt: HostRuntime) {
    let seen = whole(&rt);
    for (n, start, data, is_same, _) in LITERALS {
        let other = literal(&rt, n, start, data);
        assert!(rt; seen.contains(&other) == is_same, "{n} {start} {data}");
    }
}

fn hashed(rt: &(impl Abort + AllocGlobal)) -> HashSet<ExprShapeOnly<'static, u8>> {
    let mut seen = HashSet::new(rt.alloc());
    made(
        rt,
        seen.insert(ExprShapeOnly::new_from_owned(literal(rt, 1, 0, 1))),
    );
    seen
}

fn ordered(rt: &(impl Abort + AllocGlobal)) -> BTreeSet<ExprShapeOnly<'static, u8>> {
    let mut seen = BTreeSet::new(rt.alloc());
    made(
        rt,
        seen.insert(ExprShapeOnly::new_from_owned(literal(rt, 1, 0, 1))),
    );
    seen
}

// Neither places nor data count in shapes.
#[test]
fn shapes_are_keys(rt: HostRuntime) {
    let (hashed, ordered) = (hashed(&rt), ordered(&rt));
    for (n, start, data, _, is_same) in LITERALS {
        let shape = ExprShapeOnly::new_from_owned(literal(&rt, n, start, data));
        assert!(rt; hashed.contains(&shape) == is_same, "{n} {start} {data}");
        assert!(rt; ordered.contains(&shape) == is_same, "{n} {start} {data}");
    }
}
