//! The laws, each called once; those of a builder at two.
use crate::tests::made::{made, text};
use cedar_calls::{ExtensionFunctions, Extensions};
use cedar_exprs::laws::*;
use cedar_exprs::{Expr, ExprBuilder};
use cedar_names::laws::{compared_lists, qualified_twice};
use cedar_terms::Var;
use cedar_validation::laws::types_of_known;
use cedar_values::laws::{
    equal_partial_values, expressions_read_back, order_of_extension_values, order_of_kinds,
    order_of_sets, order_of_values, plain_values, plain_where_none, reading_gives_one_value,
    sets_are_finite_sets, then_is_both_of_maps, then_is_both_of_values, trees_of_values,
    value_keys_ascend, values_are_ordered, well_formed_parts,
};
use cedar_values::{NoExtension, Value};
use semantics_eval::laws::{
    ascending_lists, decided_stays, evaluator_is_lawful, longs_fit, never_open, one_list,
    plain_is_exact, value_kept, worked_outcomes,
};
use semantics_simplify::laws::{
    asks_by_children, asks_no_more, closed_is_known, known_stays, one_pass,
    partial_evaluation_is_sound, simplified_means_the_same, simplified_twice, simplifier_is_lawful,
    stages_are_one, values_ask_nothing, worked_simplified,
};
use std::process::Abort;
use std::rc::RcStr;
use test_support::{Counted, RefuseCount, Simplifying, refusing_makes_trees};

#[test]
fn laws_of_names_hold() {
    compared_lists::<RcStr>();
    qualified_twice();
}

// The laws of builders, at the builder of expressions.
fn laws_of_the_builder<T: Default + Copy>() {
    built_after::<ExprBuilder<T>>();
    substituted_twice::<ExprBuilder<T>>();
    struct_makes_trees::<T>();
}

#[test]
fn laws_of_expressions_hold() {
    equal_expressions::<u8>();
    alike_expressions::<u8>();
    nodes_in_preorder::<u8>();
    positions_by_children::<u8>();
    data_by_children::<u8>();
    laws_of_the_builder::<u8>();
    clash_by_children();
    rebuilt_twice();
    restricted_rebuilt();
    shapes_are_ordered();
    stack_needs();
    substituted_by_fold();
    then_is_both();
    then_is_not_always_both();
}

// The laws of builders, at one that refuses the calls without arguments.
#[test]
fn laws_of_a_builder_that_refuses_hold() {
    built_after::<RefuseCount<0>>();
    substituted_twice::<RefuseCount<0>>();
    refusing_makes_trees::<Counted<0>, Simplifying>();
}

// Two pairs, from the later key to the earlier.
fn pairs(rt: &(impl Abort + AllocGlobal), b: Expr, a: Expr) -> Vec<(RcStr, Expr)> {
    let mut pairs = Vec::new(rt.alloc());
    made(rt, pairs.push((text(rt, "b"), b)));
    made(rt, pairs.push((text(rt, "a"), a)));
    pairs
}

fn record(rt: &(impl Abort + AllocGlobal), b: Expr, a: Expr) -> Expr {
    made(rt, Expr::record(rt.alloc(), pairs(rt, b, a)))
}

// The laws of one expression: what they walk over is a record in a record.
#[test]
fn laws_of_an_expression_hold(rt: HostRuntime) {
    let inner = record(&rt, Expr::var(Var::Action), Expr::var(Var::Context));
    let e = record(&rt, inner, Expr::var(Var::Resource));
    bare_positions(&e);
    record_keys_ascend(&e);
}

#[test]
fn laws_of_values_hold() {
    order_of_values::<NoExtension>();
    order_of_kinds::<NoExtension>();
    order_of_sets::<NoExtension>();
    order_of_extension_values::<NoExtension>();
    trees_of_values::<NoExtension>();
    well_formed_parts::<NoExtension>();
    plain_values::<NoExtension>();
    sets_are_finite_sets::<NoExtension>();
    equal_partial_values::<NoExtension>();
    values_are_ordered::<NoExtension>();
    plain_where_none::<NoExtension>();
    reading_gives_one_value::<NoExtension>();
    expressions_read_back::<NoExtension>();
    then_is_both_of_values::<NoExtension>();
    then_is_both_of_maps::<NoExtension>();
}

#[test]
fn laws_of_the_evaluator_hold() {
    evaluator_is_lawful::<NoExtension>();
    value_kept::<NoExtension>();
    decided_stays::<NoExtension>();
    never_open::<NoExtension>();
    ascending_lists::<NoExtension>();
    plain_is_exact::<NoExtension>();
    one_list::<NoExtension>();
    longs_fit();
    worked_outcomes::<NoExtension>();
}

#[test]
fn laws_of_the_simplifier_hold() {
    simplifier_is_lawful::<NoExtension>();
    simplified_means_the_same::<NoExtension>();
    partial_evaluation_is_sound::<NoExtension>();
    one_pass::<NoExtension>();
    known_stays::<NoExtension>();
    closed_is_known::<NoExtension>();
    asks_no_more::<NoExtension>();
    stages_are_one::<NoExtension>();
    simplified_twice::<NoExtension>();
    asks_by_children();
    values_ask_nothing::<NoExtension>();
    worked_simplified::<NoExtension>();
}

fn laws_of_tables<X: ExtensionFunctions>() {
    types_of_known::<Extensions<X>>();
}

#[test]
fn tables_type_what_they_know() {
    laws_of_tables::<NoExtension>();
}

#[test]
fn keys_of_a_value_ascend() {
    let value: Value = Value::from(true);
    value_keys_ascend(&value);
}
