//! What holds of all that the layer makes, as functions whose contracts say so.
pub use cedar_builders::laws::{
    built_after, clash_by_children, pairs_in_key_order, rebuilt_twice, restricted_rebuilt,
    shapes_are_ordered, stack_needs, substituted_by_fold, substituted_twice, then_is_both,
    then_is_not_always_both,
};
pub use cedar_exprs::laws::{
    alike_expressions, bare_positions, data_by_children, equal_expressions, nodes_in_preorder,
    positions_by_children, record_keys_ascend, struct_makes_trees,
};
pub use cedar_names::laws::{
    compared_lists, equal_names, name_texts_differ, ordered_names, qualified_twice,
};
pub use cedar_terms::laws::{
    equal_operators, equal_terms, hashed_entities, hashed_literals, ordered_entities,
    ordered_operators, pattern_texts_differ,
};
pub use cedar_validation::laws::types_of_known;
pub use cedar_values::laws::{
    equal_partial_values, maps_bind_plain_values, no_extension_values, order_of_extension_values,
    order_of_kinds, order_of_sets, order_of_values, plain_values, sets_are_finite_sets,
    then_is_both_of_maps, trees_of_values, value_keys_ascend, values_by_kind,
    well_formed_maps_bind_plain_values, well_formed_parts,
};
pub use semantics_values::laws::{
    expressions_read_back, plain_where_none, reading_gives_one_value, then_is_both_of_values,
    values_are_ordered,
};
