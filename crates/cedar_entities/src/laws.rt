//! The laws of what stores mean. The functions do nothing: their contracts are the laws.
ghost use Rattle.cedar_entities.specs.Laws.{AncestorsAreReached, PartsStay};

/// The ancestors that evaluation is told of are those reached by one or more steps from child to
/// parent.
pub fn ancestors_are_reached<V>()
    ensures { AncestorsAreReached V }
{}

/// What a part of a store knows of an entity stays where entities are added: its attributes, its
/// tags and its ancestors. So the part and the whole are one known in part and one known fuller.
pub fn parts_stay<V, X>()
    ensures { PartsStay V X }
{}
