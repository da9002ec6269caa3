//! The tests, in a file for each subject.
mod counting;
mod errors;
mod generic;
mod keys;
mod laws;
mod literals;
mod made;
mod names;
mod nodes;
mod operators;
mod plain;
mod refusals;
mod shared;
mod slices;
mod stored;
mod writing;
