//! The tests, in a file for each subject.
mod records;
mod runs;
