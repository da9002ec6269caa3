//! What the program ends with.

/// The kinds of ends; `--help` lists the status of each.
#[derive(Clone, Copy, Debug, PartialEq, Eq, PartialOrd, Ord)]
pub enum Status {
    /// What was asked for was done; a request is allowed.
    Success,
    /// It can't be done: wrong options, or a file that can't be read or has the wrong form.
    Failure,
    /// A request is denied; a value is `false`, where that counts.
    Deny,
    /// Memory ran out.
    Memory,
    /// A decision or a value is not known, since parts of what decides are not.
    Unknown,
    /// A text is no condition.
    NoCondition,
    /// A condition has a fault.
    Fault,
}

impl Status {
    /// The number of it.
    pub fn code(self) -> u8 {
        match self {
            Status::Success => 0,
            Status::Failure => 1,
            Status::Deny => 2,
            Status::Memory => 3,
            Status::Unknown => 4,
            Status::NoCondition => 5,
            Status::Fault => 6,
        }
    }
}
