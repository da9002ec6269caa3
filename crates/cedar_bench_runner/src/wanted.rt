//! What the arguments ask for.
ghost use Rattle.std.specs.Prelude.{◌≡◌, IsTrue, false, take};

/// Takes the two least sizes of a case alone.
pub const QUICK: &str = "--quick";

/// Runs each case once at its least size, and writes no times.
pub const CHECK: &str = "--check";

/// Whether an option is among the arguments.
pub fn has_option(arguments: &[String], option: &str) -> bool {
    for argument in arguments {
        if argument.as_str() == option {
            return true;
        }
    }
    false
}

/// Whether the case is to be run: an argument is a beginning of its name, or none is given.
pub fn is_wanted(arguments: &[String], name: &str) -> bool {
    let mut is_wanted = true;
    for argument in arguments {
        if let Some(beginning) = beginning(argument) {
            if name.starts_with(beginning) {
                return true;
            }
            is_wanted = false;
        }
    }
    is_wanted
}

/// The argument as the beginning of a name, if it is no option.
pub fn beginning(argument: &str) -> Option<&str> {
    if argument == QUICK || argument == CHECK {
        None
    } else {
        Some(argument)
    }
}

/// The sizes at which a case is run, of all its sizes from the least up.
pub fn sizes_of(is_quick: bool, sizes: &[usize]) -> &[usize]
    ensures least { IsTrue is_quick → result.now ≡ take 2 sizes.now }
    ensures all { is_quick ≡ false → result.now ≡ sizes.now }
{
    match sizes.split_at_checked(2) {
        Some((least, _)) if is_quick => least,
        _ => sizes,
    }
}
