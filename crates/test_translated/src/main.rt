//! Tests of Cedar's own crate, translated by hand: each prints what it asserts there, and `stdout`
//! has the answers that the originals want.
#![tactic(auto)]

mod said;
mod test_expr;
mod test_expr_iterator;
mod test_id;
mod test_name;
mod test_partial_value;
mod test_pattern;
mod test_value;

use std::io;

fn main(rt: HostRuntime) -> io::Result<()> {
    test_partial_value::run(&rt)?;
    test_pattern::run(&rt)?;
    test_id::run(&rt)?;
    test_name::run(&rt)?;
    test_expr_iterator::run(&rt)?;
    test_value::run(&rt)?;
    test_expr::run(&rt)
}
