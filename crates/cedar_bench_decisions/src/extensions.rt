//! The cases of decimals and of ranges of IP addresses: texts parsed, and values compared.
use crate::fault::{CaseFault, expect};
use cedar_bench_runner::Stopwatch;
use cedar_extensions::{Decimal, IpAddr};
use std::alloc::{AllocError, Global};
use std::str::FromStr;
use std::time::Duration;

/// Parses so many decimals, and compares each with a greater one.
pub fn time_decimals(rt: &HostRuntime, count: usize) -> Result<Duration, CaseFault> {
    let texts = decimals(rt.alloc(), count)?;
    let watch = Stopwatch::start(rt);
    watch.stop(compare_decimals(&texts))
}

/// Parses so many addresses, and compares each with a range that has all of them.
pub fn time_addresses(rt: &HostRuntime, count: usize) -> Result<Duration, CaseFault> {
    let texts = addresses(rt.alloc(), count)?;
    let watch = Stopwatch::start(rt);
    watch.stop(compare_addresses(&texts))
}

fn decimals(alloc: Global, count: usize) -> Result<Vec<String>, AllocError> {
    let mut texts = Vec::new(alloc);
    for i in 0..count {
        texts.push(format!(in alloc; "{}.{:04}", i % 977, i % 10_000)?)?;
    }
    Ok(texts)
}

fn addresses(alloc: Global, count: usize) -> Result<Vec<String>, AllocError> {
    let mut texts = Vec::new(alloc);
    for i in 0..count {
        texts.push(format!(in alloc; "10.{}.{}.{}", i % 64, i % 251, i % 256)?)?;
    }
    Ok(texts)
}

fn compare_decimals(texts: &[String]) -> Result<(), CaseFault> {
    let bound: Decimal = parsed("977.0")?;
    for text in texts {
        let decimal: Decimal = parsed(text)?;
        expect(decimal.less_than(bound))?;
    }
    Ok(())
}

fn compare_addresses(texts: &[String]) -> Result<(), CaseFault> {
    let range: IpAddr = parsed("10.0.0.0/10")?;
    for text in texts {
        let address: IpAddr = parsed(text)?;
        expect(address.is_in_range(range))?;
    }
    Ok(())
}

// The value of a text, which has to stand for one.
fn parsed<T>(text: &str) -> Result<T, CaseFault>
where
    T: FromStr,
    T::Err: Drop,
{
    text.parse().map_err(|_| CaseFault::Answer)
}
