//! The cases of `cedar_names`.
use crate::fault::CaseFault;
use cedar_bench_runner::Stopwatch;
use cedar_names::{FromNormalizedStr, InternalName, Name, ParseErrors};
use std::alloc::{AllocError, Global};
use std::time::Duration;

/// Reads so many names.
pub fn time_read(rt: &HostRuntime, count: usize) -> Result<Duration, CaseFault> {
    let texts = texts(rt.alloc(), count, "Type")?;
    let watch = Stopwatch::start(rt);
    watch.stop(read(rt.alloc(), &texts))
}

/// Reads so many texts that are no names.
pub fn time_refuse(rt: &HostRuntime, count: usize) -> Result<Duration, CaseFault> {
    let texts = texts(rt.alloc(), count, "9Type")?;
    let watch = Stopwatch::start(rt);
    watch.stop(refuse(rt.alloc(), &texts))
}

/// Sorts so many names.
pub fn time_sort(rt: &HostRuntime, count: usize) -> Result<Duration, CaseFault> {
    let mut names = type_names(rt.alloc(), count)?;
    let watch = Stopwatch::start(rt);
    watch.stop(names.sort())
}

/// Puts so many names within a namespace.
pub fn time_qualify(rt: &HostRuntime, count: usize) -> Result<Duration, CaseFault> {
    let names = unqualified(rt.alloc(), count)?;
    let namespace = InternalName::from_normalized_str(rt.alloc(), "A::B")?;
    let watch = Stopwatch::start(rt);
    watch.stop(qualify(rt.alloc(), &names, &namespace))
}

// The texts `Namespace::SubJ::KIND`, followed by a number that counts from 0; J is its last digit.
fn texts(alloc: Global, count: usize, kind: &str) -> Result<Vec<String>, AllocError> {
    let mut texts = Vec::new(alloc);
    for i in 0..count {
        texts.push(format!(in alloc; "Namespace::Sub{}::{kind}{i}", i % 10)?)?;
    }
    Ok(texts)
}

fn type_names(alloc: Global, count: usize) -> Result<Vec<Name>, CaseFault> {
    read(alloc, &texts(alloc, count, "Type")?)
}

fn read(alloc: Global, texts: &[String]) -> Result<Vec<Name>, CaseFault> {
    let mut names = Vec::new(alloc);
    for text in texts {
        names.push(Name::from_normalized_str(alloc, text)?)?;
    }
    Ok(names)
}

fn refuse(alloc: Global, texts: &[String]) -> Result<(), CaseFault> {
    for text in texts {
        match Name::from_normalized_str(alloc, text) {
            Err(ParseErrors::NotNormalized { .. }) => {}
            Err(error) => return Err(CaseFault::from(error)),
            Ok(_) => return Err(CaseFault::Answer),
        }
    }
    Ok(())
}

// The names `Type0`, `Type1` and so on.
fn unqualified(alloc: Global, count: usize) -> Result<Vec<InternalName>, CaseFault> {
    let mut names = Vec::new(alloc);
    for i in 0..count {
        names.push(unqualified_name(alloc, i)?)?;
    }
    Ok(names)
}

fn unqualified_name(alloc: Global, number: usize) -> Result<InternalName, CaseFault> {
    let text = format!(in alloc; "Type{number}")?;
    Ok(InternalName::from_normalized_str(alloc, &text)?)
}

fn qualify(
    alloc: Global,
    names: &[InternalName],
    namespace: &InternalName,
) -> Result<Vec<InternalName>, AllocError> {
    let mut qualified = Vec::new(alloc);
    for name in names {
        qualified.push(name.qualify_with(alloc, Some(namespace))?)?;
    }
    Ok(qualified)
}
