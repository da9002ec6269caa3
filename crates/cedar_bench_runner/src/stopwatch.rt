//! Reads the clock.
use crate::fault::NoClock;
use std::time::{Duration, Instant};

/// Times one call.
#[derive(Drop)]
pub struct Stopwatch<'r> {
    rt: &'r HostRuntime,
    // None if the clock can't be read.
    start: Option<Instant>,
}

impl<'r> Stopwatch<'r> {
    /// Starts now.
    pub fn start(rt: &'r HostRuntime) -> Stopwatch<'r> {
        Stopwatch {
            rt,
            start: Instant::now(rt).ok(),
        }
    }

    /// The time since the start. The answer of the call is dropped after the clock was read.
    pub fn stop<T, E, F>(self, answer: Result<T, E>) -> Result<Duration, F>
    where
        T: Drop,
        E: Drop,
        F: From<E> + From<NoClock>,
    {
        let time = self.time()?;
        drop(answer?);
        Ok(time)
    }

    fn time(&self) -> Result<Duration, NoClock> {
        let Some(start) = self.start else {
            return Err(NoClock);
        };
        match start.elapsed(self.rt) {
            Ok(time) => Ok(time),
            Err(_) => Err(NoClock),
        }
    }
}
