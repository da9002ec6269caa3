//! A hasher that keeps the first byte which it is fed, and the number of bytes.
ghost use Rattle.std.specs.Prelude.{◌≡◌};
ghost use Rattle.calls_exprs.specs.Recording.{recorded};

use std::hash::Hasher;

/// What it was fed.
#[derive(Drop)]
pub struct Recorder {
    /// The first byte.
    pub first: Option<u8>,
    /// The number of bytes.
    pub count: u64,
}

impl Recorder {
    /// Nothing yet.
    pub fn new() -> Recorder {
        Recorder {
            first: None,
            count: 0,
        }
    }
}

impl Hasher for Recorder {
    ghost write = { recorded };

    ghost finish = { λ s. s.count };

    fn finish(&self) -> u64 {
        self.count
    }

    fn write(&mut self, bytes: &[u8]) {
        if self.first.is_none() {
            self.first = bytes.first().copied();
        }
        self.count = self.count.wrapping_add(bytes.len() as u64);
    }
}
