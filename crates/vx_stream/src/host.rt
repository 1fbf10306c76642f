// The ends that read and write the world outside.
ghost use Rattle.std.specs.Prelude.{◌≡◌};
ghost use Rattle.vx_stream.specs.Host.{new_source, new_sink};

use crate::{Failed, Sink, Source};
use std::io::{Read, Write};

/// A reader of std, with a count of its faults.
#[derive(Drop)]
pub struct HostSource<R> {
    inner: R,
    faults: u64,
}

impl<R: Read> HostSource<R> {
    /// A source over this reader, of which no call failed yet.
    pub fn new(inner: R) -> HostSource<R>
        ensures { result ≡ new_source inner }
    {
        HostSource { inner, faults: 0 }
    }
}

impl<R: Read> Source for HostSource<R> {
    ghost left = { λ s. R.remaining s.inner };

    ghost faults = { λ s. s.faults };

    fn take(&mut self, into: &mut [u8]) -> Result<usize, Failed> {
        match self.inner.read(into) {
            Ok(count) => Ok(count),
            Err(_) => {
                self.faults = self.faults.saturating_add(1);
                Err(Failed)
            }
        }
    }

    fn faults(&self) -> u64 {
        self.faults
    }
}

/// A writer of std, with a count of its faults. A write that takes nothing is one.
#[derive(Drop)]
pub struct HostSink<W> {
    inner: W,
    faults: u64,
}

impl<W: Write> HostSink<W> {
    /// A sink over this writer, of which no call failed yet.
    pub fn new(inner: W) -> HostSink<W>
        ensures { result ≡ new_sink inner }
    {
        HostSink { inner, faults: 0 }
    }
}

impl<W: Write> Sink for HostSink<W> {
    ghost written = { λ s. W.contents s.inner };

    ghost faults = { λ s. s.faults };

    fn put(&mut self, bytes: &[u8]) -> Result<usize, Failed> {
        match self.inner.write(bytes) {
            Ok(0) => {
                self.faults = self.faults.saturating_add(1);
                Err(Failed)
            }
            Ok(count) => Ok(count),
            Err(_) => {
                self.faults = self.faults.saturating_add(1);
                Err(Failed)
            }
        }
    }

    fn faults(&self) -> u64 {
        self.faults
    }
}
