// Ends that take and give a byte at a time, and tell contracts nothing of their bytes.
use vx_stream::{Failed, MemSink, MemSource, Sink, Source};

#[derive(Drop)]
pub struct ByteSource {
    pub inner: MemSource,
}

impl Source for ByteSource {
    ghost use Rattle.std.specs.Prelude.{None};

    ghost left = { λ _. None };

    ghost faults = { λ s. s.inner.faults };

    fn take(&mut self, into: &mut [u8]) -> Result<usize, Failed> {
        self.inner.take(&mut into[..1])
    }

    fn faults(&self) -> u64 {
        self.inner.faults()
    }
}

#[derive(Drop)]
pub struct ByteSink {
    pub inner: MemSink,
}

impl Sink for ByteSink {
    ghost use Rattle.std.specs.Prelude.{None};

    ghost written = { λ _. None };

    ghost faults = { λ s. s.inner.faults };

    fn put(&mut self, bytes: &[u8]) -> Result<usize, Failed> {
        self.inner.put(&bytes[..1])
    }

    fn faults(&self) -> u64 {
        self.inner.faults()
    }
}
