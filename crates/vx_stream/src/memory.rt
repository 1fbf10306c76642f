// The ends in memory, whose failures are chosen.
ghost use Rattle.std.specs.Prelude.{◌≡◌, ◌≤◌, ◌<◌, ◌↔◌, ◌⊎◌, [], IfOk, IsErr, OnOk, length, vec_len, min, Contains};
ghost use Rattle.std.specs.Io.{ReadsAtMost};
ghost use Rattle.std.specs.Io.KnownBytes.{ReadConsumes, WriteAppends};
ghost use Rattle.vx_stream.specs.Causes.{HasCause};

use crate::{Failed, Sink, Source};
use std::alloc::Global;
use std::marker::Model;
use vx_model::OutOfMemory;

/// A source over bytes in memory. Its calls of `take` are numbered from 1, and exactly those named in `fails` fail.
#[derive(Drop)]
pub struct MemSource {
    bytes: Vec<u8>,
    next: usize,
    calls: u64,
    fails: Vec<u64>,
    faults: u64,
}

impl Model for MemSource {
    ghost use Rattle.std.specs.Prelude.{◌≤◌, vec_len, drop};
    ghost use Rattle.vx_stream.specs.Memory.{SourceView};

    ghost Value = { SourceView };

    ghost view = { λ s. record { left = drop s.next s.bytes.items; calls = s.calls; fails = s.fails.items; faults = s.faults } };

    ghost invariant = { λ s. s.next ≤ vec_len s.bytes };
}

impl MemSource {
    /// A source of these bytes.
    pub fn new(alloc: Global, bytes: &[u8], fails: &[u64]) -> Result<MemSource, OutOfMemory>
        ensures { IfOk result (λ s. s ≡ record { left = bytes.now; calls = 0; fails = fails.now; faults = 0 }) }
    {
        let mut held = Vec::new(alloc);
        held.extend_from_slice(bytes)?;
        let mut named = Vec::new(alloc);
        named.extend_from_slice(fails)?;
        Ok(MemSource {
            bytes: held,
            next: 0,
            calls: 0,
            fails: named,
            faults: 0,
        })
    }
}

impl Source for MemSource {
    ghost use Rattle.std.specs.Prelude.{Some};
    ghost use Rattle.vx_stream.specs.Memory.{next_count};

    ghost left = { λ s. Some s.left };

    ghost faults = { λ s. s.faults };

    fn take(&mut self, into: &mut [u8]) -> Result<usize, Failed>
        requires { 0 < length into.old }
        ensures bound { ReadsAtMost result into.new }
        ensures bytes { ReadConsumes (Some self.old.left) (Some self.new.left) result into.new }
        ensures cause { HasCause self.old.faults self.new.faults result }
        ensures most { IfOk result (λ n. n ≡ min (length self.old.left) (length into.old)) }
        ensures named { IsErr result ↔ Contains self.old.fails (next_count self.old.calls) }
        ensures well { OnOk result (self.new.faults ≡ self.old.faults) }
        ensures counted { self.new.calls ≡ next_count self.old.calls }
        ensures fails { self.new.fails ≡ self.old.fails }
    {
        self.calls = self.calls.saturating_add(1);
        if self.fails.contains(&self.calls) {
            self.faults = self.faults.saturating_add(1);
            return Err(Failed);
        }
        let left = self.bytes.len() - self.next;
        let count = left.min(into.len());
        into[..count].copy_from_slice(&self.bytes[self.next..self.next + count]);
        self.next += count;
        Ok(count)
    }

    fn faults(&self) -> u64 {
        self.faults
    }
}

/// A sink in memory with room for so many bytes, which it takes when it is made. Its calls of `put` are numbered
/// from 1. Those named in `fails` fail, and those that find no room left.
#[derive(Drop)]
pub struct MemSink {
    bytes: Vec<u8>,
    len: usize,
    calls: u64,
    fails: Vec<u64>,
    faults: u64,
}

impl Model for MemSink {
    ghost use Rattle.std.specs.Prelude.{◌≤◌, vec_len, take};
    ghost use Rattle.vx_stream.specs.Memory.{SinkView};

    ghost Value = { SinkView };

    ghost view = { λ s. record { written = take s.len s.bytes.items; room = vec_len s.bytes; calls = s.calls; fails = s.fails.items; faults = s.faults } };

    ghost invariant = { λ s. s.len ≤ vec_len s.bytes };
}

impl MemSink {
    /// An empty sink with room for so many bytes.
    pub fn new(alloc: Global, room: usize, fails: &[u64]) -> Result<MemSink, OutOfMemory>
        ensures { IfOk result (λ s. s ≡ record { written = []; room = room; calls = 0; fails = fails.now; faults = 0 }) }
    {
        let bytes = vec![in alloc; 0; room]?;
        let mut named = Vec::new(alloc);
        named.extend_from_slice(fails)?;
        Ok(MemSink {
            bytes,
            len: 0,
            calls: 0,
            fails: named,
            faults: 0,
        })
    }

    /// The bytes that were put.
    pub fn written(&self) -> &[u8]
        ensures { result.now ≡ self.now.written }
    {
        &self.bytes[..self.len]
    }
}

impl Sink for MemSink {
    ghost use Rattle.std.specs.Prelude.{Some};
    ghost use Rattle.vx_stream.specs.Memory.{next_count, free};

    ghost written = { λ s. Some s.written };

    ghost faults = { λ s. s.faults };

    fn put(&mut self, bytes: &[u8]) -> Result<usize, Failed>
        requires { 0 < length bytes.now }
        ensures bound { IfOk result (λ n. (0 < n) × (n ≤ length bytes.now)) }
        ensures bytes { WriteAppends (Some self.old.written) (Some self.new.written) result bytes.now }
        ensures cause { HasCause self.old.faults self.new.faults result }
        ensures most { IfOk result (λ n. n ≡ min (free self.old) (length bytes.now)) }
        ensures named { IsErr result ↔ (Contains self.old.fails (next_count self.old.calls) ⊎ (free self.old ≡ 0)) }
        ensures well { OnOk result (self.new.faults ≡ self.old.faults) }
        ensures counted { self.new.calls ≡ next_count self.old.calls }
        ensures fails { self.new.fails ≡ self.old.fails }
        ensures room { self.new.room ≡ self.old.room }
    {
        self.calls = self.calls.saturating_add(1);
        let left = self.bytes.len() - self.len;
        if left == 0 || self.fails.contains(&self.calls) {
            self.faults = self.faults.saturating_add(1);
            return Err(Failed);
        }
        let count = left.min(bytes.len());
        self.bytes[self.len..self.len + count].copy_from_slice(&bytes[..count]);
        self.len += count;
        Ok(count)
    }

    fn faults(&self) -> u64 {
        self.faults
    }
}
