// A run of a script, and what came of it.
use crate::racks::memory_racks;
use std::alloc::Global;
use std::sync::Wait;
use std::thread::Threads;
use vx_cli::{OpenGate, Status, vx_main};
use vx_model::OutOfMemory;
use vx_stream::{MemSink, MemSource, Sink, Source};

/// The replies, and how the run ended.
#[derive(Drop)]
pub struct Answer {
    pub text: Vec<u8>,
    pub status: Status,
}

impl Answer {
    pub fn is(&self, status: Status, text: &str) -> bool {
        self.status == status && self.text.as_slice() == text.as_bytes()
    }
}

/// Runs over these ends, with disks in memory whose calls of these numbers fail.
pub fn run_over<H: Threads + Wait + Sync, I: Source, O: Sink>(
    handle: &H,
    alloc: Global,
    word: &str,
    fails: &[u64],
    source: &mut I,
    sink: &mut O,
) -> Result<Status, OutOfMemory> {
    let mut words = Vec::new(alloc);
    words.push(String::from_str(alloc, word)?)?;
    let mut racks = memory_racks(alloc, fails)?;
    Ok(vx_main(handle, alloc, &words, source, sink, &mut racks, &OpenGate))
}

/// The answer to a script, where the device calls of these numbers fail.
pub fn answers_with<H: Threads + Wait + Sync>(
    handle: &H,
    alloc: Global,
    fails: &[u64],
    script: &[u8],
) -> Result<Answer, OutOfMemory> {
    let mut source = MemSource::new(alloc, script, &[])?;
    let mut sink = MemSink::new(alloc, 4096, &[])?;
    let status = run_over(handle, alloc, "run", fails, &mut source, &mut sink)?;
    let text = sink.written().to_vec(alloc)?;
    Ok(Answer { text, status })
}

/// The answer to a script.
pub fn answers<H: Threads + Wait + Sync>(
    handle: &H,
    alloc: Global,
    script: &[u8],
) -> Result<Answer, OutOfMemory> {
    answers_with(handle, alloc, &[], script)
}
