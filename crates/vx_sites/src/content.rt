// Writes, and what volumes hold.
ghost use Rattle.std.specs.Prelude.{◌≡◌, ◌≤◌, ◌<◌, ◌%◌, length, IfOk, OnOk};
ghost use Rattle.vx_model.specs.Content.{Content as PlainContent, zeros, put, fold_writes};
ghost use Rattle.vx_history.specs.World.{no_volumes};
ghost use Rattle.vx_sites.specs.Shapes.{sizes, content_of};

use std::alloc::Global;
use std::marker::Model;
use vx_model::limits::{BLOCK, MOST_CALL_BYTES};
use vx_model::{Blocks, OutOfMemory};

/// One write: whole blocks of 512 bytes, from block `start` of a volume on.
#[derive(Clone, Copy)]
pub struct Write {
    volume: u32,
    start: u64,
    bytes: Blocks,
}

impl Model for Write {
    ghost use Rattle.vx_model.specs.Content.{Write as PlainWrite};

    ghost Value = { PlainWrite };

    ghost view = { λ w. record { volume = w.volume; start = w.start; bytes = w.bytes } };

    ghost inverse = { λ d. record { volume = d.volume; start = d.start; bytes = d.bytes } };
}

impl Write {
    /// The blocks, from block `start` of the volume on.
    pub fn new(volume: u32, start: u64, bytes: Blocks) -> Write
        ensures { result ≡ record { volume = volume; start = start; bytes = bytes } }
    {
        Write {
            volume,
            start,
            bytes,
        }
    }

    pub fn volume(&self) -> u32
        ensures { result ≡ self.now.volume }
    {
        self.volume
    }

    pub fn start(&self) -> u64
        ensures { result ≡ self.now.start }
    {
        self.start
    }

    /// Its bytes, which are 1 to 16 blocks.
    pub fn as_bytes(&self) -> &[u8]
        ensures bytes { result.now ≡ self.now.bytes }
        ensures some { 0 < length self.now.bytes }
        ensures few { length self.now.bytes ≤ MOST_CALL_BYTES }
        ensures whole { length self.now.bytes % BLOCK ≡ 0 }
    {
        self.bytes.as_bytes()
    }
}

/// What volumes hold: volumes of these many blocks each, of zeros at first, and the writes to them.
#[derive(Drop)]
pub struct Content {
    /// The blocks of each volume.
    pub sizes: Vec<u64>,
    pub writes: Vec<Write>,
}

impl Content {
    /// No volumes.
    pub fn none(alloc: Global) -> Content
        ensures { content_of result ≡ no_volumes }
    {
        Content {
            sizes: Vec::new(alloc),
            writes: Vec::new(alloc),
        }
    }

    /// Volumes of these many blocks each, of zeros.
    pub fn new(alloc: Global, blocks: &[u64]) -> Result<Content, OutOfMemory>
        ensures { IfOk result (λ c. content_of c ≡ zeros (sizes blocks.now)) }
    {
        let sizes = Vec::from_slice(alloc, blocks)?;
        Ok(Content {
            sizes,
            writes: Vec::new(alloc),
        })
    }

    /// A copy.
    pub fn copy(&self, alloc: Global) -> Result<Content, OutOfMemory>
        ensures { IfOk result (λ c. content_of c ≡ content_of self.now) }
    {
        let sizes = Vec::from_slice(alloc, &self.sizes)?;
        let writes = Vec::from_slice(alloc, &self.writes)?;
        Ok(Content { sizes, writes })
    }

    /// How many blocks the volume has.
    pub fn size(&self, volume: u32) -> u64
        ensures { result ≡ (content_of self.now).size volume }
    {
        size_in(&self.sizes, volume as usize)
    }

    /// Puts a write's blocks in place of those that it is over. One that does not end within its volume changes nothing.
    pub fn put(&mut self, write: Write) -> Result<(), OutOfMemory>
        ensures { OnOk result (content_of self.new ≡ put (content_of self.old) write) }
    {
        self.writes.push(write)?;
        Ok(())
    }

    /// Puts these writes, in their order.
    pub fn put_all(&mut self, writes: &[Write]) -> Result<(), OutOfMemory>
        ensures { OnOk result (content_of self.new ≡ fold_writes (content_of self.old) writes.now) }
    {
        self.writes.extend_from_slice(writes)?;
        Ok(())
    }

    /// The 512 bytes of a block of a volume.
    pub fn block(&self, volume: u32, block: u64) -> [u8; BLOCK]
        ensures is { result ≡ (content_of self.now).block volume block }
        ensures long { length result ≡ BLOCK }
    {
        let size = self.size(volume);
        let mut bytes = [0; BLOCK];
        for write in self.writes.iter() {
            put_block(write, size, volume, block, &mut bytes);
        }
        bytes
    }
}

// How many blocks the volume has, of volumes of these many blocks each.
fn size_in(blocks: &[u64], volume: usize) -> u64
    ensures { result ≡ sizes blocks.now volume }
{
    match blocks.get(volume) {
        Some(size) => *size,
        None => 0,
    }
}

// What a write makes of this block of a volume of so many blocks.
fn put_block(write: &Write, size: u64, volume: u32, block: u64, bytes: &mut [u8; BLOCK])
    ensures { (c : PlainContent) → c.size volume ≡ size → c.block volume block ≡ bytes.old → bytes.new ≡ (put c write.now).block volume block }
{
    let count = write.as_bytes().len() / BLOCK;
    let start = write.start();
    if volume != write.volume() || block < start || size < start || size - start < count as u64 {
        return;
    }
    let place = block - start;
    if place < count as u64 {
        let at = BLOCK * place as usize;
        bytes.copy_from_slice(&write.as_bytes()[at..at + BLOCK]);
    }
}
