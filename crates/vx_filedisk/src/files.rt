// The files of the disks.
ghost use Rattle.std.specs.Prelude.{◌≡◌, ◌<◌, ◌≤◌, length};
ghost use Rattle.vx_filedisk.specs.Following.{FollowsFiles, Told};
ghost use Rattle.vx_model.specs.declared.limits.TheConstants.{MOST_FILE_BLOCKS};

use std::fs::File;
use std::io;
use std::os::unix::fs::FileExt;
use vx_disk::ShelfError;
use vx_model::limits::BLOCK;

/// One open file a disk, each of so many blocks.
#[derive(Drop)]
pub struct DiskFiles {
    pub files: Vec<File>,
    pub blocks: u64,
    pub ghost bounded: { blocks ≤ MOST_FILE_BLOCKS },
}

impl DiskFiles {
    /// Reads whole blocks, where the call may pass.
    pub fn read(
        &self,
        passed: Result<(), ShelfError>,
        unit: u32,
        block: u64,
        into: &mut [u8],
    ) -> Result<(), ShelfError>
        requires unit { unit < length self.now.files.items }
        requires block { block ≤ self.now.blocks }
        ensures { FollowsFiles unit passed result }
    {
        passed?;
        told(
            unit,
            self.files[unit as usize].read_exact_at(into, BLOCK as u64 * block),
        )
    }

    /// Writes whole blocks, where the call may pass.
    pub fn write(
        &self,
        passed: Result<(), ShelfError>,
        unit: u32,
        block: u64,
        bytes: &[u8],
    ) -> Result<(), ShelfError>
        requires unit { unit < length self.now.files.items }
        requires block { block ≤ self.now.blocks }
        ensures { FollowsFiles unit passed result }
    {
        passed?;
        told(
            unit,
            self.files[unit as usize].write_all_at(bytes, BLOCK as u64 * block),
        )
    }

    /// Brings to the device what was written, where the call may pass.
    pub fn flush(&self, passed: Result<(), ShelfError>, unit: u32) -> Result<(), ShelfError>
        requires { unit < length self.now.files.items }
        ensures { FollowsFiles unit passed result }
    {
        passed?;
        told(unit, self.files[unit as usize].sync_data())
    }
}

// What the file system answered, as a disk's answer.
fn told(unit: u32, answer: io::Result<()>) -> Result<(), ShelfError>
    ensures { Told unit answer result }
{
    match answer {
        Ok(()) => Ok(()),
        Err(_) => Err(ShelfError::Fault { disk: unit }),
    }
}
