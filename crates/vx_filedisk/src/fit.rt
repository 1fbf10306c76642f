// How the files of the disks are made or found.
ghost use Rattle.std.specs.Prelude.{◌≡◌, ◌≤◌, IfOk, IfErr, length};
ghost use Rattle.vx_filedisk.specs.Opening.{Unopened};
ghost use Rattle.vx_filedisk.specs.declared.fit.OpenError.TheVariants.{OutOfMemory as MemoryOut};

use std::alloc::{AllocError, AllocFailed, Global};
use std::fs::File;
use std::io;
use vx_model::limits::{BLOCK, MOST_FILE_BLOCKS};

/// Why the files were not opened.
#[derive(Clone, Copy, Debug, PartialEq, Eq, Drop)]
pub enum OpenError {
    OutOfMemory,
    /// The file system failed at this disk.
    Disk { disk: u32 },
}

impl From<AllocError> for OpenError {
    ghost from_gives = { λ _ e. e ≡ MemoryOut };

    fn from(_e: AllocError) -> OpenError {
        OpenError::OutOfMemory
    }
}

impl<T: Drop> From<AllocFailed<T>> for OpenError {
    ghost from_gives = { λ _ e. e ≡ MemoryOut };

    fn from(_e: AllocFailed<T>) -> OpenError {
        OpenError::OutOfMemory
    }
}

/// Opens a file for each disk, `DIR/SITE-DISK.vxd`, of so many blocks. A file of that length is kept as it is, and any other is
/// made anew, all zeros.
pub fn open_disks(
    rt: &HostRuntime,
    alloc: Global,
    dir: &str,
    site: u32,
    disks: u32,
    blocks: u64,
) -> Result<Vec<File>, OpenError>
    requires { blocks ≤ MOST_FILE_BLOCKS }
    ensures opened { IfOk result (λ files. length files.items ≡ disks) }
    ensures unopened { IfErr result (Unopened disks) }
{
    let mut files = Vec::new(alloc);
    for disk in 0..disks {
        let path = format!(in alloc; "{dir}/{site}-{disk}.vxd")?;
        match open_disk(rt, path.as_str(), BLOCK as u64 * blocks) {
            Ok(file) => files.push(file)?,
            Err(_) => return Err(OpenError::Disk { disk }),
        }
    }
    Ok(files)
}

fn open_disk(rt: &HostRuntime, path: &str, length: u64) -> io::Result<File> {
    let file = File::options()
        .read(true)
        .write(true)
        .create(true)
        .open(rt, path)?;
    if file.metadata()?.len() != length {
        file.set_len(0)?;
        file.set_len(length)?;
        file.sync_all()?;
    }
    Ok(file)
}
