// The disks of a site in memory, or in the files of a folder.
ghost use Rattle.std.specs.Prelude.{◌≤◌};
ghost use Rattle.vx_disk.specs.Meanings.{shelf_meaning};
ghost use Rattle.vx_filedisk.specs.Hosts.{AsMany};
ghost use Rattle.vx_model.specs.declared.limits.TheConstants.{MOST_DISKS};

use crate::counts::Counts;
use crate::files::DiskFiles;
use std::alloc::Global;
use vx_disk::MemShelf;
use vx_model::OutOfMemory;

/// The disks of a site: in memory, or in files, of whose contents nothing is told.
///
/// Files are named `DIR/SITE-DISK.vxd`, with 512 bytes a block. Each error of the file system is a fault of its disk, and is
/// counted. A crash stops the disks, and the files keep whatever was written.
#[derive(Drop)]
pub struct HostRack {
    pub(crate) rt: HostRuntime,
    // Where the disks are files this has as many small ones, whose blocks are of no account. They keep the fuse, whether the
    // rack is down, and which disks are made to fail.
    pub(crate) memory: MemShelf,
    pub(crate) counts: Counts,
    pub(crate) files: Option<DiskFiles>,
    pub(crate) ghost few: { (shelf_meaning memory).units ≤ MOST_DISKS },
    pub(crate) ghost as_many: { AsMany files (shelf_meaning memory) },
}

impl HostRack {
    ghost use Rattle.std.specs.Prelude.{IfOk};
    ghost use Rattle.vx_disk.specs.Racks.{Bare};
    ghost use Rattle.vx_filedisk.specs.Meanings.{rack_meaning};

    /// One that is not fitted. `main` hands on its own `rt`, by which the files are opened.
    pub fn new(rt: HostRuntime, alloc: Global) -> Result<HostRack, OutOfMemory>
        ensures bare { IfOk result (λ h. Bare (rack_meaning h)) }
    {
        let memory = MemShelf::new(alloc, &[])?;
        Ok(HostRack {
            rt,
            memory,
            counts: Counts::new(),
            files: None,
        })
    }
}
