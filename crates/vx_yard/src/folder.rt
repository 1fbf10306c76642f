// The folder of a run whose disks are kept in files.
ghost use Rattle.std.specs.Prelude.{◌≡◌, IfOk, is_some};

use std::alloc::Global;
use vx_model::OutOfMemory;

/// The folder of the files, if there is one.
pub fn folder(dir: &Option<String>) -> Option<&str>
    ensures { is_some result ≡ is_some dir.now }
{
    match dir {
        Some(dir) => Some(dir.as_str()),
        None => None,
    }
}

/// A copy of the path of a folder, if there is one.
pub fn copied(alloc: Global, dir: Option<&str>) -> Result<Option<String>, OutOfMemory>
    ensures { IfOk result (λ path. is_some path ≡ is_some dir.entry) }
{
    match dir {
        Some(dir) => Ok(Some(String::from_str(alloc, dir)?)),
        None => Ok(None),
    }
}
