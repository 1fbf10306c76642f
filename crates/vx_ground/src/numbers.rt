// Disks that failed calls name: their numbers have 32 bits.
ghost use Rattle.std.specs.Prelude.{◌<◌, ◌^◌};
ghost use Rattle.vx_ground.specs.Accounts.{FewDisk, FewError};
ghost use Rattle.vx_ground.specs.Named.{FewNo, FewStop, FewWhy};

use vx_disk::ShelfError;
use vx_model::{No, Stop};

// A number of 32 bits.
fn few(disk: u32)
    ensures { disk < 2 ^ 32 }
{}

// That of a call on a shelf.
fn few_error(error: &ShelfError)
    ensures { FewError error.now }
{
    match error {
        ShelfError::Fault { disk } => few(*disk),
        ShelfError::Down => {}
    }
}

/// The same of its answer.
pub(crate) fn few_disk(answer: &Result<(), ShelfError>)
    ensures { FewDisk answer.now }
{
    match answer {
        Ok(()) => {}
        Err(error) => few_error(error),
    }
}

// That of a refusal.
fn few_no(no: &No)
    ensures { FewNo no.now }
{
    match no {
        No::Device { disk } => few(*disk),
        _ => {}
    }
}

// That of a call that may want memory too.
fn few_why(stop: &Stop)
    ensures { FewWhy stop.now }
{
    match stop {
        Stop::No(no) => few_no(no),
        Stop::OutOfMemory => {}
    }
}

/// The same of its answer.
pub(crate) fn few_stop(answer: &Result<(), Stop>)
    ensures { FewStop answer.now }
{
    match answer {
        Ok(()) => {}
        Err(stop) => few_why(stop),
    }
}
