// The bodies of copies.
ghost use Rattle.std.specs.Prelude.{◌≡◌, ◌≤◌, length, IfOk, IsTrue};
ghost use Rattle.vx_copies.specs.Bodies.{HasFewDisks, fits_units, is_wanted, reads_in};
ghost use Rattle.vx_model.specs.declared.limits.TheConstants.{MOST_DISKS};

use std::alloc::Global;
use vx_config::{Config, ConfigStop, check, decode};
use vx_disk::Shelf;
use vx_model::OutOfMemory;

// Whether a configuration has as many disks as there are units, each with its unit's blocks.
fn fits_units<S: Shelf>(shelf: &S, config: &Config) -> bool
    ensures fits { result ≡ fits_units (S.meaning shelf.now).units (S.meaning shelf.now).size config.now }
    ensures few { length config.now.disks ≤ MOST_DISKS }
{
    let disks = config.disks.as_slice();
    if disks.len() != shelf.units() as usize {
        return false;
    }
    for k in 0..disks.len() {
        if disks[k].blocks != shelf.size(k as u32) {
            return false;
        }
    }
    true
}

// Whether a configuration is sound, and is one of these units.
pub fn is_wanted<S: Shelf>(shelf: &S, config: &Config) -> bool
    ensures wanted { result ≡ is_wanted (S.meaning shelf.now).units (S.meaning shelf.now).size config.now }
    ensures few { IsTrue result → length config.now.disks ≤ MOST_DISKS }
{
    check(config) && fits_units(shelf, config)
}

// The configuration that a body is, if it is one of these units.
pub fn read_body<S: Shelf>(
    alloc: Global,
    shelf: &S,
    body: &[u8],
) -> Result<Option<Config>, OutOfMemory>
    ensures found { IfOk result (λ found. found ≡ reads_in (S.meaning shelf.now).units (S.meaning shelf.now).size body.now) }
    ensures few { IfOk result HasFewDisks }
{
    match decode(alloc, body) {
        Ok((config, length)) => {
            if length == body.len() && is_wanted(shelf, &config) {
                Ok(Some(config))
            } else {
                Ok(None)
            }
        }
        Err(ConfigStop::BadConfig { .. }) => Ok(None),
        Err(ConfigStop::OutOfMemory) => Err(OutOfMemory),
    }
}
