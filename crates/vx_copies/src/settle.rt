// The answer to what was found on the disks.
ghost use Rattle.std.specs.Prelude.{◌≡◌, ◌≤◌, length};
ghost use Rattle.vx_copyfmt.specs.Imports.{by_labels, by_newest, missing, settle};
ghost use Rattle.vx_copies.specs.Answers.{answer_to, flag_at, good_set, returned, returned_from};
ghost use Rattle.vx_copies.specs.Bodies.{failed_in};
ghost use Rattle.vx_copies.specs.Searching.{FitsBest, best_view};

use crate::BodySeen;
use crate::search::Search;
use vx_config::{Config, DiskEntry, Disks};
use vx_model::No;
use vx_model::limits::DISK_PLACES;

// The lowest disk that is held as good and could not be read.
fn lowest_missing(config: &Config, readable: &[bool; DISK_PLACES]) -> Option<u32>
    ensures { result ≡ missing (failed_in config.now) (flag_at readable.now) (length config.now.disks) }
{
    let disks = config.disks.as_slice();
    for k in 0..disks.len() {
        let disk = disks[k];
        if !disk.failed && !readable[k] {
            return Some(k as u32);
        }
    }
    None
}

/// The set of the disks that are held as good, from the last one on.
pub fn good_of(disks: &Disks) -> u8
    ensures { result ≡ good_set disks.now }
{
    let disks = disks.as_slice();
    let mut good = 0;
    for k in 0..disks.len() {
        let disk = disks[disks.len() - 1 - k];
        good = 2 * good + if disk.failed { 0 } else { 1 };
    }
    good
}

// The disks, of which those that could be read are held as good again.
fn returned_disks(disks: &Disks, readable: &[bool; DISK_PLACES]) -> Disks
    ensures { result ≡ returned_from (flag_at readable.now) 0 disks.now }
{
    let old = disks.as_slice();
    let mut disks = Disks::new();
    for k in 0..old.len() {
        let disk = old[k];
        disks.push(DiskEntry {
            blocks: disk.blocks,
            failed: disk.failed && !readable[k],
        });
    }
    disks
}

// A configuration with its returned disks held as good again, and the disks that it held as good.
fn settled(config: Config, readable: &[bool; DISK_PLACES]) -> Result<(Config, u8), No>
    ensures { result ≡ answer_to (flag_at readable.now) (settle failed_in (length config.disks) (flag_at readable.now) config) }
{
    match lowest_missing(&config, readable) {
        Some(disk) => Err(No::Missing { disk }),
        None => {
            let good = good_of(&config.disks);
            let disks = returned_disks(&config.disks, readable);
            let config = Config {
                serial: config.serial,
                site: config.site,
                disks,
                volumes: config.volumes,
                rvg: config.rvg,
            };
            Ok((config, good))
        }
    }
}

// The answer.
pub fn concluded(search: Search, units: u32) -> Result<(Config, u8), No>
    requires fits { FitsBest units search.best }
    ensures { result ≡ answer_to (flag_at search.readable) (by_labels search.format (by_newest failed_in units (flag_at search.readable) (best_view search.best))) }
{
    let readable = search.readable;
    if let Some(version) = search.format {
        return Err(No::Format { version });
    }
    match search.best {
        None => Err(No::NoConfig),
        Some(best) => {
            let (unit, block) = (best.disk, best.copy.area as u64 + 1);
            match best.copy.body {
                BodySeen::Holds(config) => settled(config, &readable),
                BodySeen::Differs { stored, computed } => Err(No::Damaged {
                    unit,
                    block,
                    stored,
                    computed,
                }),
            }
        }
    }
}
