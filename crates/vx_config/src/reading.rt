// The parts of a configuration, read from the left.
ghost use Rattle.std.specs.Prelude.{◌≤◌};
ghost use Rattle.vx_config.specs.Forms.{Gives, read_many, counted, where_flag, optional, number};
ghost use Rattle.vx_config.specs.Table.{disk as disk_form, subdisk as subdisk_form, log as log_form, plex as plex_form, preferred as preferred_form, volume as volume_form, units as units_form, format_1, config as config_form};

use crate::cursor::Cursor;
use crate::{
    Config, DiskEntry, Disks, LogEntry, PlexEntry, Plexes, Subdisk, Subdisks, VolumeEntry, Volumes,
    Wrong,
};
use std::alloc::Global;
use vx_model::limits::{MOST_DATA_VOLUMES, MOST_DISKS, MOST_NUMBER, MOST_VOLUMES};
use vx_model::{Units, VolumeUnits};

#[tactic(auto, unfolding(crate::specs::Table::disk))]
fn disk(cursor: &mut Cursor) -> Result<DiskEntry, Wrong>
    ensures { Gives result cursor.new.left.now (disk_form.read cursor.old.left.now) }
{
    let blocks = cursor.u64()?;
    let failed = cursor.flag()?;
    Ok(DiskEntry { blocks, failed })
}

// So many disks.
fn disks_of(cursor: &mut Cursor, count: u8) -> Result<Disks, Wrong>
    requires { count ≤ MOST_DISKS }
    ensures { Gives result cursor.new.left.now (read_many disk_form count cursor.old.left.now) }
{
    let mut disks = Disks::new();
    for _ in 0..count {
        disks.push(disk(cursor)?);
    }
    Ok(disks)
}

fn disks(cursor: &mut Cursor) -> Result<Disks, Wrong>
    ensures { Gives result cursor.new.left.now ((counted 1 MOST_DISKS disk_form).read cursor.old.left.now) }
{
    let count = cursor.count(1, MOST_DISKS as u8)?;
    disks_of(cursor, count)
}

#[tactic(auto, unfolding(crate::specs::Table::subdisk))]
fn subdisk(cursor: &mut Cursor) -> Result<Subdisk, Wrong>
    ensures { Gives result cursor.new.left.now (subdisk_form.read cursor.old.left.now) }
{
    let disk = cursor.u8()?;
    let start = cursor.u64()?;
    let blocks = cursor.u64()?;
    Ok(Subdisk {
        disk,
        start,
        blocks,
    })
}

// So many subdisks.
fn subdisks_of(alloc: Global, cursor: &mut Cursor, count: u8) -> Result<Subdisks, Wrong>
    requires { count ≤ 255 }
    ensures { Gives result cursor.new.left.now (read_many subdisk_form count cursor.old.left.now) }
{
    let mut subdisks = Subdisks::new(alloc);
    for _ in 0..count {
        subdisks.push(subdisk(cursor)?)?;
    }
    Ok(subdisks)
}

fn subdisks(alloc: Global, cursor: &mut Cursor) -> Result<Subdisks, Wrong>
    ensures { Gives result cursor.new.left.now ((counted 0 255 subdisk_form).read cursor.old.left.now) }
{
    let count = cursor.count(0, 255)?;
    subdisks_of(alloc, cursor, count)
}

#[tactic(auto, unfolding(crate::specs::Table::plex))]
fn plex(alloc: Global, cursor: &mut Cursor) -> Result<PlexEntry, Wrong>
    ensures { Gives result cursor.new.left.now (plex_form.read cursor.old.left.now) }
{
    let state = cursor.state()?;
    let whole = cursor.flag()?;
    let subdisks = subdisks(alloc, cursor)?;
    Ok(PlexEntry {
        state,
        whole,
        subdisks,
    })
}

// So many plexes.
fn plexes_of(alloc: Global, cursor: &mut Cursor, count: u8) -> Result<Plexes, Wrong>
    requires { count ≤ 255 }
    ensures { Gives result cursor.new.left.now (read_many plex_form count cursor.old.left.now) }
{
    let mut plexes = Plexes::new(alloc);
    for _ in 0..count {
        plexes.push(plex(alloc, cursor)?)?;
    }
    Ok(plexes)
}

fn plexes(alloc: Global, cursor: &mut Cursor) -> Result<Plexes, Wrong>
    ensures { Gives result cursor.new.left.now ((counted 0 255 plex_form).read cursor.old.left.now) }
{
    let count = cursor.count(0, 255)?;
    plexes_of(alloc, cursor, count)
}

#[tactic(auto, unfolding(crate::specs::Table::log))]
fn log(cursor: &mut Cursor) -> Result<LogEntry, Wrong>
    ensures { Gives result cursor.new.left.now (log_form.read cursor.old.left.now) }
{
    let lost = cursor.flag()?;
    let disk = cursor.u8()?;
    let start = cursor.u64()?;
    let blocks = cursor.u64()?;
    Ok(LogEntry {
        lost,
        disk,
        start,
        blocks,
    })
}

// A log, whose flag has to be this one.
fn log_where(cursor: &mut Cursor, wanted: bool) -> Result<Option<LogEntry>, Wrong>
    ensures { Gives result cursor.new.left.now ((where_flag log_form wanted).read cursor.old.left.now) }
{
    let left = cursor.left.len();
    let found = cursor.flag()?;
    if found != wanted {
        return Err(Wrong::Left(left));
    }
    if found {
        Ok(Some(log(cursor)?))
    } else {
        Ok(None)
    }
}

// The preferred plex, 0 where the policy is round.
fn preferred(cursor: &mut Cursor, policy: bool) -> Result<Option<u8>, Wrong>
    ensures { Gives result cursor.new.left.now ((preferred_form policy).read cursor.old.left.now) }
{
    if policy {
        Ok(Some(cursor.count(0, 255)?))
    } else {
        cursor.count(0, 0)?;
        Ok(None)
    }
}

#[tactic(auto, unfolding(crate::specs::Table::volume, crate::specs::Table::ways))]
fn volume(alloc: Global, cursor: &mut Cursor) -> Result<VolumeEntry, Wrong>
    ensures { Gives result cursor.new.left.now (volume_form.read cursor.old.left.now) }
{
    let name = cursor.name()?;
    let blocks = cursor.u64()?;
    let ncol = cursor.u8()?;
    let width = cursor.u32()?;
    let has_drl = cursor.flag()?;
    let has_fmr = cursor.flag()?;
    let policy = cursor.flag()?;
    let prefer = preferred(cursor, policy)?;
    let drl = log_where(cursor, has_drl)?;
    let fmr = log_where(cursor, has_fmr)?;
    let plexes = plexes(alloc, cursor)?;
    Ok(VolumeEntry {
        name,
        blocks,
        ncol,
        width,
        prefer,
        drl,
        fmr,
        plexes,
    })
}

// So many volumes.
fn volumes_of(alloc: Global, cursor: &mut Cursor, count: u8) -> Result<Volumes, Wrong>
    requires { count ≤ MOST_VOLUMES }
    ensures { Gives result cursor.new.left.now (read_many volume_form count cursor.old.left.now) }
{
    let mut volumes = Volumes::new(alloc);
    for _ in 0..count {
        volumes.push(volume(alloc, cursor)?)?;
    }
    Ok(volumes)
}

fn volumes(alloc: Global, cursor: &mut Cursor) -> Result<Volumes, Wrong>
    ensures { Gives result cursor.new.left.now ((counted 0 MOST_VOLUMES volume_form).read cursor.old.left.now) }
{
    let count = cursor.count(0, MOST_VOLUMES as u8)?;
    volumes_of(alloc, cursor, count)
}

// So many numbers of volumes.
fn numbers_of(cursor: &mut Cursor, count: u8) -> Result<VolumeUnits, Wrong>
    requires { count ≤ MOST_DATA_VOLUMES }
    ensures { Gives result cursor.new.left.now (read_many (number 1) count cursor.old.left.now) }
{
    let mut numbers = VolumeUnits::new();
    for _ in 0..count {
        numbers.push(u32::from(cursor.u8()?));
    }
    Ok(numbers)
}

fn numbers(cursor: &mut Cursor) -> Result<VolumeUnits, Wrong>
    ensures { Gives result cursor.new.left.now ((counted 0 MOST_DATA_VOLUMES (number 1)).read cursor.old.left.now) }
{
    let count = cursor.count(0, MOST_DATA_VOLUMES as u8)?;
    numbers_of(cursor, count)
}

#[tactic(auto, unfolding(crate::specs::Table::units))]
fn units(cursor: &mut Cursor) -> Result<Units, Wrong>
    ensures { Gives result cursor.new.left.now (units_form.read cursor.old.left.now) }
{
    let srl = u32::from(cursor.u8()?);
    let maps = u32::from(cursor.u8()?);
    let vols = numbers(cursor)?;
    Ok(Units { srl, maps, vols })
}

fn group(cursor: &mut Cursor) -> Result<Option<Units>, Wrong>
    ensures { Gives result cursor.new.left.now ((optional units_form).read cursor.old.left.now) }
{
    if cursor.flag()? {
        Ok(Some(units(cursor)?))
    } else {
        Ok(None)
    }
}

#[tactic(auto, unfolding(crate::specs::Table::format_1))]
fn read_format_1(alloc: Global, cursor: &mut Cursor) -> Result<Config, Wrong>
    ensures { Gives result cursor.new.left.now (format_1.read cursor.old.left.now) }
{
    let serial = cursor.up_to(MOST_NUMBER)?;
    let site = cursor.u32()?;
    let disks = disks(cursor)?;
    let volumes = volumes(alloc, cursor)?;
    let rvg = group(cursor)?;
    Ok(Config {
        serial,
        site,
        disks,
        volumes,
        rvg,
    })
}

/// The configuration at the front, of the format that its version names.
#[tactic(auto, unfolding(crate::specs::Table::config))]
pub fn read_config(alloc: Global, cursor: &mut Cursor) -> Result<Config, Wrong>
    ensures { Gives result cursor.new.left.now (config_form.read cursor.old.left.now) }
{
    let left = cursor.left.len();
    match cursor.u32()? {
        1 => read_format_1(alloc, cursor),
        _ => Err(Wrong::Left(left)),
    }
}
