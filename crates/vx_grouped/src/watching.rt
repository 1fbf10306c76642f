// Calls of a group over a rack that keeps an account of what is done to its disks.
ghost use Rattle.std.specs.Prelude.{◌≡◌, IsTrue, length};
ghost use Rattle.vx_disk.specs.Racks.{IsRack};
ghost use Rattle.vx_disk.specs.Shelf.{Fits};
ghost use Rattle.vx_group.specs.Holding.{wide};
ghost use Rattle.vx_group.specs.Stands.{inner_meaning};
ghost use Rattle.vx_grouped.specs.Ends.{plain_write};
ghost use Rattle.vx_grouped.specs.PlainMaps.{AttsMaps, DetsMaps, WritesMaps, map_parts};
ghost use Rattle.vx_grouped.specs.Watches.{PlainReads, PlainWrites, PlexAtts, PlexDets};
ghost use Rattle.vx_untold.specs.Shades.{rack_of, shade_meaning};
ghost use Rattle.vx_watched.specs.Since.{CalledSince};
ghost use Rattle.vx_watched.specs.Traces.{TellsLess};

use crate::Laid;
use crate::plain::{read_plain, write_plain};
use crate::plexes::{att_plex, det_plex};
use crate::tracing::{trace, untrace};
use std::marker::Brand;
use vx_disk::Rack;
use vx_loggroup::LoggedGroup;
use vx_model::{No, Stop};
use vx_untold::Shade;
use vx_watched::{Begun, Traced, Watched};

fn write_from<B: Begun, R: Rack>(
    group: LoggedGroup<R>,
    vol: u32,
    block: u64,
    bytes: &[u8],
) -> (LoggedGroup<R>, Result<(), No>)
    requires fits { Fits (inner_meaning (wide group.core) (R.meaning group.shelf)) vol block (length bytes.now) }
    requires since { CalledSince B.first (R.meaning group.shelf) }
    ensures works { PlainWrites vol block bytes.now group.core (R.meaning group.shelf) result.0.core (R.meaning result.0.shelf) result.1 }
    ensures maps { WritesMaps (plain_write vol block bytes.now) (map_parts group.core.inner.config group.logs.items group.alike group.stopped) (R.meaning group.shelf) (map_parts result.0.core.inner.config result.0.logs.items result.0.alike result.0.stopped) (R.meaning result.0.shelf) result.1 }
    ensures since { CalledSince B.first (R.meaning result.0.shelf) }
{
    let (rack, rest) = group.apart();
    let watched = Watched::<R, B>::over(rack);
    let mut group = LoggedGroup::together(watched, rest);
    let answer = write_plain(&mut group, vol, block, bytes);
    let (watched, rest) = group.apart();
    let rack = watched.into_shelf();
    (LoggedGroup::together(rack, rest), answer)
}

// The same over disks of which contents are told or not.
fn write_shaded<R: Rack>(
    group: LoggedGroup<Shade<R>>,
    vol: u32,
    block: u64,
    bytes: &[u8],
) -> (LoggedGroup<Shade<R>>, Result<(), No>)
    requires fits { Fits (inner_meaning (wide group.core) (shade_meaning (λ s. R.meaning s) group.shelf)) vol block (length bytes.now) }
    ensures works { PlainWrites vol block bytes.now group.core (shade_meaning (λ s. R.meaning s) group.shelf) result.0.core (shade_meaning (λ s. R.meaning s) result.0.shelf) result.1 }
    ensures maps { WritesMaps (plain_write vol block bytes.now) (map_parts group.core.inner.config group.logs.items group.alike group.stopped) (shade_meaning (λ s. R.meaning s) group.shelf) (map_parts result.0.core.inner.config result.0.logs.items result.0.alike result.0.stopped) (shade_meaning (λ s. R.meaning s) result.0.shelf) result.1 }
    ensures since { CalledSince (shade_meaning (λ s. R.meaning s) group.shelf) (shade_meaning (λ s. R.meaning s) result.0.shelf) }
{
    write_from::<Brand, Shade<R>>(group, vol, block, bytes)
}

// The same over the disks of a site, with an account of what the rack inside tells.
fn write_traced<C: Begun, R: Rack>(
    laid: Laid<R>,
    vol: u32,
    block: u64,
    bytes: &[u8],
) -> (Laid<R>, Result<(), No>)
    requires fits { Fits (inner_meaning (wide laid.core) (shade_meaning (λ s. R.meaning s) laid.shelf)) vol block (length bytes.now) }
    requires told { TellsLess C.first (R.meaning (rack_of laid.shelf)) }
    ensures works { PlainWrites vol block bytes.now laid.core (shade_meaning (λ s. R.meaning s) laid.shelf) result.0.core (shade_meaning (λ s. R.meaning s) result.0.shelf) result.1 }
    ensures maps { WritesMaps (plain_write vol block bytes.now) (map_parts laid.core.inner.config laid.logs.items laid.alike laid.stopped) (shade_meaning (λ s. R.meaning s) laid.shelf) (map_parts result.0.core.inner.config result.0.logs.items result.0.alike result.0.stopped) (shade_meaning (λ s. R.meaning s) result.0.shelf) result.1 }
    ensures since { CalledSince (shade_meaning (λ s. R.meaning s) laid.shelf) (shade_meaning (λ s. R.meaning s) result.0.shelf) }
    ensures told { TellsLess C.first (R.meaning (rack_of result.0.shelf)) }
{
    let (group, answer) = write_shaded::<Traced<R, C>>(trace::<C, R>(laid), vol, block, bytes);
    (untrace(group), answer)
}

/// Writes whole blocks to a volume, and makes them durable.
pub fn write_watched<R: Rack>(
    laid: Laid<R>,
    vol: u32,
    block: u64,
    bytes: &[u8],
) -> (Laid<R>, Result<(), No>)
    requires { Fits (inner_meaning (wide laid.core) (shade_meaning (λ s. R.meaning s) laid.shelf)) vol block (length bytes.now) }
    ensures works { PlainWrites vol block bytes.now laid.core (shade_meaning (λ s. R.meaning s) laid.shelf) result.0.core (shade_meaning (λ s. R.meaning s) result.0.shelf) result.1 }
    ensures maps { WritesMaps (plain_write vol block bytes.now) (map_parts laid.core.inner.config laid.logs.items laid.alike laid.stopped) (shade_meaning (λ s. R.meaning s) laid.shelf) (map_parts result.0.core.inner.config result.0.logs.items result.0.alike result.0.stopped) (shade_meaning (λ s. R.meaning s) result.0.shelf) result.1 }
    ensures since { CalledSince (shade_meaning (λ s. R.meaning s) laid.shelf) (shade_meaning (λ s. R.meaning s) result.0.shelf) }
    ensures told { TellsLess (R.meaning (rack_of laid.shelf)) (R.meaning (rack_of result.0.shelf)) }
{
    write_traced::<Brand, R>(laid, vol, block, bytes)
}

fn read_from<B: Begun, R: Rack>(
    group: LoggedGroup<R>,
    vol: u32,
    block: u64,
    into: &mut [u8],
) -> (LoggedGroup<R>, Result<(), No>)
    requires fits { Fits (inner_meaning (wide group.core) (R.meaning group.shelf)) vol block (length into.old) }
    requires since { CalledSince B.first (R.meaning group.shelf) }
    ensures works { PlainReads vol block into.new group.core (R.meaning group.shelf) result.0.core (R.meaning result.0.shelf) result.1 }
    ensures maps { map_parts result.0.core.inner.config result.0.logs.items result.0.alike result.0.stopped ≡ map_parts group.core.inner.config group.logs.items group.alike group.stopped }
    ensures since { CalledSince B.first (R.meaning result.0.shelf) }
{
    let (rack, rest) = group.apart();
    let watched = Watched::<R, B>::over(rack);
    let mut group = LoggedGroup::together(watched, rest);
    let answer = read_plain(&mut group, vol, block, into);
    let (watched, rest) = group.apart();
    let rack = watched.into_shelf();
    (LoggedGroup::together(rack, rest), answer)
}

// The same over disks of which contents are told or not.
fn read_shaded<R: Rack>(
    group: LoggedGroup<Shade<R>>,
    vol: u32,
    block: u64,
    into: &mut [u8],
) -> (LoggedGroup<Shade<R>>, Result<(), No>)
    requires fits { Fits (inner_meaning (wide group.core) (shade_meaning (λ s. R.meaning s) group.shelf)) vol block (length into.old) }
    ensures works { PlainReads vol block into.new group.core (shade_meaning (λ s. R.meaning s) group.shelf) result.0.core (shade_meaning (λ s. R.meaning s) result.0.shelf) result.1 }
    ensures maps { map_parts result.0.core.inner.config result.0.logs.items result.0.alike result.0.stopped ≡ map_parts group.core.inner.config group.logs.items group.alike group.stopped }
    ensures since { CalledSince (shade_meaning (λ s. R.meaning s) group.shelf) (shade_meaning (λ s. R.meaning s) result.0.shelf) }
{
    read_from::<Brand, Shade<R>>(group, vol, block, into)
}

// The same over the disks of a site, with an account of what the rack inside tells.
fn read_traced<C: Begun, R: Rack>(
    laid: Laid<R>,
    vol: u32,
    block: u64,
    into: &mut [u8],
) -> (Laid<R>, Result<(), No>)
    requires fits { Fits (inner_meaning (wide laid.core) (shade_meaning (λ s. R.meaning s) laid.shelf)) vol block (length into.old) }
    requires told { TellsLess C.first (R.meaning (rack_of laid.shelf)) }
    ensures works { PlainReads vol block into.new laid.core (shade_meaning (λ s. R.meaning s) laid.shelf) result.0.core (shade_meaning (λ s. R.meaning s) result.0.shelf) result.1 }
    ensures maps { map_parts result.0.core.inner.config result.0.logs.items result.0.alike result.0.stopped ≡ map_parts laid.core.inner.config laid.logs.items laid.alike laid.stopped }
    ensures since { CalledSince (shade_meaning (λ s. R.meaning s) laid.shelf) (shade_meaning (λ s. R.meaning s) result.0.shelf) }
    ensures told { TellsLess C.first (R.meaning (rack_of result.0.shelf)) }
{
    let (group, answer) = read_shaded::<Traced<R, C>>(trace::<C, R>(laid), vol, block, into);
    (untrace(group), answer)
}

/// Reads whole blocks of a volume.
pub fn read_watched<R: Rack>(
    laid: Laid<R>,
    vol: u32,
    block: u64,
    into: &mut [u8],
) -> (Laid<R>, Result<(), No>)
    requires { Fits (inner_meaning (wide laid.core) (shade_meaning (λ s. R.meaning s) laid.shelf)) vol block (length into.old) }
    ensures works { PlainReads vol block into.new laid.core (shade_meaning (λ s. R.meaning s) laid.shelf) result.0.core (shade_meaning (λ s. R.meaning s) result.0.shelf) result.1 }
    ensures maps { map_parts result.0.core.inner.config result.0.logs.items result.0.alike result.0.stopped ≡ map_parts laid.core.inner.config laid.logs.items laid.alike laid.stopped }
    ensures since { CalledSince (shade_meaning (λ s. R.meaning s) laid.shelf) (shade_meaning (λ s. R.meaning s) result.0.shelf) }
    ensures told { TellsLess (R.meaning (rack_of laid.shelf)) (R.meaning (rack_of result.0.shelf)) }
{
    read_traced::<Brand, R>(laid, vol, block, into)
}

fn det_from<B: Begun, R: Rack>(
    group: LoggedGroup<R>,
    vol: u32,
    plex: u32,
) -> (LoggedGroup<R>, Result<(), Stop>)
    requires up { IsTrue (R.meaning group.shelf).down → ⊥ }
    requires since { CalledSince B.first (R.meaning group.shelf) }
    ensures works { PlexDets vol plex group.core (R.meaning group.shelf) result.0.core (R.meaning result.0.shelf) result.1 }
    ensures maps { IsRack (R.meaning group.shelf) → IsRack (R.meaning result.0.shelf) → DetsMaps vol plex (map_parts group.core.inner.config group.logs.items group.alike group.stopped) (R.meaning group.shelf) (map_parts result.0.core.inner.config result.0.logs.items result.0.alike result.0.stopped) (R.meaning result.0.shelf) result.1 }
    ensures since { CalledSince B.first (R.meaning result.0.shelf) }
{
    let (rack, rest) = group.apart();
    let watched = Watched::<R, B>::over(rack);
    let mut group = LoggedGroup::together(watched, rest);
    let answer = det_plex(&mut group, vol, plex);
    let (watched, rest) = group.apart();
    let rack = watched.into_shelf();
    (LoggedGroup::together(rack, rest), answer)
}

// The same over disks of which contents are told or not.
fn det_shaded<R: Rack>(
    group: LoggedGroup<Shade<R>>,
    vol: u32,
    plex: u32,
) -> (LoggedGroup<Shade<R>>, Result<(), Stop>)
    requires up { IsTrue (shade_meaning (λ s. R.meaning s) group.shelf).down → ⊥ }
    ensures works { PlexDets vol plex group.core (shade_meaning (λ s. R.meaning s) group.shelf) result.0.core (shade_meaning (λ s. R.meaning s) result.0.shelf) result.1 }
    ensures maps { IsRack (shade_meaning (λ s. R.meaning s) group.shelf) → IsRack (shade_meaning (λ s. R.meaning s) result.0.shelf) → DetsMaps vol plex (map_parts group.core.inner.config group.logs.items group.alike group.stopped) (shade_meaning (λ s. R.meaning s) group.shelf) (map_parts result.0.core.inner.config result.0.logs.items result.0.alike result.0.stopped) (shade_meaning (λ s. R.meaning s) result.0.shelf) result.1 }
    ensures since { CalledSince (shade_meaning (λ s. R.meaning s) group.shelf) (shade_meaning (λ s. R.meaning s) result.0.shelf) }
{
    det_from::<Brand, Shade<R>>(group, vol, plex)
}

// The same over the disks of a site, with an account of what the rack inside tells.
fn det_traced<C: Begun, R: Rack>(laid: Laid<R>, vol: u32, plex: u32) -> (Laid<R>, Result<(), Stop>)
    requires up { IsTrue (shade_meaning (λ s. R.meaning s) laid.shelf).down → ⊥ }
    requires told { TellsLess C.first (R.meaning (rack_of laid.shelf)) }
    ensures works { PlexDets vol plex laid.core (shade_meaning (λ s. R.meaning s) laid.shelf) result.0.core (shade_meaning (λ s. R.meaning s) result.0.shelf) result.1 }
    ensures maps { IsRack (shade_meaning (λ s. R.meaning s) laid.shelf) → IsRack (shade_meaning (λ s. R.meaning s) result.0.shelf) → DetsMaps vol plex (map_parts laid.core.inner.config laid.logs.items laid.alike laid.stopped) (shade_meaning (λ s. R.meaning s) laid.shelf) (map_parts result.0.core.inner.config result.0.logs.items result.0.alike result.0.stopped) (shade_meaning (λ s. R.meaning s) result.0.shelf) result.1 }
    ensures since { CalledSince (shade_meaning (λ s. R.meaning s) laid.shelf) (shade_meaning (λ s. R.meaning s) result.0.shelf) }
    ensures told { TellsLess C.first (R.meaning (rack_of result.0.shelf)) }
{
    let (group, answer) = det_shaded::<Traced<R, C>>(trace::<C, R>(laid), vol, plex);
    (untrace(group), answer)
}

/// Detaches a plex of a group that is up.
pub fn det_watched<R: Rack>(laid: Laid<R>, vol: u32, plex: u32) -> (Laid<R>, Result<(), Stop>)
    requires { IsTrue (shade_meaning (λ s. R.meaning s) laid.shelf).down → ⊥ }
    ensures works { PlexDets vol plex laid.core (shade_meaning (λ s. R.meaning s) laid.shelf) result.0.core (shade_meaning (λ s. R.meaning s) result.0.shelf) result.1 }
    ensures maps { IsRack (shade_meaning (λ s. R.meaning s) laid.shelf) → IsRack (shade_meaning (λ s. R.meaning s) result.0.shelf) → DetsMaps vol plex (map_parts laid.core.inner.config laid.logs.items laid.alike laid.stopped) (shade_meaning (λ s. R.meaning s) laid.shelf) (map_parts result.0.core.inner.config result.0.logs.items result.0.alike result.0.stopped) (shade_meaning (λ s. R.meaning s) result.0.shelf) result.1 }
    ensures since { CalledSince (shade_meaning (λ s. R.meaning s) laid.shelf) (shade_meaning (λ s. R.meaning s) result.0.shelf) }
    ensures told { TellsLess (R.meaning (rack_of laid.shelf)) (R.meaning (rack_of result.0.shelf)) }
{
    det_traced::<Brand, R>(laid, vol, plex)
}

fn att_from<B: Begun, R: Rack>(
    group: LoggedGroup<R>,
    vol: u32,
    plex: u32,
) -> (LoggedGroup<R>, Result<u64, Stop>)
    requires up { IsTrue (R.meaning group.shelf).down → ⊥ }
    requires since { CalledSince B.first (R.meaning group.shelf) }
    ensures works { PlexAtts vol plex group.core (R.meaning group.shelf) result.0.core (R.meaning result.0.shelf) result.1 }
    ensures maps { IsRack (R.meaning group.shelf) → IsRack (R.meaning result.0.shelf) → AttsMaps vol plex (map_parts group.core.inner.config group.logs.items group.alike group.stopped) (R.meaning group.shelf) (map_parts result.0.core.inner.config result.0.logs.items result.0.alike result.0.stopped) (R.meaning result.0.shelf) result.1 }
    ensures since { CalledSince B.first (R.meaning result.0.shelf) }
{
    let (rack, rest) = group.apart();
    let watched = Watched::<R, B>::over(rack);
    let mut group = LoggedGroup::together(watched, rest);
    let answer = att_plex(&mut group, vol, plex);
    let (watched, rest) = group.apart();
    let rack = watched.into_shelf();
    (LoggedGroup::together(rack, rest), answer)
}

// The same over disks of which contents are told or not.
fn att_shaded<R: Rack>(
    group: LoggedGroup<Shade<R>>,
    vol: u32,
    plex: u32,
) -> (LoggedGroup<Shade<R>>, Result<u64, Stop>)
    requires up { IsTrue (shade_meaning (λ s. R.meaning s) group.shelf).down → ⊥ }
    ensures works { PlexAtts vol plex group.core (shade_meaning (λ s. R.meaning s) group.shelf) result.0.core (shade_meaning (λ s. R.meaning s) result.0.shelf) result.1 }
    ensures maps { IsRack (shade_meaning (λ s. R.meaning s) group.shelf) → IsRack (shade_meaning (λ s. R.meaning s) result.0.shelf) → AttsMaps vol plex (map_parts group.core.inner.config group.logs.items group.alike group.stopped) (shade_meaning (λ s. R.meaning s) group.shelf) (map_parts result.0.core.inner.config result.0.logs.items result.0.alike result.0.stopped) (shade_meaning (λ s. R.meaning s) result.0.shelf) result.1 }
    ensures since { CalledSince (shade_meaning (λ s. R.meaning s) group.shelf) (shade_meaning (λ s. R.meaning s) result.0.shelf) }
{
    att_from::<Brand, Shade<R>>(group, vol, plex)
}

// The same over the disks of a site, with an account of what the rack inside tells.
fn att_traced<C: Begun, R: Rack>(laid: Laid<R>, vol: u32, plex: u32) -> (Laid<R>, Result<u64, Stop>)
    requires up { IsTrue (shade_meaning (λ s. R.meaning s) laid.shelf).down → ⊥ }
    requires told { TellsLess C.first (R.meaning (rack_of laid.shelf)) }
    ensures works { PlexAtts vol plex laid.core (shade_meaning (λ s. R.meaning s) laid.shelf) result.0.core (shade_meaning (λ s. R.meaning s) result.0.shelf) result.1 }
    ensures maps { IsRack (shade_meaning (λ s. R.meaning s) laid.shelf) → IsRack (shade_meaning (λ s. R.meaning s) result.0.shelf) → AttsMaps vol plex (map_parts laid.core.inner.config laid.logs.items laid.alike laid.stopped) (shade_meaning (λ s. R.meaning s) laid.shelf) (map_parts result.0.core.inner.config result.0.logs.items result.0.alike result.0.stopped) (shade_meaning (λ s. R.meaning s) result.0.shelf) result.1 }
    ensures since { CalledSince (shade_meaning (λ s. R.meaning s) laid.shelf) (shade_meaning (λ s. R.meaning s) result.0.shelf) }
    ensures told { TellsLess C.first (R.meaning (rack_of result.0.shelf)) }
{
    let (group, answer) = att_shaded::<Traced<R, C>>(trace::<C, R>(laid), vol, plex);
    (untrace(group), answer)
}

/// Attaches a plex of a group that is up, and answers how many regions were copied.
pub fn att_watched<R: Rack>(laid: Laid<R>, vol: u32, plex: u32) -> (Laid<R>, Result<u64, Stop>)
    requires { IsTrue (shade_meaning (λ s. R.meaning s) laid.shelf).down → ⊥ }
    ensures works { PlexAtts vol plex laid.core (shade_meaning (λ s. R.meaning s) laid.shelf) result.0.core (shade_meaning (λ s. R.meaning s) result.0.shelf) result.1 }
    ensures maps { IsRack (shade_meaning (λ s. R.meaning s) laid.shelf) → IsRack (shade_meaning (λ s. R.meaning s) result.0.shelf) → AttsMaps vol plex (map_parts laid.core.inner.config laid.logs.items laid.alike laid.stopped) (shade_meaning (λ s. R.meaning s) laid.shelf) (map_parts result.0.core.inner.config result.0.logs.items result.0.alike result.0.stopped) (shade_meaning (λ s. R.meaning s) result.0.shelf) result.1 }
    ensures since { CalledSince (shade_meaning (λ s. R.meaning s) laid.shelf) (shade_meaning (λ s. R.meaning s) result.0.shelf) }
    ensures told { TellsLess (R.meaning (rack_of laid.shelf)) (R.meaning (rack_of result.0.shelf)) }
{
    att_traced::<Brand, R>(laid, vol, plex)
}
