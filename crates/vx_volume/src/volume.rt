// A volume, which is read, written and flushed over its plexes.
ghost use Rattle.std.specs.Prelude.{◌≡◌, ◌+◌, ◌/◌, ◌%◌, ◌<◌, ◌≤◌, IsTrue, length};
ghost use Rattle.vx_config.specs.Checks.{blocks_of as blocks_of_is, is_sound, plexes_of};
ghost use Rattle.vx_disk.specs.Shelf.{Goes, Nothing};
ghost use Rattle.vx_volume.specs.Plexes.{DisksFit, SomeActive, prefer_of};
ghost use Rattle.vx_volume.specs.Volumes.{PlexesEnd, EndsAt, OnPlexes, PlexFlushed, PlexWrote, VolumeReads, first_asked, next_asked};

use crate::every::{flush_plexes, write_plexes};
use crate::plexes::{plex_count, preferred};
use crate::sets::{Failed, set_of};
use crate::turns::read_in_turn;
use vx_config::{Config, blocks_of};
use vx_disk::Shelf;
use vx_model::No;
use vx_model::limits::{BLOCK, MOST_PLEXES};

/// A volume of a configuration.
#[derive(Clone, Copy, Debug, PartialEq, Eq)]
pub struct Volume {
    /// Its place in the list of volumes, from 0.
    pub number: u32,
    /// The plex that the next read asks first, where reads take the plexes in turn.
    pub next: u32,
}

// The plex that a read asks first.
fn first_of(c: &Config, v: &Volume) -> u32
    requires { 0 < plexes_of c.now v.now.number }
    ensures { result ≡ first_asked (prefer_of c.now v.now.number) (v.now.next % plexes_of c.now v.now.number) }
{
    match preferred(c, v.number) {
        Some(plex) => u32::from(plex),
        None => v.next % plex_count(c, v.number),
    }
}

// The plex that the next read asks first, once this one was read.
fn next_of(c: &Config, v: &Volume, plex: u32) -> u32
    requires plex { plex < plexes_of c.now v.now.number }
    requires few { plexes_of c.now v.now.number ≤ MOST_PLEXES }
    ensures { result ≡ next_asked (prefer_of c.now v.now.number) v.now.next ((plex + 1) % plexes_of c.now v.now.number) }
{
    match preferred(c, v.number) {
        Some(_) => v.next,
        None => (plex + 1) % plex_count(c, v.number),
    }
}

/// Reads whole blocks, as many as the slice holds, from one plex that is ACTIVE.
///
/// The plexes are asked one after the other until one answers, from the preferred one on, or, where there is none, from
/// the one behind the last that was read. Answers 7 where each plex that is ACTIVE failed in this call, and 6 where the
/// shelf is down.
pub fn read<S: Shelf>(
    v: &mut Volume,
    c: &Config,
    shelf: &mut S,
    block: u64,
    into: &mut [u8],
) -> Result<(), No>
    requires checked { IsTrue (is_sound c.now) }
    requires volume { v.old.number < length c.now.volumes }
    requires within { block + length into.old / BLOCK ≤ blocks_of_is c.now.volumes v.old.number }
    requires whole { length into.old % BLOCK ≡ 0 }
    requires some { SomeActive c.now v.old.number }
    requires disks { DisksFit c.now.disks (S.meaning shelf.old) }
    requires up { IsTrue (S.meaning shelf.old).down → ⊥ }
    ensures goes { Goes Nothing (S.meaning shelf.old) (S.meaning shelf.new) }
    ensures down { (S.meaning shelf.new).down ≡ (S.meaning shelf.old).down }
    ensures reads { VolumeReads c.now v.old v.new block (length into.old / BLOCK) into.new (S.meaning shelf.old) (S.meaning shelf.new) result }
{
    // Read for its bound: no block of a volume is past 2^64.
    let _end = blocks_of(c, v.number);
    let first = first_of(c, v);
    match read_in_turn(c, v.number, shelf, block, into, first) {
        Ok(plex) => {
            v.next = next_of(c, v, plex);
            Ok(())
        }
        Err(no) => Err(no),
    }
}

/// Writes whole blocks to each plex that is ACTIVE.
///
/// Answers the plexes that failed, of which one did not; 7 where each failed in this call, and 6 where the shelf is down.
pub fn write_all<S: Shelf>(
    c: &Config,
    vol: u32,
    shelf: &mut S,
    block: u64,
    bytes: &[u8],
) -> Result<Failed, No>
    requires checked { IsTrue (is_sound c.now) }
    requires volume { vol < length c.now.volumes }
    requires within { block + length bytes.now / BLOCK ≤ blocks_of_is c.now.volumes vol }
    requires whole { length bytes.now % BLOCK ≡ 0 }
    requires some { SomeActive c.now vol }
    requires disks { DisksFit c.now.disks (S.meaning shelf.old) }
    requires up { IsTrue (S.meaning shelf.old).down → ⊥ }
    ensures goes { Goes (OnPlexes c.now vol block (length bytes.now / BLOCK) bytes.now) (S.meaning shelf.old) (S.meaning shelf.new) }
    ensures ends { EndsAt c.now vol (λ p. PlexWrote c.now vol p block (length bytes.now / BLOCK) block (length bytes.now / BLOCK) bytes.now (S.meaning shelf.old) (S.meaning shelf.new)) (S.meaning shelf.old) (S.meaning shelf.new) result }
{
    // Read for its bound: no block of a volume is past 2^64.
    let _end = blocks_of(c, vol);
    match write_plexes(c, vol, shelf, block, bytes) {
        Ok(flags) => Ok(Failed {
            set: set_of(&flags.failed),
            disk: flags.device,
        }),
        Err(no) => Err(no),
    }
}

/// Makes each plex that is ACTIVE durable: after it a crash leaves of the plex what a read of it gave.
///
/// Answers the plexes that failed, of which one did not; 7 where each failed in this call, and 6 where the shelf is down.
pub fn flush_all<S: Shelf>(c: &Config, vol: u32, shelf: &mut S) -> Result<Failed, No>
    requires checked { IsTrue (is_sound c.now) }
    requires some { SomeActive c.now vol }
    requires disks { DisksFit c.now.disks (S.meaning shelf.old) }
    requires up { IsTrue (S.meaning shelf.old).down → ⊥ }
    ensures goes { Goes Nothing (S.meaning shelf.old) (S.meaning shelf.new) }
    ensures ends { EndsAt c.now vol (λ p. PlexFlushed c.now vol p (S.meaning shelf.old) (S.meaning shelf.new)) (S.meaning shelf.old) (S.meaning shelf.new) result }
{
    match flush_plexes(c, vol, shelf) {
        Ok(flags) => Ok(Failed {
            set: set_of(&flags.failed),
            disk: flags.device,
        }),
        Err(no) => Err(no),
    }
}

/// Writes whole blocks to each plex that is ACTIVE.
///
/// Answers the set of the plexes that failed, with bit P for plex P, of which one did not; 7 where each failed in this
/// call, and 6 where the shelf is down.
pub fn write<S: Shelf>(
    v: &mut Volume,
    c: &Config,
    shelf: &mut S,
    block: u64,
    bytes: &[u8],
) -> Result<u8, No>
    requires checked { IsTrue (is_sound c.now) }
    requires volume { v.old.number < length c.now.volumes }
    requires within { block + length bytes.now / BLOCK ≤ blocks_of_is c.now.volumes v.old.number }
    requires whole { length bytes.now % BLOCK ≡ 0 }
    requires some { SomeActive c.now v.old.number }
    requires disks { DisksFit c.now.disks (S.meaning shelf.old) }
    requires up { IsTrue (S.meaning shelf.old).down → ⊥ }
    ensures goes { Goes (OnPlexes c.now v.old.number block (length bytes.now / BLOCK) bytes.now) (S.meaning shelf.old) (S.meaning shelf.new) }
    ensures ends { PlexesEnd c.now v.old.number (λ p. PlexWrote c.now v.old.number p block (length bytes.now / BLOCK) block (length bytes.now / BLOCK) bytes.now (S.meaning shelf.old) (S.meaning shelf.new)) (S.meaning shelf.old) (S.meaning shelf.new) result }
    ensures same { v.new ≡ v.old }
{
    match write_all(c, v.number, shelf, block, bytes) {
        Ok(failed) => Ok(failed.set),
        Err(no) => Err(no),
    }
}

/// Makes each plex that is ACTIVE durable: after it a crash leaves of the plex what a read of it gave.
///
/// Answers the set of the plexes that failed, with bit P for plex P, of which one did not; 7 where each failed in this
/// call, and 6 where the shelf is down.
pub fn flush<S: Shelf>(v: &mut Volume, c: &Config, shelf: &mut S) -> Result<u8, No>
    requires checked { IsTrue (is_sound c.now) }
    requires some { SomeActive c.now v.old.number }
    requires disks { DisksFit c.now.disks (S.meaning shelf.old) }
    requires up { IsTrue (S.meaning shelf.old).down → ⊥ }
    ensures goes { Goes Nothing (S.meaning shelf.old) (S.meaning shelf.new) }
    ensures ends { PlexesEnd c.now v.old.number (λ p. PlexFlushed c.now v.old.number p (S.meaning shelf.old) (S.meaning shelf.new)) (S.meaning shelf.old) (S.meaning shelf.new) result }
    ensures same { v.new ≡ v.old }
{
    match flush_all(c, v.number, shelf) {
        Ok(failed) => Ok(failed.set),
        Err(no) => Err(no),
    }
}
