// The numbers of a configuration fit their fields, which a contract learns where they are read.
ghost use Rattle.std.specs.Prelude.{◌≡◌, ◌≤◌, length, is_some, IfSome};
ghost use Rattle.std.specs.List.{AllByRecursion};
ghost use Rattle.vx_config.specs.Configs.{CanSpell, HasSpelling, UnitsFit};
ghost use Rattle.vx_config.specs.Forms.{FitsIf};
ghost use Rattle.vx_config.specs.Table.{disk as disk_form, subdisk as subdisk_form, log as log_form, plex as plex_form, preferred as preferred_form, ways as ways_form, volume as volume_form, units as units_form};

use crate::{Config, DiskEntry, LogEntry, PlexEntry, Subdisk, VolumeEntry};
use vx_model::Units;

#[tactic(auto, unfolding(crate::specs::Table::disk, crate::specs::Forms::flag))]
fn disk_fits(disk: &DiskEntry)
    ensures { disk_form.Fits disk.now }
{
    let _blocks = disk.blocks;
}

fn disks_fit(disks: &[DiskEntry])
    ensures { AllByRecursion disk_form.Fits disks.now }
{
    for disk in disks {
        disk_fits(disk);
    }
}

#[tactic(auto, unfolding(crate::specs::Table::subdisk))]
fn subdisk_fits(subdisk: &Subdisk)
    ensures { subdisk_form.Fits subdisk.now }
{
    let _disk = subdisk.disk;
    let _start = subdisk.start;
    let _blocks = subdisk.blocks;
}

fn subdisks_fit(subdisks: &[Subdisk])
    ensures { AllByRecursion subdisk_form.Fits subdisks.now }
{
    for subdisk in subdisks {
        subdisk_fits(subdisk);
    }
}

#[tactic(auto, unfolding(crate::specs::Table::plex, crate::specs::Table::state, crate::specs::Forms::flag))]
fn plex_fits(plex: &PlexEntry)
    ensures { plex_form.Fits plex.now }
{
    subdisks_fit(plex.subdisks.as_slice());
}

fn plexes_fit(plexes: &[PlexEntry])
    ensures { AllByRecursion plex_form.Fits plexes.now }
{
    for plex in plexes {
        plex_fits(plex);
    }
}

#[tactic(auto, unfolding(crate::specs::Table::log, crate::specs::Forms::flag))]
fn log_fits(log: &LogEntry)
    ensures { log_form.Fits log.now }
{
    let _disk = log.disk;
    let _start = log.start;
    let _blocks = log.blocks;
}

fn log_if_fits(log: &Option<LogEntry>)
    ensures { FitsIf log_form log.now }
{
    if let Some(log) = log {
        log_fits(log);
    }
}

fn preferred_fits(prefer: Option<u8>)
    ensures { (preferred_form (is_some prefer)).Fits prefer }
{
    if let Some(plex) = prefer {
        let _plex = plex;
    }
}

#[tactic(auto, unfolding(crate::specs::Table::ways, crate::specs::Forms::flag))]
fn ways_fit(volume: &VolumeEntry)
    ensures { ways_form.Fits (volume.now.prefer, (volume.now.drl, volume.now.fmr)) }
{
    preferred_fits(volume.prefer);
    log_if_fits(&volume.drl);
    log_if_fits(&volume.fmr);
}

#[tactic(auto, unfolding(crate::specs::Table::volume, crate::specs::Forms::name))]
fn volume_fits(volume: &VolumeEntry)
    ensures { volume_form.Fits volume.now }
{
    let _name = volume.name.as_bytes();
    let _blocks = volume.blocks;
    let _ncol = volume.ncol;
    let _width = volume.width;
    ways_fit(volume);
    plexes_fit(volume.plexes.as_slice());
}

fn volumes_fit(volumes: &[VolumeEntry])
    ensures { AllByRecursion volume_form.Fits volumes.now }
{
    for volume in volumes {
        volume_fits(volume);
    }
}

#[tactic(auto, unfolding(crate::specs::Table::units), using(crate::proofs::FitLemmas::numbers_fit))]
fn units_fit(units: &Units)
    requires { UnitsFit units.now }
    ensures { units_form.Fits units.now }
{
    let _vols = units.vols.as_slice();
}

fn group_fits(rvg: &Option<Units>)
    requires { IfSome rvg.now UnitsFit }
    ensures { FitsIf units_form rvg.now }
{
    if let Some(units) = rvg {
        units_fit(units);
    }
}

/// A configuration that can be spelled has a spelling.
#[tactic(auto, unfolding(crate::specs::Configs::HasSpelling, crate::specs::Table::config, crate::specs::Table::format_1))]
pub fn config_fits(config: &Config)
    requires { CanSpell config.now }
    ensures { HasSpelling config.now }
{
    let _serial = config.serial;
    let _site = config.site;
    disks_fit(config.disks.as_slice());
    volumes_fit(config.volumes.as_slice());
    group_fits(&config.rvg);
}
