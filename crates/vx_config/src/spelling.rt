// The parts of a configuration, put one after the other.
ghost use Rattle.std.specs.Prelude.{◌≡◌, ◌≤◌, ◌<◌, [], length, IfSome, All};
ghost use Rattle.vx_config.specs.Configs.{CanSpell, UnitsFit, spelled_config};
ghost use Rattle.vx_config.specs.Forms.{flag as flag_form, number, optional, counted};
ghost use Rattle.vx_config.specs.Pages.{onto};
ghost use Rattle.vx_config.specs.Table.{disk as disk_form, subdisk as subdisk_form, log as log_form, plex as plex_form, state as state_form, ways as ways_form, volume as volume_form, units as units_form, format_1, preferred_number as preferred_number_is};
ghost use Rattle.vx_model.specs.declared.limits.TheConstants.{MOST_DATA_VOLUMES, MOST_DISKS, MOST_VOLUMES};

use crate::page::Page;
use crate::{Config, DiskEntry, LogEntry, PlexEntry, Subdisk, VolumeEntry};
use vx_model::limits::MOST_CONFIG_BYTES;
use vx_model::{PlexState, Units};

// The version of the format that is written.
const VERSION: u32 = 1;

#[tactic(auto, unfolding(crate::specs::Forms::flag))]
fn put_flag(page: &mut Page, flag: bool)
    ensures { page.new ≡ onto page.old (flag_form.spell flag) }
{
    if flag {
        page.u8(1);
    } else {
        page.u8(0);
    }
}

#[tactic(auto, unfolding(crate::specs::Table::state))]
fn put_state(page: &mut Page, state: PlexState)
    ensures { page.new ≡ onto page.old (state_form.spell state) }
{
    match state {
        PlexState::Active => page.u8(0),
        PlexState::Clean => page.u8(1),
        PlexState::Stale => page.u8(2),
    }
}

#[tactic(auto, unfolding(crate::specs::Table::disk), using(crate::proofs::PageLemmas::joined))]
fn put_disk(page: &mut Page, disk: &DiskEntry)
    ensures { page.new ≡ onto page.old (disk_form.spell disk.now) }
{
    page.u64(disk.blocks);
    put_flag(page, disk.failed);
}

fn put_disks(page: &mut Page, disks: &[DiskEntry])
    requires { length disks.now ≤ MOST_DISKS }
    ensures { page.new ≡ onto page.old ((counted 1 MOST_DISKS disk_form).spell disks.now) }
{
    page.u8(disks.len() as u8);
    for disk in disks {
        put_disk(page, disk);
    }
}

#[tactic(auto, unfolding(crate::specs::Table::subdisk), using(crate::proofs::PageLemmas::joined))]
fn put_subdisk(page: &mut Page, subdisk: &Subdisk)
    ensures { page.new ≡ onto page.old (subdisk_form.spell subdisk.now) }
{
    page.u8(subdisk.disk);
    page.u64(subdisk.start);
    page.u64(subdisk.blocks);
}

fn put_subdisks(page: &mut Page, subdisks: &[Subdisk])
    requires { length subdisks.now ≤ 255 }
    ensures { page.new ≡ onto page.old ((counted 0 255 subdisk_form).spell subdisks.now) }
{
    page.u8(subdisks.len() as u8);
    for subdisk in subdisks {
        put_subdisk(page, subdisk);
    }
}

#[tactic(auto, unfolding(crate::specs::Table::plex), using(crate::proofs::PageLemmas::joined))]
fn put_plex(page: &mut Page, plex: &PlexEntry)
    ensures { page.new ≡ onto page.old (plex_form.spell plex.now) }
{
    put_state(page, plex.state);
    put_flag(page, plex.whole);
    put_subdisks(page, plex.subdisks.as_slice());
}

fn put_plexes(page: &mut Page, plexes: &[PlexEntry])
    requires { length plexes.now ≤ 255 }
    ensures { page.new ≡ onto page.old ((counted 0 255 plex_form).spell plexes.now) }
{
    page.u8(plexes.len() as u8);
    for plex in plexes {
        put_plex(page, plex);
    }
}

#[tactic(auto, unfolding(crate::specs::Table::log), using(crate::proofs::PageLemmas::joined))]
fn put_log(page: &mut Page, log: &LogEntry)
    ensures { page.new ≡ onto page.old (log_form.spell log.now) }
{
    put_flag(page, log.lost);
    page.u8(log.disk);
    page.u64(log.start);
    page.u64(log.blocks);
}

#[tactic(auto, using(crate::proofs::PageLemmas::joined))]
fn put_log_if(page: &mut Page, log: &Option<LogEntry>)
    ensures { page.new ≡ onto page.old ((optional log_form).spell log.now) }
{
    match log {
        None => page.u8(0),
        Some(log) => {
            page.u8(1);
            put_log(page, log);
        }
    }
}

fn preferred_number(prefer: Option<u8>) -> u8
    ensures { result ≡ preferred_number_is prefer }
{
    match prefer {
        None => 0,
        Some(plex) => plex,
    }
}

// The flags of a volume, and what they stand for.
#[tactic(auto, unfolding(crate::specs::Table::ways), using(crate::proofs::PageLemmas::joined))]
fn put_ways(page: &mut Page, volume: &VolumeEntry)
    ensures { page.new ≡ onto page.old (ways_form.spell (volume.now.prefer, (volume.now.drl, volume.now.fmr))) }
{
    put_flag(page, volume.drl.is_some());
    put_flag(page, volume.fmr.is_some());
    put_flag(page, volume.prefer.is_some());
    page.u8(preferred_number(volume.prefer));
    put_log_if(page, &volume.drl);
    put_log_if(page, &volume.fmr);
}

#[tactic(auto, unfolding(crate::specs::Table::volume, crate::specs::Forms::name), using(crate::proofs::PageLemmas::joined))]
fn put_volume(page: &mut Page, volume: &VolumeEntry)
    ensures { page.new ≡ onto page.old (volume_form.spell volume.now) }
{
    page.name(&volume.name);
    page.u64(volume.blocks);
    page.u8(volume.ncol);
    page.u32(volume.width);
    put_ways(page, volume);
    put_plexes(page, volume.plexes.as_slice());
}

fn put_volumes(page: &mut Page, volumes: &[VolumeEntry])
    requires { length volumes.now ≤ MOST_VOLUMES }
    ensures { page.new ≡ onto page.old ((counted 0 MOST_VOLUMES volume_form).spell volumes.now) }
{
    page.u8(volumes.len() as u8);
    for volume in volumes {
        put_volume(page, volume);
    }
}

fn put_numbers(page: &mut Page, numbers: &[u32])
    requires few { length numbers.now ≤ MOST_DATA_VOLUMES }
    requires fit { All (λ n. n < 256) numbers.now }
    ensures { page.new ≡ onto page.old ((counted 0 MOST_DATA_VOLUMES (number 1)).spell numbers.now) }
{
    page.u8(numbers.len() as u8);
    for number in numbers {
        page.u8(*number as u8);
    }
}

#[tactic(auto, unfolding(crate::specs::Table::units), using(crate::proofs::PageLemmas::joined))]
fn put_units(page: &mut Page, units: &Units)
    requires { UnitsFit units.now }
    ensures { page.new ≡ onto page.old (units_form.spell units.now) }
{
    page.u8(units.srl as u8);
    page.u8(units.maps as u8);
    put_numbers(page, units.vols.as_slice());
}

#[tactic(auto, using(crate::proofs::PageLemmas::joined))]
fn put_group(page: &mut Page, rvg: &Option<Units>)
    requires { IfSome rvg.now UnitsFit }
    ensures { page.new ≡ onto page.old ((optional units_form).spell rvg.now) }
{
    match rvg {
        None => page.u8(0),
        Some(units) => {
            page.u8(1);
            put_units(page, units);
        }
    }
}

#[tactic(auto, unfolding(crate::specs::Table::format_1), using(crate::proofs::PageLemmas::joined))]
fn put_format_1(page: &mut Page, config: &Config)
    requires { CanSpell config.now }
    ensures { page.new ≡ onto page.old (format_1.spell config.now) }
{
    page.u64(config.serial);
    page.u32(config.site);
    put_disks(page, config.disks.as_slice());
    put_volumes(page, config.volumes.as_slice());
    put_group(page, &config.rvg);
}

// A page with the bytes of a configuration, as far as there is room.
#[tactic(auto, unfolding(crate::specs::Configs::spelled_config, crate::specs::Table::config), using(crate::proofs::PageLemmas::joined))]
fn cut_page(config: &Config) -> Page
    requires { CanSpell config.now }
    ensures { result ≡ onto [] (spelled_config config.now) }
{
    let mut page = Page::new();
    page.u32(VERSION);
    put_format_1(&mut page, config);
    page
}

/// A page with the bytes of a configuration, for which there is room.
pub fn page_of(config: &Config) -> Page
    requires can { CanSpell config.now }
    requires short { length (spelled_config config.now) ≤ MOST_CONFIG_BYTES }
    ensures { result ≡ spelled_config config.now }
{
    cut_page(config)
}
