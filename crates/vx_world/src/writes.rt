// Writes to volumes.
ghost use Rattle.std.specs.Prelude.{◌≡◌, ◌<◌, ◌||◌, length, None, IfOk};
ghost use Rattle.vx_model.specs.Content.{blocks_in};
ghost use Rattle.vx_model.specs.Answer.{is_wrong_count, is_too_large};
ghost use Rattle.vx_history.specs.Refusals.{says, unless, unless_at_most};
ghost use Rattle.vx_history.specs.Events.{links_changed, put_in, admitted, written_if};
ghost use Rattle.vx_history.specs.Step.{outcome_of};
ghost use Rattle.vx_model.specs.declared.no.No.TheVariants.{Size as WrongSize};
ghost use Rattle.vx_history.specs.declared.event.Event.TheVariants.{Write as WriteAt};
ghost use Rattle.vx_sites.specs.Refusing.{Refuses};
ghost use Rattle.vx_sites.specs.Shapes.{world_of};

use crate::admission::{is_waited_for, list_links, refuse_by_links};
use vx_history::Said;
use vx_model::limits::{BLOCK, MOST_NUMBER};
use vx_model::{Blocks, No, OutOfMemory};
use vx_sites::bounds::{refuse_most, refuse_range, refuse_volume};
use vx_sites::{World, Write};

/// Writes 1 to 16 blocks to a volume of a primary. Where a disk fails it is not known whether the write stands, and the site is
/// halted. Refused with 1, 3, 4, 5, 6 and 20, then with 12, 13 and 14 by its links, with 19, and with 7 by the disk.
pub fn write(
    world: &mut World,
    site: u32,
    volume: u32,
    start: u64,
    bytes: Blocks,
    fails: Option<u32>,
) -> Result<Said, OutOfMemory>
    ensures { IfOk result (λ said. says (world_of world.new) said ≡ outcome_of (world_of world.old) (WriteAt site volume start bytes fails)) }
{
    if let Some(no) = refuse_volume(world, site, volume) {
        return Ok(Said::Refused(no));
    }
    let write = Write::new(volume, start, bytes);
    if let Some(no) = refuse_size(world, site, &write) {
        return Ok(Said::Refused(no));
    }
    let count = (write.as_bytes().len() / BLOCK) as u64;
    if let Some(no) = refuse_range(world, site, volume, start, count) {
        return Ok(Said::Refused(no));
    }
    write_if_let_in(world, site, write, fails)
}

// 4 where the write and its header have no room in the log.
fn refuse_size(world: &World, site: u32, write: &Write) -> Option<No>
    requires { site < length world.now.nodes.items }
    ensures { let w = world_of world.now in let count = blocks_in write.now.bytes in Refuses result w (unless (is_wrong_count count || is_too_large (w.nodes site).ring count) WrongSize w) }
{
    let count = (write.as_bytes().len() / BLOCK) as u64;
    if u64::from(world.node(site).ring) < count + 1 {
        Some(No::Size)
    } else {
        None
    }
}

fn write_if_let_in(
    world: &mut World,
    site: u32,
    write: Write,
    fails: Option<u32>,
) -> Result<Said, OutOfMemory>
    requires { site < length world.old.nodes.items }
    ensures { let w = world_of world.old in IfOk result (λ said. says (world_of world.new) said ≡ written_if (admitted w site write) w site write fails) }
{
    let sites = world.count_sites()?;
    let links = list_links(world, site, sites)?;
    if let Some(no) = refuse_by_links(world, site, &links, &write) {
        return Ok(Said::Refused(no));
    }
    write_unless_most(world, site, write, fails)
}

fn write_unless_most(
    world: &mut World,
    site: u32,
    write: Write,
    fails: Option<u32>,
) -> Result<Said, OutOfMemory>
    requires { site < length world.old.nodes.items }
    ensures { let w = world_of world.old in IfOk result (λ said. says (world_of world.new) said ≡ unless_at_most (w.nodes site).safe w (put_in (links_changed w site write) site write fails)) }
{
    if let Some(no) = refuse_most(world.node(site).safe) {
        return Ok(Said::Refused(no));
    }
    world.let_in(site, &write)?;
    put(world, site, write, fails)
}

fn put(world: &mut World, site: u32, write: Write, fails: Option<u32>) -> Result<Said, OutOfMemory>
    requires within { site < length world.old.nodes.items }
    requires room { ((world_of world.old).nodes site).safe < MOST_NUMBER }
    ensures { let w = world_of world.old in IfOk result (λ said. says (world_of world.new) said ≡ put_in w site write fails) }
{
    match fails {
        None => put_whole(world, site, write),
        Some(disk) => {
            world.log_half(site, write, disk)?;
            Ok(Said::Refused(No::Device { disk }))
        }
    }
}

fn put_whole(world: &mut World, site: u32, write: Write) -> Result<Said, OutOfMemory>
    requires within { site < length world.old.nodes.items }
    requires room { ((world_of world.old).nodes site).safe < MOST_NUMBER }
    ensures { let w = world_of world.old in IfOk result (λ said. says (world_of world.new) said ≡ put_in w site write None) }
{
    let number = world.node(site).safe + 1;
    let is_waited = is_waited_for(world, site);
    world.mark_writes(site, &[write])?;
    world.log_write(site, write)?;
    if is_waited {
        Ok(Said::Logged(number))
    } else {
        Ok(Said::DoneAt(number))
    }
}
