// What the tests see of a site behind a call on its group, and the reply.
ghost use Rattle.std.specs.Prelude.{◌≡◌, ◌<◌, [], length, map, option_copied, slice_get, slice_set, None, Some, true};
ghost use Rattle.vx_config.specs.Checks.{is_sound};
ghost use Rattle.vx_config.specs.declared.config.Config.{Config as ConfigValue};
ghost use Rattle.vx_diskset.specs.GroupCalls.{core_in};
ghost use Rattle.vx_events.specs.GroupViews.{plain_fact};
ghost use Rattle.vx_events.specs.RvgViews.{kinds_by, kinds_of};
ghost use Rattle.vx_events.specs.declared.said.Said.TheVariants.{Refused};
ghost use Rattle.vx_order.specs.declared.facts.SiteFacts.{SiteFacts as Facts};
ghost use Rattle.vx_rvg.specs.Views.{Core, last_of};
ghost use Rattle.vx_yard.specs.Changes.{up_facts};
ghost use Rattle.vx_yard.specs.GroupFacts.{group_up_facts, with_table};
ghost use Rattle.vx_yard.specs.Loads.{LetGoBy};
ghost use Rattle.vx_yard.specs.Writes.{below_facts};
ghost use Rattle.vx_group_lines.specs.Noting.{HasConfig, HasCore, HasNoCore, KeepsRest, core_shown, made_facts, reply_noted};

use std::alloc::Global;
use vx_config::Config;
use vx_disk::Rack;
use vx_diskset::DiskSet;
use vx_events::Said;
use vx_group_facts::{kinds_seen, volumes_seen};
use vx_model::{No, OutOfMemory, Stop};
use vx_order::{SiteFacts, VolumeRoom, VolumeTable};
use vx_yard::Yard;
use vx_yard::facts::come_up;
use vx_yard::group_facts::{come_up_group, set_volumes};
use vx_yard::load::let_go_if_down;
use vx_yard::refusing::refused_below;

/// A call on the group of a site was refused: where its fuse ran out, the site is down, and lets go what it had in assembly. A replicated volume group over it is
/// not halted by a disk that failed in the call.
pub(crate) fn group_refused<R: Rack>(yard: &mut Yard<R>, alloc: Global, site: usize, no: No) -> Said
    requires facts { site < length yard.old.facts.items }
    ensures facts { (f : Facts) → slice_get yard.old.facts.items site ≡ Some f → yard.new.facts.items ≡ slice_set yard.old.facts.items site (below_facts no f) }
    ensures assemblies { LetGoBy no site yard.old.assemblies.items yard.new.assemblies.items }
    ensures same { KeepsRest yard.old yard.new }
    ensures said { result ≡ Refused no }
{
    let_go_if_down(&mut yard.assemblies, site, &no);
    refused_below(alloc, &mut yard.facts[site], no)
}

/// The same of a call that takes memory: for want of it nothing changes.
pub(crate) fn group_stopped<R: Rack>(
    yard: &mut Yard<R>,
    alloc: Global,
    site: usize,
    stop: Stop,
) -> Result<Said, OutOfMemory>
    requires facts { site < length yard.old.facts.items }
    ensures { (f : Facts) → slice_get yard.old.facts.items site ≡ Some f → reply_noted site f stop yard.old yard.new result }
{
    match stop {
        Stop::No(no) => Ok(group_refused(yard, alloc, site, no)),
        Stop::OutOfMemory => Err(OutOfMemory),
    }
}

// The volumes of a configuration as the tests see them, by what each is to its replicated volume group.
fn table_over(config: &Config, room: VolumeRoom) -> VolumeTable
    requires empty { room ≡ [] }
    requires sound { is_sound config.now ≡ true }
    ensures { result ≡ kinds_by config.now.rvg config.now.volumes }
{
    match &config.rvg {
        Some(units) => kinds_seen(room, config.volumes.as_slice(), units),
        None => volumes_seen(room, config.volumes.as_slice()),
    }
}

// So they are seen where there may be no configuration: none then.
fn table_of(config: Option<&Config>, room: VolumeRoom) -> VolumeTable
    requires empty { room ≡ [] }
    requires sound { (c : ConfigValue) → option_copied config ≡ Some c → is_sound c ≡ true }
    ensures { result ≡ kinds_of (option_copied config.entry) }
{
    match config {
        Some(config) => table_over(config, room),
        None => room.into_table(),
    }
}

/// The tests see the volumes of a group that is up, and the replicated volume group over it, if it has one.
pub(crate) fn note_up<R: Rack>(yard: &mut Yard<R>, site: usize, room: VolumeRoom)
    requires facts { site < length yard.old.facts.items }
    requires disk_set { site < length yard.old.disk_sets.items }
    requires empty { room ≡ [] }
    ensures facts { (f : Facts) (c : ConfigValue) → slice_get yard.old.facts.items site ≡ Some f → HasConfig site c yard.old → c.rvg ≡ None → HasNoCore site yard.old
        → yard.new.facts.items ≡ slice_set yard.old.facts.items site (group_up_facts (map plain_fact c.volumes) f) }
    ensures made { (f : Facts) (c : ConfigValue) (core : Core) → slice_get yard.old.facts.items site ≡ Some f → HasConfig site c yard.old → HasCore site core yard.old
        → yard.new.facts.items ≡ slice_set yard.old.facts.items site (made_facts core c f) }
    ensures many { length yard.new.facts.items ≡ length yard.old.facts.items }
    ensures assemblies { yard.new.assemblies ≡ yard.old.assemblies }
    ensures same { KeepsRest yard.old yard.new }
{
    yard.disk_sets[site].sound();
    let volumes = table_of(yard.disk_sets[site].config(), room);
    come_up_group(&mut yard.facts[site], volumes);
    note_rvg(yard, site);
}

/// The tests see the volumes of a group that is up, where what stands over it is as it was.
pub(crate) fn note_volumes<R: Rack>(yard: &mut Yard<R>, site: usize, room: VolumeRoom)
    requires facts { site < length yard.old.facts.items }
    requires disk_set { site < length yard.old.disk_sets.items }
    requires empty { room ≡ [] }
    ensures facts { (f : Facts) (c : ConfigValue) → slice_get yard.old.facts.items site ≡ Some f → HasConfig site c yard.old → yard.new.facts.items ≡ slice_set yard.old.facts.items site (with_table (kinds_by c.rvg c.volumes) f) }
    ensures assemblies { yard.new.assemblies ≡ yard.old.assemblies }
    ensures same { KeepsRest yard.old yard.new }
{
    yard.disk_sets[site].sound();
    let volumes = table_of(yard.disk_sets[site].config(), room);
    set_volumes(&mut yard.facts[site], volumes);
}

// The tests see the replicated volume group that such a site has over its group, if it has one.
fn show_rvg<R: Rack>(facts: &mut SiteFacts, disk_set: &DiskSet<R>)
    ensures { facts.new ≡ core_shown (core_in disk_set.now) facts.old }
{
    match disk_set {
        DiskSet::Over(over) => match over.core() {
            Some(core) => come_up(facts, core.state(), core.head(), core.ring()),
            None => {}
        },
        _ => {}
    }
}

// So they do of this site.
fn note_rvg<R: Rack>(yard: &mut Yard<R>, site: usize)
    requires facts { site < length yard.old.facts.items }
    requires disk_set { site < length yard.old.disk_sets.items }
    ensures none { HasNoCore site yard.old → yard.new.facts.items ≡ yard.old.facts.items }
    ensures some { (f : Facts) (core : Core) → slice_get yard.old.facts.items site ≡ Some f → HasCore site core yard.old
        → yard.new.facts.items ≡ slice_set yard.old.facts.items site (up_facts core.log.header.state (last_of core) core.log.ring f) }
    ensures many { length yard.new.facts.items ≡ length yard.old.facts.items }
    ensures assemblies { yard.new.assemblies ≡ yard.old.assemblies }
    ensures same { KeepsRest yard.old yard.new }
{
    show_rvg(&mut yard.facts[site], &yard.disk_sets[site]);
}
