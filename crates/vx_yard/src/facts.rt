// What the tests of a line look at, as it changes.
ghost use Rattle.std.specs.Prelude.{◌≡◌, ◌≤◌, ◌<◌, IfOk, map};
ghost use Rattle.vx_history.specs.Steps.{raw_volumes};
ghost use Rattle.vx_yard.specs.Changes.{bare_facts, raw_volume_fact, last_facts, halted_facts, raw_facts, up_facts};
ghost use Rattle.vx_effects.specs.Facts.{down_fact};
ghost use Rattle.vx_events.specs.Facts.{volume_fact, place_of};

use std::alloc::Global;
use vx_model::limits::{LEAST_BLOCKS, MOST_DISKS};
use vx_model::{Line, Mark, Name, OutOfMemory, Role, SiteState, State, ring_blocks};
use vx_order::{LinkTable, RvgFacts, SiteFacts, VolumeFacts, VolumeKind, VolumeTable};

/// A site of which nothing is made yet.
pub fn bare(alloc: Global, name: &Name, disks: u32, blocks: u64) -> SiteFacts
    ensures { result ≡ bare_facts name.now disks blocks }
{
    SiteFacts {
        name: *name,
        state: SiteState::Bare,
        disks,
        blocks,
        grouped: false,
        volumes: VolumeTable::new(alloc),
        rvg: None,
        links: LinkTable::new(alloc),
    }
}

/// The volumes d1, d2 and so on of a raw set, each of so many blocks.
pub fn raw_table(alloc: Global, volumes: u32, blocks: u64) -> Result<VolumeTable, OutOfMemory>
    requires { volumes ≤ MOST_DISKS }
    ensures { IfOk result (λ table. table ≡ map volume_fact (raw_volumes 1 volumes blocks)) }
{
    let mut table = VolumeTable::new(alloc);
    for k in 0..volumes {
        table.push(raw_volume(k, blocks))?;
    }
    Ok(table)
}

// Volume k + 1 of a raw set.
fn raw_volume(k: u32, blocks: u64) -> VolumeFacts
    requires { k < MOST_DISKS }
    ensures { result ≡ raw_volume_fact k blocks }
{
    VolumeFacts {
        name: Name::new(&[b'd', b'1' + k as u8]),
        blocks,
        kind: VolumeKind::Data,
        plexes: 0,
    }
}

/// The site as a raw set on its first line.
pub fn make_raw(facts: &mut SiteFacts, site: u32, volumes: VolumeTable)
    requires { LEAST_BLOCKS ≤ facts.old.blocks }
    ensures { facts.new ≡ raw_facts site volumes facts.old }
{
    facts.state = SiteState::Up;
    facts.volumes = volumes;
    facts.rvg = Some(RvgFacts {
        role: Role::Primary,
        line: Line {
            generation: 1,
            origin: site,
        },
        parent: Line::default(),
        mark: Mark::Consistent,
        low: 1,
        last: 0,
        ring: ring_blocks(facts.blocks),
        halted: None,
    });
}

/// One more write is logged.
pub fn set_last(facts: &mut SiteFacts, number: u64)
    ensures { facts.new ≡ last_facts number facts.old }
{
    if let Some(rvg) = facts.rvg {
        facts.rvg = Some(RvgFacts {
            last: number,
            ..rvg
        });
    }
}

/// A write failed on this disk.
pub fn set_halted(facts: &mut SiteFacts, disk: u32)
    ensures { facts.new ≡ halted_facts disk facts.old }
{
    if let Some(rvg) = facts.rvg {
        facts.rvg = Some(RvgFacts {
            halted: Some(disk),
            ..rvg
        });
    }
}

/// The site crashed.
pub fn go_down(alloc: Global, facts: &mut SiteFacts)
    ensures { facts.new ≡ down_fact facts.old }
{
    facts.state = SiteState::Down;
    facts.rvg = None;
    facts.links = LinkTable::new(alloc);
}

/// The site came up with a log of this state, up to this number, in a ring of so many blocks.
pub fn come_up(facts: &mut SiteFacts, state: &State, last: u64, ring: u64)
    ensures { facts.new ≡ up_facts state.now last ring facts.old }
{
    facts.state = SiteState::Up;
    facts.rvg = Some(RvgFacts {
        role: state.role,
        line: state.line,
        parent: state.parent,
        mark: state.mark,
        low: 1,
        last,
        ring,
        halted: None,
    });
}

/// The number of the volume of this name.
pub fn place(facts: &SiteFacts, name: &Name) -> Option<usize>
    ensures { result ≡ place_of facts.now.volumes name.now }
{
    facts
        .volumes
        .as_slice()
        .iter()
        .position(|volume| volume.name.as_bytes() == name.as_bytes())
}
