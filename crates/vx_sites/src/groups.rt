// What the events of groups of disks ask and make of their sites.
ghost use Rattle.std.specs.Prelude.{◌≡◌, ◌<◌, eqb, length, map, not, IfOk, OnOk};
ghost use Rattle.vx_history.specs.Events.{is_plain_group as plain_group};
ghost use Rattle.vx_history.specs.Refusals.{unless};
ghost use Rattle.vx_history.specs.Steps.{group_back, group_made, deported_world, fallen_world};
ghost use Rattle.vx_history.specs.Volumes.{volumes_made};
ghost use Rattle.vx_model.specs.declared.no.No.TheVariants.{Role as WrongRole};
ghost use Rattle.vx_sites.specs.Refusing.{Refuses};
ghost use Rattle.vx_sites.specs.Shapes.{node_of, world_of};

use crate::bounds::is_primary;
use crate::changes::ring_of;
use crate::history::{begin_line, start_line};
use crate::{Content, Node, World};
use std::alloc::Global;
use vx_history::{DataVolume, DataVolumes};
use vx_model::{Line, Mark, Name, No, OutOfMemory, Role, SiteState};

/// 5 where the site is no primary, or has volumes or a log.
pub fn refuse_no_group(world: &World, site: u32) -> Option<No>
    requires { site < length world.now.nodes.items }
    ensures { let w = world_of world.now in Refuses result w (unless (not (plain_group (w.nodes site))) WrongRole w) }
{
    if is_plain_group(world.node(site)) {
        None
    } else {
        Some(No::Role)
    }
}

fn is_plain_group(node: &Node) -> bool
    ensures { result ≡ plain_group (node_of node.now) }
{
    is_primary(node) && has_no_volumes(node) && node.log.is_empty()
}

fn has_no_volumes(node: &Node) -> bool
    ensures { result ≡ eqb (length (node_of node.now).volumes) 0 }
{
    node.volumes.is_empty()
}

impl World {
    /// A bare site becomes a group of disks without volumes, and the primary of its first line.
    pub fn make_group(&mut self, site: u32) -> Result<(), OutOfMemory>
        requires { site < length self.old.nodes.items }
        ensures { OnOk result (world_of self.new ≡ group_made (world_of self.old) site) }
    {
        let node = &mut self.nodes[site as usize];
        let line = Line {
            generation: 1,
            origin: site,
        };
        begin_line(
            self.alloc,
            &mut self.lines,
            &line,
            Content::none(self.alloc),
        )?;
        node.state = SiteState::Up;
        node.ring = 0;
        node.volumes.clear();
        node.names.clear();
        node.role = Role::Primary;
        node.mark = Mark::Consistent;
        node.line = line;
        node.top = 1;
        node.stood.push(line)?;
        node.session = 1;
        node.start = Content::none(self.alloc);
        node.base = Content::none(self.alloc);
        node.log.clear();
        node.safe = 0;
        node.halted = None;
        Ok(())
    }

    /// A group of disks gets a replicated volume group: a log in a volume of so many blocks, and these data volumes, which hold zeros.
    pub fn make_volumes(
        &mut self,
        site: u32,
        log: u64,
        volumes: &DataVolumes,
    ) -> Result<(), OutOfMemory>
        requires { site < length self.old.nodes.items }
        ensures { OnOk result (world_of self.new ≡ volumes_made (world_of self.old) site log volumes.now) }
    {
        let sizes = sizes_of(self.alloc, volumes.as_slice())?;
        let names = names_of(self.alloc, volumes.as_slice())?;
        let node = &mut self.nodes[site as usize];
        let start = Content::new(self.alloc, &sizes)?;
        start_line(self.alloc, &mut self.lines, &node.line, start)?;
        node.ring = ring_of(log);
        node.start = Content::new(self.alloc, &sizes)?;
        node.base = Content::new(self.alloc, &sizes)?;
        node.names = names;
        node.volumes = sizes;
        Ok(())
    }

    /// A group of disks comes up again, in the session that it had.
    pub fn bring_group_up(&mut self, site: u32)
        requires { site < length self.old.nodes.items }
        ensures { world_of self.new ≡ group_back (world_of self.old) site }
    {
        let node = &mut self.nodes[site as usize];
        node.state = SiteState::Up;
        node.halted = None;
    }

    /// The site, which is down, counts as deported.
    pub fn deport(&mut self, site: u32)
        requires { site < length self.old.nodes.items }
        ensures { let w = world_of self.old in world_of self.new ≡ deported_world (w.nodes site).fuse w site }
    {
        self.nodes[site as usize].state = SiteState::Deported;
    }

    /// The site, which is deported, is down.
    pub fn fall(&mut self, site: u32)
        requires { site < length self.old.nodes.items }
        ensures { world_of self.new ≡ fallen_world (world_of self.old) site }
    {
        let node = &mut self.nodes[site as usize];
        node.state = SiteState::Down;
        node.fed_by = node.other;
    }
}

fn sizes_of(alloc: Global, volumes: &[DataVolume]) -> Result<Vec<u64>, OutOfMemory>
    ensures { IfOk result (λ sizes. sizes.items ≡ map (λ x. x.blocks) volumes.now) }
{
    let mut sizes = Vec::new(alloc);
    for volume in volumes {
        sizes.push(volume.blocks)?;
    }
    Ok(sizes)
}

fn names_of(alloc: Global, volumes: &[DataVolume]) -> Result<Vec<Name>, OutOfMemory>
    ensures { IfOk result (λ names. names.items ≡ map (λ x. x.name) volumes.now) }
{
    let mut names = Vec::new(alloc);
    for volume in volumes {
        names.push(volume.name)?;
    }
    Ok(names)
}
