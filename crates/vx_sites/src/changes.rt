// What the events of sites make of them.
ghost use Rattle.std.specs.Prelude.{◌≡◌, ◌+◌, ◌<◌, ◌^◌, length, take, drop, if◌then◌else◌, OnOk};
ghost use Rattle.vx_history.specs.World.{with_node, line_updated};
ghost use Rattle.vx_history.specs.Steps.{raw_made, stopped_by, session_begun, written, half_written, crashed, kept_by, recovered};
ghost use Rattle.vx_model.specs.Sizes.{ring_of as ring_blocks};
ghost use Rattle.vx_history.specs.Events.{applied, joined};
ghost use Rattle.vx_model.specs.declared.site.Mark.TheVariants.{Consistent};
ghost use Rattle.vx_model.specs.Sites.{same_line};
ghost use Rattle.vx_sites.specs.Shapes.{world_of, node_of};

use crate::history::{begin_line, keep_writes, tell_write};
use crate::{Content, Node, World, Write};
use vx_model::limits::{LOG_HEADERS, MOST_LOG_BLOCKS, MOST_NUMBER};
use vx_model::{Line, Mark, OutOfMemory, Role, SPhase, SiteState};

impl World {
    /// A bare site becomes a raw set, and the primary of its first line.
    pub fn make_raw(&mut self, site: u32) -> Result<(), OutOfMemory>
        requires { site < length self.old.nodes.items }
        ensures { OnOk result (world_of self.new ≡ raw_made (world_of self.old) site) }
    {
        let node = &mut self.nodes[site as usize];
        let count = node.disks.saturating_sub(2);
        let volumes = Vec::from_elem(self.alloc, node.blocks, count as usize)?;
        let line = Line {
            generation: 1,
            origin: site,
        };
        let start = Content::new(self.alloc, &volumes)?;
        begin_line(self.alloc, &mut self.lines, &line, start)?;
        node.state = SiteState::Up;
        node.ring = ring_of(node.blocks);
        node.role = Role::Primary;
        node.mark = Mark::Consistent;
        node.line = line;
        node.top = 1;
        node.stood.push(line)?;
        node.session = 1;
        node.start = Content::new(self.alloc, &volumes)?;
        node.base = Content::new(self.alloc, &volumes)?;
        node.volumes = volumes;
        node.names.clear();
        node.log.clear();
        node.safe = 0;
        node.halted = None;
        Ok(())
    }

    /// The disk halts its site.
    pub fn halt(&mut self, site: u32, disk: u32)
        requires { site < length self.old.nodes.items }
        ensures { world_of self.new ≡ stopped_by (world_of self.old) site disk }
    {
        self.nodes[site as usize].halted = Some(disk);
    }

    /// The site's next session begins.
    pub fn begin_session(&mut self, site: u32)
        requires within { site < length self.old.nodes.items }
        requires room { ((world_of self.old).nodes site).session < MOST_NUMBER + 1 }
        ensures { world_of self.new ≡ session_begun (world_of self.old) site }
    {
        self.nodes[site as usize].session += 1;
    }

    /// The site comes up in its next session, with this mark.
    pub fn come_up(&mut self, site: u32, mark: Mark)
        requires within { site < length self.old.nodes.items }
        requires room { ((world_of self.old).nodes site).session < MOST_NUMBER + 1 }
        ensures { let w = world_of self.old in world_of self.new ≡ with_node w site (record (recovered (w.nodes site)) { mark = mark }) }
    {
        let node = &mut self.nodes[site as usize];
        node.state = SiteState::Up;
        node.session += 1;
        node.halted = None;
        node.mark = mark;
    }

    /// The site is marked consistent.
    pub fn mark_consistent(&mut self, site: u32)
        requires { site < length self.old.nodes.items }
        ensures { let w = world_of self.old in world_of self.new ≡ with_node w site (record (w.nodes site) { mark = Consistent }) }
    {
        self.nodes[site as usize].mark = Mark::Consistent;
    }

    /// A write is durable at the origin of its line, and is answered.
    pub fn log_write(&mut self, site: u32, write: Write) -> Result<(), OutOfMemory>
        requires within { site < length self.old.nodes.items }
        requires room { ((world_of self.old).nodes site).safe < MOST_NUMBER + 1 }
        ensures { OnOk result (world_of self.new ≡ written (world_of self.old) site write) }
    {
        let node = &mut self.nodes[site as usize];
        tell_write(self.alloc, &mut self.lines, &node.line, write)?;
        node.base.put(write)?;
        node.log.push(write)?;
        node.safe += 1;
        Ok(())
    }

    /// A disk fails in a write.
    pub fn log_half(&mut self, site: u32, write: Write, disk: u32) -> Result<(), OutOfMemory>
        requires { site < length self.old.nodes.items }
        ensures { OnOk result (world_of self.new ≡ half_written (world_of self.old) site write disk) }
    {
        let node = &mut self.nodes[site as usize];
        node.log.push(write)?;
        node.halted = Some(disk);
        Ok(())
    }

    /// The first writes of a receiver, so many, are durable, and it has this mark.
    pub fn apply(&mut self, site: u32, number: u64, mark: Mark) -> Result<(), OutOfMemory>
        requires { site < length self.old.nodes.items }
        ensures { OnOk result (let w = world_of self.old in world_of self.new ≡ with_node w site (applied (w.nodes site) number mark)) }
    {
        let node = &mut self.nodes[site as usize];
        node.base.put_all(newly_kept(&node.log, node.safe, number))?;
        node.safe = number;
        node.mark = mark;
        Ok(())
    }

    /// The site crashes, and keeps its first writes, so many.
    pub fn go_down(&mut self, site: u32, kept: u64) -> Result<(), OutOfMemory>
        requires { site < length self.old.nodes.items }
        ensures { OnOk result (let w = world_of self.old in world_of self.new ≡ with_node w site (crashed (w.nodes site) kept)) }
    {
        let node = &mut self.nodes[site as usize];
        node.base.put_all(newly_kept(&node.log, node.safe, kept))?;
        node.log.truncate(kept as usize);
        node.state = SiteState::Down;
        node.fed_by = node.other;
        node.safe = kept;
        node.halted = None;
        Ok(())
    }

    /// The site's line holds its first writes, so many.
    pub fn keep_line(&mut self, site: u32, kept: u64) -> Result<(), OutOfMemory>
        requires { site < length self.old.nodes.items }
        ensures { OnOk result (let w = world_of self.old in let n = w.nodes site in world_of self.new ≡ record w { lines = line_updated w.lines n.line (kept_by (w.lines n.line) n kept) }) }
    {
        let node = &self.nodes[site as usize];
        let count = (kept as usize).min(node.log.len());
        keep_writes(self.alloc, &mut self.lines, &node.line, &node.log[..count])
    }

    /// The site begins anew, as a secondary of the primary.
    pub fn join(&mut self, primary: u32, site: u32) -> Result<(), OutOfMemory>
        requires primary { primary < length self.old.nodes.items }
        requires within { site < length self.old.nodes.items }
        ensures { OnOk result (let w = world_of self.old in world_of self.new ≡ with_node w site (joined (w.nodes primary) primary (w.nodes site))) }
    {
        let line = self.nodes[primary as usize].line;
        let node = &mut self.nodes[site as usize];
        let replay = replay_on(node, &line);
        node.start = node.base.copy(self.alloc)?;
        node.role = Role::Secondary;
        node.mark = Mark::Inconsistent;
        node.line = line;
        node.top = node.top.max(line.generation);
        node.stood.push(line)?;
        node.phase = SPhase::Quiet;
        node.replay = replay;
        node.end = 0;
        node.other = primary;
        node.fed_by = primary;
        node.log.clear();
        node.safe = 0;
        Ok(())
    }
}

// The number of the last replay that the site took on this line, and 0 where it stands on another one.
fn replay_on(node: &Node, line: &Line) -> u64
    ensures { let n = node_of node.now in result ≡ (if same_line n.line line.now then n.replay else 0) }
{
    if node.line.generation == line.generation && node.line.origin == line.origin {
        node.replay
    } else {
        0
    }
}

/// Those of the first `kept` writes that are behind the first `safe`.
pub fn newly_kept(log: &[Write], safe: u64, kept: u64) -> &[Write]
    ensures { result.now ≡ drop safe (take kept log.now) }
{
    let front = &log[..(kept as usize).min(log.len())];
    &front[(safe as usize).min(front.len())..]
}

// The blocks that hold records of a log unit of so many blocks.
pub(crate) fn ring_of(blocks: u64) -> u32
    ensures { result ≡ ring_blocks blocks }
{
    blocks.min(MOST_LOG_BLOCKS).saturating_sub(LOG_HEADERS) as u32
}
