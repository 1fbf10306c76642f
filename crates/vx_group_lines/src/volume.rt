// The line that makes a volume of a disk group.
ghost use Rattle.std.specs.Prelude.{◌≡◌, ◌<◌, ◌≤◌, ℕ, IfOk, IfSome, IsSome, true};
ghost use Rattle.vx_history.specs.Doubts.{Doubted};
ghost use Rattle.vx_events.specs.GroupLines.{layout_columns, layout_width, preferred_plex, shape_of as shape_is};
ghost use Rattle.vx_script.specs.declared.line.Layout.{Layout as LayoutValue};
ghost use Rattle.vx_script.specs.declared.line.ReadPolicy.{ReadPolicy as PolicyValue};
ghost use Rattle.vx_script.specs.declared.line.ScriptLine.TheVariants.{Volume};
ghost use Rattle.vx_script.specs.declared.line.VolumeLog.{VolumeLog as LogValue};
ghost use Rattle.vx_script.specs.declared.line.VolumeMap.{VolumeMap as MapValue};
ghost use Rattle.vx_events.specs.Facts.{seat_of};
ghost use Rattle.vx_events.specs.RvgSteps.{over_rvg_at};
ghost use Rattle.vx_events.specs.StepsOver.{is_for_group};
ghost use Rattle.vx_yard.specs.AboveLines.{LeadsAboveIs};
ghost use Rattle.vx_yard.specs.OfSites.{AsAsked, HasCalled};
ghost use Rattle.vx_yard.specs.Standing.{LeadsOverIs, StandsFor};
ghost use Rattle.vx_yard.specs.Working.{IsFree};
ghost use Rattle.vx_yard.specs.Yards.{IsYardKept, IsTold, in_files};

use crate::noting::{group_stopped, note_volumes};
use std::alloc::Global;
use vx_disk::Rack;
use vx_events::Said;
use vx_layout::Shape;
use vx_model::{Name, OutOfMemory};
use vx_order::VolumeRoom;
use vx_script::{Layout, ReadPolicy, VolumeLog, VolumeMap};
use vx_yard::Yard;

// The columns of a layout, and the blocks of their units.
fn columns_of(layout: &Layout) -> (u32, u32)
    requires columns { layout_columns layout.now ≤ 0xffff_ffff }
    requires width { layout_width layout.now ≤ 0xffff_ffff }
    ensures { result ≡ (layout_columns layout.now, layout_width layout.now) }
{
    match layout {
        Layout::Concat => (1, 0),
        Layout::Stripe { columns, width } => (*columns as u32, *width as u32),
    }
}

// The plex that reads begin at.
fn prefer_of(policy: &ReadPolicy) -> Option<u32>
    requires { IfSome (preferred_plex policy.now) (λ plex. plex ≤ 0xffff_ffff) }
    ensures { result ≡ preferred_plex policy.now }
{
    match policy {
        ReadPolicy::Round => None,
        ReadPolicy::Prefer { plex } => Some(*plex as u32),
    }
}

/// What a line asks of a new volume.
pub(crate) fn shape_of(
    blocks: u64,
    mirrors: u64,
    layout: &Layout,
    log: &VolumeLog,
    map: &VolumeMap,
    policy: &ReadPolicy,
) -> Shape
    requires mirrors { mirrors ≤ 0xffff_ffff }
    requires columns { layout_columns layout.now ≤ 0xffff_ffff }
    requires width { layout_width layout.now ≤ 0xffff_ffff }
    requires prefer { IfSome (preferred_plex policy.now) (λ plex. plex ≤ 0xffff_ffff) }
    ensures { result ≡ shape_is blocks mirrors layout.now log.now map.now policy.now }
{
    let (ncol, width) = columns_of(layout);
    Shape {
        blocks,
        mirrors: mirrors as u32,
        ncol,
        width,
        drl: matches!(log, VolumeLog::Drl),
        fmr: matches!(map, VolumeMap::Fmr),
        prefer: prefer_of(policy),
    }
}

/// Makes a volume of a shape, which begins as zeros.
pub fn volume_line<R: Rack>(
    yard: &mut Yard<R>,
    alloc: Global,
    name: &Name,
    volume: &Name,
    want: &Shape,
) -> Result<Said, OutOfMemory>
    requires kept { IsYardKept yard.old }
    requires named { IsSome (seat_of yard.old.facts.items name.now) }
    requires prefer { IfSome want.now.prefer (λ p. p < want.now.mirrors) }
    ensures leads { (d : Doubted) (blocks mirrors : ℕ) (layout : LayoutValue) (log : LogValue) (map : MapValue) (policy : PolicyValue) → StandsFor d yard.old → want.now ≡ shape_is blocks mirrors layout log map policy → IsFree yard.old (Volume name.now volume.now blocks mirrors layout log map policy) → is_for_group d.world (Volume name.now volume.now blocks mirrors layout log map policy) ≡ true → LeadsOverIs d (Volume name.now volume.now blocks mirrors layout log map policy) yard.old yard.new result }
    ensures above { (d : Doubted) (blocks mirrors : ℕ) (layout : LayoutValue) (log : LogValue) (map : MapValue) (policy : PolicyValue) → StandsFor d yard.old → want.now ≡ shape_is blocks mirrors layout log map policy → IsFree yard.old (Volume name.now volume.now blocks mirrors layout log map policy) → over_rvg_at d.world name.now ≡ true → LeadsAboveIs d (Volume name.now volume.now blocks mirrors layout log map policy) yard.old yard.new result }
    ensures asked { (d : Doubted) (blocks mirrors : ℕ) (layout : LayoutValue) (log : LogValue) (map : MapValue) (policy : PolicyValue) → StandsFor d yard.old → want.now ≡ shape_is blocks mirrors layout log map policy → IsFree yard.old (Volume name.now volume.now blocks mirrors layout log map policy) → is_for_group d.world (Volume name.now volume.now blocks mirrors layout log map policy) ≡ true → AsAsked d.world (Volume name.now volume.now blocks mirrors layout log map policy) yard.old yard.new }
    ensures called { (d : Doubted) (blocks mirrors : ℕ) (layout : LayoutValue) (log : LogValue) (map : MapValue) (policy : PolicyValue) → StandsFor d yard.old → want.now ≡ shape_is blocks mirrors layout log map policy → IsFree yard.old (Volume name.now volume.now blocks mirrors layout log map policy) → is_for_group d.world (Volume name.now volume.now blocks mirrors layout log map policy) ≡ true → IfOk result (λ said. HasCalled d.world (Volume name.now volume.now blocks mirrors layout log map policy) said yard.old yard.new) }
    ensures told { IsTold yard.new → IsTold yard.old }
    ensures files { in_files yard.new ≡ in_files yard.old }
{
    let room = VolumeRoom::new(alloc)?;
    let site = yard.site_of(name);
    match yard.disk_sets[site].make_volume(alloc, volume, want) {
        Ok(_) => {
            note_volumes(yard, site, room);
            Ok(Said::Done)
        }
        Err(stop) => group_stopped(yard, alloc, site, stop),
    }
}
