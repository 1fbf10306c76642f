// The tests of a run of blocks.
ghost use Rattle.std.specs.Prelude.{◌≡◌, ◌+◌, Some, nat_lt};
ghost use Rattle.std.specs.Option.{option_copied};
ghost use Rattle.vx_order.specs.Sites.{volume_of, rvg_of};
ghost use Rattle.vx_order.specs.Calls.{takes_calls, call_role, span_role, call_unknown, span_unknown, outgrows, call_size, span_size, call_range, span_range};

use crate::facts::{RvgFacts, SiteFacts, VolumeFacts, VolumeKind};
use crate::sites::{find_rvg, find_volume};
use crate::span::{Span, Way};
use vx_model::limits::MOST_CALL_BLOCKS;
use vx_model::{Named, No, Role};

/// 5, where the volume or its site has not the role for a write or a read.
pub fn refuse_call_role(site: Option<&SiteFacts>, span: &Option<Span>) -> Option<No>
    ensures { result ≡ span_role (option_copied site.entry) span.now }
{
    match span {
        Some(span) => refuse_way(find_rvg(site), find_volume(site, &span.volume), span.way),
        None => None,
    }
}

fn refuse_way(rvg: Option<RvgFacts>, volume: Option<&VolumeFacts>, way: Way) -> Option<No>
    ensures { result ≡ call_role rvg (option_copied volume.entry) way }
{
    match volume {
        Some(volume) if way != Way::Shows && !is_callable(volume.kind, &rvg) => Some(No::Role),
        _ => None,
    }
}

fn is_callable(kind: VolumeKind, rvg: &Option<RvgFacts>) -> bool
    ensures { result ≡ takes_calls kind rvg.now }
{
    match kind {
        VolumeKind::Plain => true,
        VolumeKind::Data => match rvg {
            Some(rvg) => rvg.role == Role::Primary,
            None => false,
        },
        VolumeKind::Srl | VolumeKind::Map => false,
    }
}

/// 1, where the site has no such volume.
pub fn refuse_unknown_volume(site: Option<&SiteFacts>, span: &Option<Span>) -> Option<No>
    ensures { result ≡ span_unknown (option_copied site.entry) span.now }
{
    match span {
        Some(span) => match find_volume(site, &span.volume) {
            Some(_) => None,
            None => Some(No::Unknown {
                what: Named::Of(span.volume),
            }),
        },
        None => None,
    }
}

/// 4, where the count is not from 1 to 16, or the ring is too short for a write.
pub fn refuse_call_size(site: Option<&SiteFacts>, span: &Option<Span>) -> Option<No>
    ensures { result ≡ span_size (option_copied site.entry) span.now }
{
    match span {
        Some(span)
            if span.count == 0
                || span.count > MOST_CALL_BLOCKS
                || span.way == Way::Writes
                    && is_too_long(find_rvg(site), find_volume(site, &span.volume), span.count) => {
            Some(No::Size)
        }
        _ => None,
    }
}

fn is_too_long(rvg: Option<RvgFacts>, volume: Option<&VolumeFacts>, count: u64) -> bool
    ensures { result ≡ outgrows rvg (option_copied volume.entry) count }
{
    match rvg {
        Some(rvg) => match volume {
            Some(volume) => volume.kind == VolumeKind::Data && rvg.ring <= count,
            None => false,
        },
        None => false,
    }
}

/// 3, where the blocks end past the volume.
pub fn refuse_range(site: Option<&SiteFacts>, span: &Option<Span>) -> Option<No>
    ensures { result ≡ span_range (option_copied site.entry) span.now }
{
    match span {
        Some(span) => match find_volume(site, &span.volume) {
            Some(volume) if is_past_end(volume.blocks, span.start, span.count) => Some(No::Range),
            _ => None,
        },
        None => None,
    }
}

fn is_past_end(blocks: u64, start: u64, count: u64) -> bool
    ensures { result ≡ nat_lt blocks (start + count) }
{
    start > blocks || count > blocks - start
}
