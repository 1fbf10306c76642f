// Notes in the maps of missed regions of a volume.
ghost use Rattle.std.specs.Prelude.{◌≡◌, ◌≤◌, ◌<◌, IfErr, OnOk, false, true};
ghost use Rattle.vx_bitmap.specs.Bits.{AllAre};
ghost use Rattle.vx_bitmap.specs.Maps.{UnitCause};
ghost use Rattle.vx_disk.specs.Causes.{DeviceCause};
ghost use Rattle.vx_disk.specs.Shelf.{Goes};
ghost use Rattle.vx_fmr.specs.Missed.{has_missed};
ghost use Rattle.vx_logs.specs.Noting.{FmrAnswers, FmrAt, FmrHas, FmrKeeps, FmrNoted, FmrReady, FmrStill, IsMissedMap, IsStill, NotedAt, SameFmr, this_plex, is_one};

use crate::sets::is_in;
use vx_disk::Shelf;
use vx_fmr::Fmr;
use vx_model::No;
use vx_model::limits::MOST_PLEXES;

// Notes a run of regions in the map of a plex, which begins anew or goes on.
fn note_one<S: Shelf>(
    map: &mut Fmr,
    shelf: &mut S,
    plex: u32,
    anew: bool,
    first: u64,
    last: u64,
) -> Result<(), No>
    requires has { IsMissedMap last map.old (S.meaning shelf.old) }
    requires exists { plex < map.old.plexes }
    requires some { first ≤ last }
    ensures writes { Goes (NotedAt (this_plex plex) anew first last map.old (S.meaning shelf.old)) (S.meaning shelf.old) (S.meaning shelf.new) }
    ensures ok { OnOk result (FmrNoted (this_plex plex) anew first last map.old map.new (S.meaning shelf.old) (S.meaning shelf.new)) }
    ensures same { SameFmr map.old map.new }
    ensures unit { UnitCause map.old.map.unit (S.meaning shelf.old) (S.meaning shelf.new) result }
    ensures cause { IfErr result (DeviceCause (S.meaning shelf.old) (S.meaning shelf.new)) }
    ensures nothing { anew ≡ false → AllAre first last true (has_missed map.old plex) → shelf.new ≡ shelf.old }
{
    if !anew {
        return map.note(shelf, plex, first, last);
    }
    match map.begin(shelf, plex) {
        Ok(()) => map.note(shelf, plex, first, last),
        Err(no) => Err(no),
    }
}

// The same in the maps of all plexes of a set.
fn note_plexes<S: Shelf>(
    map: &mut Fmr,
    shelf: &mut S,
    set: u8,
    anew: bool,
    first: u64,
    last: u64,
) -> Result<(), No>
    requires has { FmrHas set last map.old (S.meaning shelf.old) }
    requires some { first ≤ last }
    ensures writes { Goes (NotedAt (is_one set) anew first last map.old (S.meaning shelf.old)) (S.meaning shelf.old) (S.meaning shelf.new) }
    ensures ok { OnOk result (FmrNoted (is_one set) anew first last map.old map.new (S.meaning shelf.old) (S.meaning shelf.new)) }
    ensures same { SameFmr map.old map.new }
    ensures unit { UnitCause map.old.map.unit (S.meaning shelf.old) (S.meaning shelf.new) result }
    ensures cause { IfErr result (DeviceCause (S.meaning shelf.old) (S.meaning shelf.new)) }
    ensures nothing { IsStill set anew first last map.old → shelf.new ≡ shelf.old }
{
    for plex in 0..MOST_PLEXES as u32 {
        if is_in(set, plex) {
            match note_one(map, shelf, plex, anew, first, last) {
                Ok(()) => {}
                Err(no) => return Err(no),
            }
        }
    }
    Ok(())
}

/// Notes the regions from `first` to `last`, both included, durably in the map of each plex of a set, where there is a log. Where a map
/// begins anew it has no others then. Answers whether the log was lost. It makes no device call where no map begins anew and all are noted.
///
/// Refusal 6, where the shelf is down.
pub(crate) fn note_missed<S: Shelf>(
    fmr: &mut Option<Fmr>,
    shelf: &mut S,
    set: u8,
    anew: bool,
    first: u64,
    last: u64,
) -> Result<bool, No>
    requires ready { FmrReady set last fmr.old (S.meaning shelf.old) }
    requires some { first ≤ last }
    ensures writes { Goes (FmrAt (is_one set) anew first last fmr.old (S.meaning shelf.old)) (S.meaning shelf.old) (S.meaning shelf.new) }
    ensures answers { FmrAnswers (is_one set) anew first last fmr.old fmr.new (S.meaning shelf.old) (S.meaning shelf.new) result }
    ensures keeps { FmrKeeps fmr.old fmr.new }
    ensures nothing { FmrStill set anew first last fmr.old → shelf.new ≡ shelf.old }
{
    match fmr {
        Some(map) => match note_plexes(map, shelf, set, anew, first, last) {
            Ok(()) => Ok(false),
            Err(No::Device { .. }) => {
                *fmr = None;
                Ok(true)
            }
            Err(no) => Err(no),
        },
        None => Ok(false),
    }
}
