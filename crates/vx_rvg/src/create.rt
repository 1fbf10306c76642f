// The making of a group.
ghost use Rattle.std.specs.Prelude.{◌≡◌, ℕ, ◌+◌, ◌<◌, ◌≤◌, List, Err, IfOk, IfErr, IsTrue};
ghost use Rattle.vx_disk.specs.Causes.{Works};
ghost use Rattle.vx_disk.specs.Moves.{Moves, Run, Anything};
ghost use Rattle.vx_model.specs.Content.{Content};
ghost use Rattle.vx_model.specs.Sizes.{ring_of};
ghost use Rattle.vx_model.specs.declared.errors.Stop.TheVariants.{No as Refused};
ghost use Rattle.vx_model.specs.declared.no.No.TheVariants.{Size};
ghost use Rattle.vx_disk.specs.Spends.{Spends};
ghost use Rattle.vx_rvg.specs.Groups.{new_core, MakeCause};
ghost use Rattle.vx_rvg.specs.Holdings.{nothing_logged};
ghost use Rattle.vx_rvg.specs.Stands.{HoldsContent, Stands};
ghost use Rattle.vx_rvg.specs.Views.{UnitsPlaced};
ghost use Rattle.vx_srlfmt.specs.Headers.{CanSpellState};

use crate::{Rvg, RvgCore};
use std::alloc::Global;
use vx_dcm::{Dcm, DcmRoom, room_blocks};
use vx_disk::Shelf;
use vx_model::limits::LEAST_BLOCKS;
use vx_model::{No, State, Stop, Units, ring_blocks};
use vx_overlay::Overlay;
use vx_srl::Srl;

impl<S: Shelf> Rvg<S> {
    /// Makes a group with an empty log over these units, of which the data volumes and the change maps stay as they are.
    ///
    /// Answers 4 exactly where the log's unit has fewer than 8 blocks, and changes nothing then; else 7 where a device call failed,
    /// 6 where the shelf is down, or want of memory. Whatever it refuses, the shelf comes back.
    pub fn create(
        alloc: Global,
        shelf: S,
        units: &Units,
        state: &State,
    ) -> Result<Rvg<S>, (S, Stop)>
        requires placed { UnitsPlaced units.now (S.meaning shelf) }
        requires state { CanSpellState state.now }
        ensures small { (S.meaning shelf).size units.now.srl < LEAST_BLOCKS → result ≡ Err (shelf, Refused Size) }
        ensures core { IfOk result (λ g. g.core ≡ new_core units.now state.now (ring_of ((S.meaning shelf).size units.now.srl)) g.core.maps) }
        ensures stands { IfOk result (λ g. IsTrue (S.meaning shelf).tells → (c : Content) (maps : List (List ℕ)) → HoldsContent units.now c maps (S.meaning shelf) → Stands g.core (nothing_logged c maps) (S.meaning g.shelf)) }
        ensures up { IfOk result (λ g. IsTrue (S.meaning g.shelf).down → ⊥) }
        ensures moves { IfOk result (λ g. Moves (Run units.now.srl 0 (ring_of ((S.meaning shelf).size units.now.srl) + 2)) Anything (S.meaning shelf) (S.meaning g.shelf)) }
        ensures cause { LEAST_BLOCKS ≤ (S.meaning shelf).size units.now.srl → IfErr result (λ e. MakeCause (S.meaning shelf) (S.meaning e.0) e.1) }
        ensures left { IfErr result (λ e. Moves (Run units.now.srl 0 (ring_of ((S.meaning shelf).size units.now.srl) + 2)) Anything (S.meaning shelf) (S.meaning e.0)) }
        ensures spends { IfOk result (λ g. Spends (S.meaning shelf) (S.meaning g.shelf)) }
        ensures spent { IfErr result (λ e. Spends (S.meaning shelf) (S.meaning e.0)) }
        ensures works { IfOk result (λ g. Works (S.meaning shelf).disks units.now.srl) }
    {
        let mut shelf = shelf;
        let blocks = shelf.size(units.srl);
        if blocks < LEAST_BLOCKS {
            return Err((shelf, Stop::No(No::Size)));
        }
        let room = ring_blocks(blocks);
        let pending = match Overlay::new(alloc, room) {
            Ok(pending) => pending,
            Err(_) => return Err((shelf, Stop::OutOfMemory)),
        };
        let Ok(maps) = DcmRoom::new(alloc, room_blocks(units, &shelf)) else {
            return Err((shelf, Stop::OutOfMemory));
        };
        let srl = match Srl::create(alloc, &mut shelf, units.srl, state, 0) {
            Ok(srl) => srl,
            Err(stop) => return Err((shelf, stop)),
        };
        match Dcm::load_in(maps, &mut shelf, units) {
            Ok(maps) => Ok(Rvg {
                shelf,
                core: RvgCore {
                    units: units.copy(),
                    srl,
                    maps,
                    pending,
                    applied: 0,
                    halted: None,
                },
            }),
            Err(no) => Err((shelf, Stop::No(no))),
        }
    }
}
