// What is done to a replicated volume group over the volumes of a disk group. What writes learns what becomes of each mix of blocks that a crash may leave.
ghost use Rattle.std.specs.Prelude.{◌≡◌, ◌*◌, ◌<◌, ◌≤◌, ℕ, Contains};
ghost use Rattle.vx_disk.specs.Maps.{maps_of};
ghost use Rattle.vx_diskset.specs.Works.{AsksRead, AsksShow, AsksWrite, DoesApply, DoesMake, DoesRead, DoesRewrite, DoesShow, DoesStart, DoesWrite};
ghost use Rattle.vx_model.specs.declared.limits.TheConstants.{LEAST_BLOCKS, LINK_PLACES};
ghost use Rattle.vx_rvg.specs.Starts.{ring_in};
ghost use Rattle.vx_rvg.specs.Views.{IsSound, UnitsPlaced};
ghost use Rattle.vx_srlfmt.specs.Headers.{CanSpellState};

use crate::writing::{apply_group, write_group};
use std::alloc::Global;
use vx_blockwise::Blockwise;
use vx_disk::{Shelf, ShelfError};
use vx_ground::{Work, write_over};
use vx_model::limits::MOST_CALL_BYTES;
use vx_model::{No, State, Stop, Units};
use vx_rvg::{Rvg, RvgCore, StartRoom};
use vx_secondary::{Secondary, Waiting};

/// Blocks that were read, of which those asked for count.
pub(crate) type Room = [u8; MOST_CALL_BYTES as usize];

/// A write.
#[derive(Drop)]
pub(crate) struct Writes<'a> {
    pub core: RvgCore,
    pub volume: u32,
    pub start: u64,
    pub bytes: &'a [u8],
    pub hold: u64,
}

impl<'a> Work for Writes<'a> {
    type Answer = (RvgCore, Result<u64, No>);

    ghost asks = { λ w m. AsksWrite w.core w.volume w.bytes.now m };

    ghost does = { λ w m n r. DoesWrite w.core w.volume w.start w.bytes.now w.hold m r.0 n r.1 };

    fn run<S: Shelf>(self, shelf: S) -> (S, (RvgCore, Result<u64, No>)) {
        let mut rvg = Rvg::together(Blockwise::over(shelf), self.core);
        let answer = write_group(&mut rvg, self.volume, self.start, self.bytes, self.hold);
        let (mixed, core) = rvg.apart();
        (mixed.into_shelf(), (core, answer))
    }
}

/// A read of so many bytes.
#[derive(Drop)]
pub(crate) struct Reads {
    pub core: RvgCore,
    pub volume: u32,
    pub start: u64,
    pub count: usize,
}

impl Work for Reads {
    type Answer = (RvgCore, Room, Result<(), No>);

    ghost asks = { λ w m. AsksRead w.core w.volume w.count m };

    ghost does = { λ w m n r. DoesRead w.core w.volume w.start w.count m r.0 r.1 n r.2 };

    fn run<S: Shelf>(self, shelf: S) -> (S, (RvgCore, Room, Result<(), No>)) {
        let mut rvg = Rvg::together(shelf, self.core);
        let mut room = [0; MOST_CALL_BYTES as usize];
        let answer = rvg.read(self.volume, self.start, &mut room[..self.count]);
        let (shelf, core) = rvg.apart();
        (shelf, (core, room, answer))
    }
}

/// A read of what a receiver has.
#[derive(Drop)]
pub(crate) struct Shows {
    pub core: RvgCore,
    pub waiting: Waiting,
    pub volume: u32,
    pub start: u64,
    pub count: usize,
}

impl Work for Shows {
    type Answer = (RvgCore, Waiting, Room, Result<(), No>);

    ghost asks = { λ w m. AsksShow w.core w.waiting w.volume w.count m };

    ghost does = { λ w m n r. DoesShow w.core w.waiting w.volume w.start w.count m r.0 r.1 r.2 n r.3 };

    fn run<S: Shelf>(self, shelf: S) -> (S, (RvgCore, Waiting, Room, Result<(), No>)) {
        let rvg = Rvg::together(shelf, self.core);
        let mut site = Secondary::together(rvg, self.waiting);
        let mut room = [0; MOST_CALL_BYTES as usize];
        let answer = site.show(self.volume, self.start, &mut room[..self.count]);
        let (rvg, waiting) = site.apart();
        let (shelf, core) = rvg.apart();
        (shelf, (core, waiting, room, answer))
    }
}

/// Logged writes that are brought into their volumes.
#[derive(Drop)]
pub(crate) struct Applies {
    pub core: RvgCore,
    pub to: u64,
}

impl Work for Applies {
    type Answer = (RvgCore, Result<u64, No>);

    ghost asks = { λ w m. IsSound w.core m };

    ghost does = { λ w m n r. DoesApply w.core w.to m r.0 n r.1 };

    fn run<S: Shelf>(self, shelf: S) -> (S, (RvgCore, Result<u64, No>)) {
        let mut rvg = Rvg::together(Blockwise::over(shelf), self.core);
        let answer = apply_group(&mut rvg, self.to);
        let (mixed, core) = rvg.apart();
        (mixed.into_shelf(), (core, answer))
    }
}

/// A replicated volume group that is made of these volumes.
#[derive(Drop)]
pub(crate) struct Makes<'a> {
    pub alloc: Global,
    pub units: &'a Units,
    pub state: State,
}

impl<'a> Work for Makes<'a> {
    type Answer = Result<RvgCore, Stop>;

    ghost asks = { λ w m. UnitsPlaced w.units.now m × (LEAST_BLOCKS ≤ m.size w.units.now.srl) × CanSpellState w.state };

    ghost does = { λ w m n r. DoesMake w.units.now w.state m n r };

    fn run<S: Shelf>(self, shelf: S) -> (S, Result<RvgCore, Stop>) {
        match Rvg::create(self.alloc, shelf, self.units, &self.state) {
            Ok(rvg) => {
                let (shelf, core) = rvg.apart();
                (shelf, Ok(core))
            }
            Err((shelf, stop)) => (shelf, Err(stop)),
        }
    }
}

/// One that is started from what stands on these volumes.
#[derive(Drop)]
pub(crate) struct Starts<'a> {
    pub room: StartRoom,
    pub units: &'a Units,
}

impl<'a> Work for Starts<'a> {
    type Answer = Result<RvgCore, No>;

    ghost asks = { λ w m. UnitsPlaced w.units.now m × (LEAST_BLOCKS ≤ m.size w.units.now.srl) × (w.room.ring ≡ ring_in w.units.now m) × (LINK_PLACES * maps_of w.units.now.vols m ≤ w.room.maps) };

    ghost does = { λ w m n r. DoesStart w.units.now m n r };

    fn run<S: Shelf>(self, shelf: S) -> (S, Result<RvgCore, No>) {
        match Rvg::start_in(self.room, shelf, self.units) {
            Ok(rvg) => {
                let (shelf, core) = rvg.apart();
                (shelf, Ok(core))
            }
            Err((shelf, no)) => (shelf, Err(no)),
        }
    }
}

// Writes each block of these volumes as it reads, one volume after another.
fn rewrite_each<S: Shelf>(shelf: &mut S, volumes: &[u32]) -> Result<(), ShelfError>
    requires { (u : ℕ) → Contains volumes.now u → u < (S.meaning shelf.old).units }
    ensures { DoesRewrite volumes.now (S.meaning shelf.old) (S.meaning shelf.new) result }
{
    for k in 0..volumes.len() {
        match write_over(shelf, volumes[k]) {
            Ok(()) => {}
            Err(error) => return Err(error),
        }
    }
    Ok(())
}

/// Data volumes of which each block is written as it reads.
#[derive(Drop)]
pub(crate) struct Rewrites<'a> {
    pub volumes: &'a [u32],
}

impl<'a> Work for Rewrites<'a> {
    type Answer = Result<(), ShelfError>;

    ghost asks = { λ w m. (u : ℕ) → Contains w.volumes.now u → u < m.units };

    ghost does = { λ w m n r. DoesRewrite w.volumes.now m n r };

    fn run<S: Shelf>(self, shelf: S) -> (S, Result<(), ShelfError>) {
        let mut shelf = shelf;
        let answer = rewrite_each(&mut shelf, self.volumes);
        (shelf, answer)
    }
}
