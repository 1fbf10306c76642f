// A group as the shelf of its volumes, with an account of its calls.
ghost use Rattle.std.specs.Prelude.{◌≡◌, ℕ};
ghost use Rattle.vx_ground.specs.Accounts.{GroundSince, ground_state};

use crate::calls::{flush_few, write_few};
use crate::founding::Founding;
use std::marker::PhantomData;
use vx_disk::{Shelf, ShelfError};
use vx_loggroup::LoggedGroup;

/// A group over a rack, and what its calls made of its configuration and of its disks since the first of them.
#[derive(Drop)]
pub struct Ground<S: Shelf, B: Founding> {
    pub group: LoggedGroup<S>,
    pub of: PhantomData<B>,
    pub ghost counts: { (s : S) (d : ℕ) → (S.meaning s).disk_faults d ≡ (S.meaning s).faults d },
    pub ghost since: { GroundSince B.state B.disks (ground_state group.core) (S.meaning group.shelf) },
}

impl<S: Shelf, B: Founding> Ground<S, B> {
    /// Begins the account, or goes on with it. It makes no device call.
    pub fn over(group: LoggedGroup<S>) -> Ground<S, B>
        requires counts { (s : S) (d : ℕ) → (S.meaning s).disk_faults d ≡ (S.meaning s).faults d }
        requires since { GroundSince B.state B.disks (ground_state group.core) (S.meaning group.shelf) }
        ensures { result.group ≡ group }
    {
        Ground {
            group,
            of: PhantomData,
        }
    }

    /// Hands the group out, with the account. It makes no device call.
    pub fn into_group(self) -> LoggedGroup<S>
        ensures group { result ≡ self.group }
        ensures since { GroundSince B.state B.disks (ground_state result.core) (S.meaning result.shelf) }
    {
        self.group
    }
}

impl<S: Shelf, B: Founding> Shelf for Ground<S, B> {
    ghost use Rattle.vx_group.specs.Holding.{wide};
    ghost use Rattle.vx_group.specs.Laws.{group_lawful};
    ghost use Rattle.vx_group.specs.Stands.{inner_meaning};

    ghost meaning = { λ g. inner_meaning (wide g.group.core) (S.meaning g.group.shelf) };

    fn units(&self) -> u32 {
        self.group.units()
    }

    fn size(&self, unit: u32) -> u64 {
        self.group.size(unit)
    }

    fn read(&mut self, unit: u32, block: u64, into: &mut [u8]) -> Result<(), ShelfError> {
        self.group.read(unit, block, into)
    }

    fn write(&mut self, unit: u32, block: u64, bytes: &[u8]) -> Result<(), ShelfError> {
        write_few(&mut self.group, unit, block, bytes)
    }

    fn flush(&mut self, unit: u32) -> Result<(), ShelfError> {
        flush_few(&mut self.group, unit)
    }

    fn faults(&self, unit: u32) -> u64 {
        self.group.faults(unit)
    }

    fn is_down(&self) -> bool {
        self.group.is_down()
    }

    ghost lawful = { λ g. group_lawful (wide g.group.core) (S.meaning g.group.shelf) (S.lawful g.group.shelf) g.group.stands.group.stands };
}
