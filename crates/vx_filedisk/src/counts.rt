// The failed calls on each of a rack's disks.
ghost use Rattle.std.specs.Prelude.{◌≡◌, ◌≢◌, ◌<◌, ℕ};
ghost use Rattle.vx_disk.specs.Counts.{Rose};
ghost use Rattle.vx_filedisk.specs.Counting.{CountsNoted, counts_of};

use vx_disk::ShelfError;
use vx_model::limits::DISK_PLACES;

/// How many calls on each disk failed. A count stays at its greatest value.
#[derive(Drop)]
pub struct Counts {
    pub each: [u64; DISK_PLACES],
}

impl Counts {
    /// No call failed yet.
    pub fn new() -> Counts
        ensures { (d : ℕ) → counts_of result d ≡ 0 }
    {
        Counts {
            each: [0; DISK_PLACES],
        }
    }

    /// The count of a disk.
    pub fn of(&self, disk: u32) -> u64
        requires { disk < DISK_PLACES }
        ensures { result ≡ counts_of self.now disk }
    {
        self.each[disk as usize]
    }

    /// A call on the disk failed.
    pub fn raise(&mut self, disk: u32)
        requires { disk < DISK_PLACES }
        ensures rose { Rose (counts_of self.old disk) (counts_of self.new disk) }
        ensures others { (d : ℕ) → d ≢ disk → counts_of self.new d ≡ counts_of self.old d }
    {
        let at = disk as usize;
        self.each[at] = self.each[at].saturating_add(1);
    }

    /// A call on the disk was answered so.
    pub fn note(&mut self, disk: u32, answer: &Result<(), ShelfError>)
        requires { disk < DISK_PLACES }
        ensures { CountsNoted disk answer.now (counts_of self.old) (counts_of self.new) }
    {
        if let Err(ShelfError::Fault { disk: _ }) = answer {
            self.raise(disk);
        }
    }
}
