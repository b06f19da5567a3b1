//! What a thread counts of what it did.
ghost use Rattle.std.specs.Prelude.{◌≡◌};
ghost use Rattle.soak.specs.Counts.{one_more, sum_of};

use std::fmt;

/// How often a thread did what, and what it found that must not be.
#[derive(Clone, Copy, Debug, Default, PartialEq, Eq)]
pub struct Counts {
    /// 1 where it found all workers there in the beginning.
    pub met: u64,
    /// Sections that it opened.
    pub opened: u64,
    /// Sections that it closed, wherever they were opened.
    pub closed: u64,
    /// Of these, the held ones that another thread had opened.
    pub handed: u64,
    /// Jobs that it queued.
    pub queued: u64,
    /// Jobs that it ran.
    pub run: u64,
    /// Cookies that it asked a grace period for, and polled.
    pub polled: u64,
    /// Calls of `synchronize` that came back.
    pub waited: u64,
    /// Calls of `barrier` that came back.
    pub barriers: u64,
    /// Sections that lay in the mailbox when all had come to an end.
    pub left: u64,
    /// Calls that were refused, as for want of memory, and were made again.
    pub again: u64,
    /// Calls that were refused and not made again, or were refused again.
    pub refused: u64,
    /// Jobs that came out of their order, or twice; and one where the driver told another number than was counted.
    pub misplaced: u64,
    /// Waits that came back too early: a cookie was not done then, or a job not run.
    pub early: u64,
    /// Versions that were read behind the grace period that followed their replacement, and tables that were older than the
    /// one found before. Devices that were used when they were back, and those that came back once more.
    pub stale: u64,
    /// Versions whose words, or tables whose rows, were not those of one put.
    pub torn: u64,
    /// Boxes that it put.
    pub boxes: u64,
    /// Boxes that were not dropped when all had come to an end, or more than once.
    pub lost: u64,
    /// Devices that it inserted.
    pub devices: u64,
    /// Devices that came back.
    pub back: u64,
    /// Uses of devices.
    pub used: u64,
    /// Uses that the devices which came back had counted.
    pub counted: u64,
}

impl Counts {
    /// What two threads did.
    pub fn plus(self, other: Counts) -> Counts
        ensures { result ≡ sum_of self other }
    {
        Counts {
            met: self.met.saturating_add(other.met),
            opened: self.opened.saturating_add(other.opened),
            closed: self.closed.saturating_add(other.closed),
            handed: self.handed.saturating_add(other.handed),
            queued: self.queued.saturating_add(other.queued),
            run: self.run.saturating_add(other.run),
            polled: self.polled.saturating_add(other.polled),
            waited: self.waited.saturating_add(other.waited),
            barriers: self.barriers.saturating_add(other.barriers),
            left: self.left.saturating_add(other.left),
            again: self.again.saturating_add(other.again),
            refused: self.refused.saturating_add(other.refused),
            misplaced: self.misplaced.saturating_add(other.misplaced),
            early: self.early.saturating_add(other.early),
            stale: self.stale.saturating_add(other.stale),
            torn: self.torn.saturating_add(other.torn),
            boxes: self.boxes.saturating_add(other.boxes),
            lost: self.lost.saturating_add(other.lost),
            devices: self.devices.saturating_add(other.devices),
            back: self.back.saturating_add(other.back),
            used: self.used.saturating_add(other.used),
            counted: self.counted.saturating_add(other.counted),
        }
    }
}

/// One more of something. A count stays at the largest number, which no run reaches.
pub fn count(of: &mut u64)
    ensures { of.new ≡ one_more of.old }
{
    *of = of.saturating_add(1);
}

impl fmt::Display for Counts {
    fn fmt<W: fmt::Write>(&self, f: &mut fmt::Formatter<W>) -> fmt::Result {
        writeln!(f, "workers that met all others: {}", self.met)?;
        writeln!(f, "sections opened: {}", self.opened)?;
        writeln!(f, "sections closed: {}", self.closed)?;
        writeln!(f, "jobs queued: {}", self.queued)?;
        writeln!(f, "jobs run: {}", self.run)?;
        writeln!(f, "cookies polled: {}", self.polled)?;
        writeln!(f, "waits for a grace period: {}", self.waited)?;
        writeln!(f, "barriers: {}", self.barriers)?;
        writeln!(f, "sections left in the mailbox: {}", self.left)?;
        writeln!(f, "calls made again: {}", self.again)?;
        writeln!(f, "calls refused: {}", self.refused)?;
        writeln!(f, "jobs misplaced: {}", self.misplaced)?;
        writeln!(f, "waits that were too short: {}", self.early)?;
        writeln!(f, "versions and devices that were too old: {}", self.stale)?;
        writeln!(f, "versions of several pieces: {}", self.torn)?;
        writeln!(f, "boxes that were not dropped once: {}", self.lost)?;
        let strays = self.devices.abs_diff(self.back);
        writeln!(f, "devices that did not come back once: {strays}")?;
        let uncounted = self.used.abs_diff(self.counted);
        write!(f, "uses that the devices did not count: {uncounted}")
    }
}
