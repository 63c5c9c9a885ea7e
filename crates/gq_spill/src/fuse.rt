//! The countdown to a call that goes wrong.
ghost use Rattle.std.specs.Prelude.{◌≡◌, ◌+◌, ◌↔◌, true, false, IsTrue};
ghost use Rattle.gq_spill.specs.Runs.{one_if};
ghost use Rattle.gq_spill.specs.Fuses.{reads_whole, has_failed};

/// The number of calls until one goes wrong, or that one did.
#[derive(Clone, Copy, Debug, PartialEq, Eq)]
pub enum Fuse {
    Fails(u64),
    Failed,
    Shortens(u64),
    Shortened,
}

impl Fuse {
    // Counts a call, and returns whether it is the one that fails.
    pub(crate) fn fails(&mut self) -> bool
        ensures now { IsTrue result ↔ (self.old ≡ Fuse.Fails 1) }
        ensures whole { reads_whole self.new ≡ reads_whole self.old }
        ensures failed { one_if (has_failed self.new) ≡ one_if (has_failed self.old) + one_if result }
    {
        match *self {
            Fuse::Fails(1) => {
                *self = Fuse::Failed;
                true
            }
            Fuse::Fails(left) => {
                *self = Fuse::Fails(left.saturating_sub(1));
                false
            }
            _ => false,
        }
    }

    // Counts a read that returns bytes, and returns whether it is the one to return one byte less.
    pub(crate) fn shortens(&mut self) -> bool
        ensures now { IsTrue result ↔ (self.old ≡ Fuse.Shortens 1) }
        ensures whole { reads_whole self.new ≡ reads_whole self.old }
        ensures failed { has_failed self.new ≡ has_failed self.old }
    {
        match *self {
            Fuse::Shortens(1) => {
                *self = Fuse::Shortened;
                true
            }
            Fuse::Shortens(left) => {
                *self = Fuse::Shortens(left.saturating_sub(1));
                false
            }
            _ => false,
        }
    }
}
