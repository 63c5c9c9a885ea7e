//! The seed of a run.
ghost use Rattle.std.specs.Prelude.{◌≡◌};
ghost use Rattle.gq_shell.specs.Program.{DrawsFor};
ghost use Rattle.gq_shell.specs.Session.{number_of};

use gq_options::Seed;
use std::io;
use std::random::RandomSource;

/// The seed of a run's hash, and where it comes from.
#[derive(Clone, Copy)]
pub enum RunSeed {
    /// It was given.
    Given(u64),
    /// It was drawn from the system, so the report shows it.
    Drawn(u64),
}

/// The seed that was asked for. An error is that of the source, of which a seed that was given takes
/// nothing.
pub fn draw<N: RandomSource>(asked: Seed, source: &N) -> io::Result<RunSeed>
    ensures { DrawsFor asked result }
{
    match asked {
        Seed::Number(number) => Ok(RunSeed::Given(number)),
        Seed::Random => {
            let mut bytes = [0; 8];
            source.fill_bytes(&mut bytes)?;
            Ok(RunSeed::Drawn(u64::from_le_bytes(bytes)))
        }
    }
}

impl RunSeed {
    /// The number.
    pub fn number(self) -> u64
        ensures { result ≡ number_of self }
    {
        match self {
            RunSeed::Given(number) | RunSeed::Drawn(number) => number,
        }
    }
}
