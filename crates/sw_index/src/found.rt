//! Results of look-ups.

/// The number of a key, or that it is absent. It borrows nothing, and is valid until keys are added or removed.
#[derive(Clone, Copy)]
pub enum Found {
    /// The number of the key, counted from 0 in insertion order.
    At(usize),
    /// No key is of the class.
    Absent(Absence),
}

/// A class that no key is of, as its hash.
#[derive(Clone, Copy)]
pub struct Absence {
    pub(crate) hash: u64,
}

impl Absence {
    ghost use Rattle.std.specs.Prelude.{◌≡◌};

    /// The hash of the class.
    #[inline]
    pub fn hash(self) -> u64
        ensures { result ≡ self.hash }
    {
        self.hash
    }
}
