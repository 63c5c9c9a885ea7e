//! Truth values.
ghost use Rattle.std.specs.Prelude.{◌≡◌};
ghost use Rattle.gq_select.specs.Truths.{decided, is_true};

/// SQL's truth values: a comparison with null is neither true nor false.
#[derive(Clone, Copy, Debug, PartialEq, Eq)]
pub enum Truth {
    True,
    False,
    Unknown,
}

impl Truth {
    /// Whether it is true: neither false nor unknown.
    #[inline]
    pub fn is_true(self) -> bool
        ensures { result ≡ is_true self }
    {
        matches!(self, Truth::True)
    }

    // The truth of an answer that is known.
    #[inline]
    pub(crate) fn decided(answer: bool) -> Truth
        ensures { result ≡ decided answer }
    {
        if answer { Truth::True } else { Truth::False }
    }
}
