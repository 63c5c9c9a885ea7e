//! Budgets.
ghost use Rattle.std.specs.Prelude.{◌≡◌, ◌↔◌, ◌≤◌, IfSome, IsSome};

/// How many groups may be kept in memory at once: 1 to 1,048,576.
#[derive(Clone, Copy, Debug, PartialEq, Eq)]
pub struct Budget {
    entries: u32,
    ghost some: { 1 ≤ entries },
    ghost few: { entries ≤ 1_048_576 },
}

impl Budget {
    ghost use Rattle.std.specs.Prelude.{◌≡◌, ◌↔◌, ◌≤◌, IfSome, IsSome};

    /// The budget of a number; None if it is 0 or more than 1,048,576.
    pub fn new(entries: u32) -> Option<Budget>
        ensures is { IfSome result (λ budget. budget.entries ≡ entries) }
        ensures when { IsSome result ↔ ((1 ≤ entries) × (entries ≤ 1_048_576)) }
    {
        if entries == 0 || entries > 1_048_576 {
            return None;
        }
        Some(Budget { entries })
    }

    #[inline]
    pub fn entries(self) -> u32
        ensures is { result ≡ self.entries }
        ensures some { 1 ≤ result }
        ensures few { result ≤ 1_048_576 }
    {
        self.entries
    }
}
