//! Capacities and loads.
ghost use Rattle.std.specs.Prelude.{◌≡◌, ℕ, ◌<◌, ◌≤◌, ◌^◌, IfSome, IfNone};
ghost use Rattle.sw_table.specs.Sizes.{IsCapacity, room_of};

use sw_ctrl::WIDTH;

pub(crate) const MAX_CAPACITY: usize = 1 << 28;

/// How many slots of each group may be full or deleted.
pub(crate) const GROUP_LOAD: usize = 14;

/// How many entries the slots take without growth, however many were removed before.
#[inline]
pub(crate) fn room_of(capacity: usize) -> usize
    requires { IsCapacity capacity }
    ensures { result ≡ room_of capacity }
{
    25 * capacity / 32
}

/// The smallest capacity whose room is at least `n`, if there is one.
pub(crate) fn capacity_for(n: usize) -> Option<usize>
    ensures capacity { IfSome result (λ c. IsCapacity c × (n ≤ room_of c)) }
    ensures least { IfSome result (λ c. (d : ℕ) → IsCapacity d → n ≤ room_of d → c ≤ d) }
    ensures none { IfNone result (room_of (2 ^ 28) < n) }
{
    if n == 0 {
        return Some(0);
    }
    let mut capacity = WIDTH;
    while room_of(capacity) < n {
        if capacity == MAX_CAPACITY {
            return None;
        }
        capacity *= 2;
    }
    Some(capacity)
}
