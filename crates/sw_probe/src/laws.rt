//! Laws: what the definitions imply. Each is the contract of a function that does nothing.
ghost use Rattle.std.specs.Prelude.{◌≡◌, ◌↔◌, ℕ, ◌^◌, ◌≤◌};
ghost use Rattle.sw_probe.specs.Order.{IsGroupCount, VisitsOnce, VisitsAll};

use crate::hashers::Direct;
use crate::keyed::{KeyHash, Keyed, Names};

/// The numbers of groups that a table may have are the powers of two up to 2^24.
pub fn group_counts(groups: usize)
    ensures { IsGroupCount groups ↔ ((k : ℕ) × (k ≤ 24) × (groups ≡ 2 ^ k)) }
{
    let _ = groups;
}

/// Distinct steps of a probe sequence have distinct groups.
pub fn comes_once(start: u64, groups: usize)
    requires { IsGroupCount groups }
    ensures { VisitsOnce start groups }
{
    let _ = (start, groups);
}

/// Each group is that of some step of a probe sequence.
pub fn comes_everywhere(start: u64, groups: usize)
    requires { IsGroupCount groups }
    ensures { VisitsAll start groups }
{
    let _ = (start, groups);
}

/// The hashes of two values that name keys, each a key or a borrowed form. If both name one class the hashes
/// are equal, for every hasher.
pub fn hash_both<K: Keyed, P: Names<K>, Q: Names<K>, H: KeyHash<K>>(
    hasher: &H,
    one: &P,
    other: &Q,
) -> (u64, u64)
    ensures one { result.0 ≡ H.hash_of hasher.now (P.named one.now) }
    ensures other { result.1 ≡ H.hash_of hasher.now (Q.named other.now) }
    ensures alike { P.named one.now ≡ Q.named other.now → result.0 ≡ result.1 }
{
    (hasher.hash(one), hasher.hash(other))
}

/// `Direct` hashes a number to itself.
pub fn direct_is_the_key(key: u64) -> u64
    ensures { result ≡ key }
{
    Direct.hash(&key)
}
