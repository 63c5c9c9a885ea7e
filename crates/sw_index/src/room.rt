//! When to make room for keys that are yet to come.
ghost use Rattle.std.specs.Prelude.{◌≡◌, ◌&&◌, ◌-◌, ◌/◌, nat_le};

/// Whether to make room for all `expected` rows: at least an eighth came, and at most one in 64 of these
/// had a key that was there. So the others probably have new keys, and room for all saves growths.
#[inline]
pub fn expects_new_keys(rows: u64, keys: u64, expected: u64) -> bool
    ensures { result ≡ (nat_le (expected / 8) rows && nat_le (rows - rows / 64) keys) }
{
    expected / 8 <= rows && rows - rows / 64 <= keys
}
