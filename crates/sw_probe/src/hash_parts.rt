//! The two parts of a hash.
ghost use Rattle.std.specs.Prelude.{◌≡◌};
ghost use Rattle.sw_probe.specs.Order.{h1_of, h2_of};

/// The part of a hash that selects the first group: all but its seven lowest bits.
#[inline]
pub fn h1(hash: u64) -> u64
    ensures { result ≡ h1_of hash }
{
    hash >> 7
}

/// The part of a hash that is in the control byte: its seven lowest bits.
#[inline]
pub fn h2(hash: u64) -> u8
    ensures { result ≡ h2_of hash }
{
    (hash & 0x7f) as u8
}
