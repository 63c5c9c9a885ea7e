//! What a control byte means.
ghost use Rattle.std.specs.Prelude.{◌≡◌};
ghost use Rattle.sw_ctrl.specs.Bytes.{is_full};

/// The byte of a slot that is vacant, and at whose group look-ups stop.
pub const EMPTY: u8 = 0x80;

/// The byte of a slot whose entry was removed, past which look-ups go on.
pub const DELETED: u8 = 0xfe;

/// Whether the slot of a control byte has an entry.
#[inline]
pub fn is_full(byte: u8) -> bool
    ensures { result ≡ is_full byte }
{
    byte < EMPTY
}
