//! The memory blocks of a table.
ghost use Rattle.std.specs.Prelude.{◌≡◌, ◌%◌, None, replicate, IfOk, IsOk};
ghost use Rattle.sw_ctrl.specs.declared.control.TheConstants.{EMPTY};

use std::alloc::{AllocError, Global};
use sw_ctrl::Ctrl;
use sw_slots::Slots;

/// The slots of a table and their control bytes, all empty. The bytes are written only once both blocks are
/// allocated. No slots take no memory.
pub(crate) fn new_blocks<T>(alloc: Global, capacity: usize) -> Result<(Slots<T>, Ctrl), AllocError>
    requires { capacity % 16 ≡ 0 }
    ensures slots { IfOk result (λ blocks. blocks.0 ≡ replicate capacity None) }
    ensures bytes { IfOk result (λ blocks. blocks.1 ≡ replicate capacity EMPTY) }
    ensures no_memory { capacity ≡ 0 → IsOk result }
{
    let slots = Slots::new(alloc, capacity)?;
    match Ctrl::new(alloc, capacity) {
        Ok(ctrl) => Ok((slots, ctrl)),
        Err(refused) => {
            slots.release();
            Err(refused)
        }
    }
}
