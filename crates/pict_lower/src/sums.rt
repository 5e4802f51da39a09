// Numbers of nodes and levels.
ghost use Rattle.std.specs.Prelude.{◌≡◌, ◌+◌, IfOk};

use std::alloc::AllocError;

/// The sum. One past 32 bits is want of memory: no store holds so many nodes or variables.
pub fn sum(number: u32, more: u32) -> Result<u32, AllocError>
    ensures { IfOk result (λ s. s ≡ number + more) }
{
    match number.checked_add(more) {
        Some(sum) => Ok(sum),
        None => Err(AllocError),
    }
}
