// Numbers of variables, as a `u32` holds them.

ghost use Rattle.std.specs.Prelude.{◌≡◌, ◌+◌, ◌<◌, ◌^◌, IfOk};

use std::alloc::AllocError;

/// A place as the number of a variable. An error where a `u32` can't hold it.
pub fn number(place: usize) -> Result<u32, AllocError>
    ensures { IfOk result (λ i. i ≡ place) }
{
    if place > u32::MAX as usize {
        return Err(AllocError);
    }
    Ok(place as u32)
}

/// Whether a `u32` can number so many variables under so many binders.
pub fn fits(variables: u32, binders: u32) -> Result<(), AllocError>
    ensures { IfOk result (λ _. variables + binders < 2 ^ 32) }
{
    if binders > u32::MAX - variables {
        return Err(AllocError);
    }
    Ok(())
}
