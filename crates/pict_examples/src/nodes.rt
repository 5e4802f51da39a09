// Where the nodes of an example's code come from.

ghost use Rattle.std.specs.Prelude.{◌≤◌, IfSome, length};
ghost use Rattle.pict_syntax.specs.declared.limits.TheConstants.{TEXT_LIMIT};

use pict_front::front;
use pict_outside::Shelf;
use pict_places::{fits, places_of_file};
use pict_syntax::Sources;
use std::alloc::{AllocError, Global};

/// Whether a file is accepted, and the nodes of its code are those that its text tells. The only error is want of memory.
pub fn have_places<S: Shelf>(
    alloc: Global,
    shelf: &mut S,
    prelude: Option<&'static [u8]>,
    name: &str,
) -> Result<bool, AllocError>
    requires short { IfSome prelude (λ bytes. length bytes.now ≤ TEXT_LIMIT) }
{
    let mut sources = Sources::new(alloc);
    match front(alloc, prelude, name, shelf, &mut sources) {
        Ok(front) => {
            let origins = places_of_file(alloc, prelude, name, shelf)?;
            fits(alloc, &front.core, &origins)
        }
        Err(_) => Ok(false),
    }
}
