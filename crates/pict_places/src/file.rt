// The nodes of a file's code, with the texts that it reaches.

ghost use Rattle.std.specs.Prelude.{◌≤◌, IfSome, length};
ghost use Rattle.pict_syntax.specs.declared.limits.TheConstants.{TEXT_LIMIT};

use crate::nodes::places;
use crate::origin::Origin;
use pict_gather::{GatherError, gather};
use pict_outside::Shelf;
use pict_syntax::Sources;
use std::alloc::{AllocError, Global};

/// Where each node of the code of a file comes from, with the texts that it reaches by its imports, behind a prelude where there is
/// one; nothing where these can't be had or are refused. The only error is want of memory.
pub fn places_of_file<S: Shelf>(
    alloc: Global,
    prelude: Option<&[u8]>,
    file: &str,
    shelf: &mut S,
) -> Result<Vec<Origin>, AllocError>
    requires short { IfSome prelude (λ bytes. length bytes.now ≤ TEXT_LIMIT) }
{
    let mut sources = Sources::new(alloc);
    match gather(alloc, prelude, file, shelf, &mut sources) {
        Ok(gathering) => places(alloc, &gathering.decs),
        Err(GatherError::Memory) => Err(AllocError),
        Err(_) => Ok(Vec::new(alloc)),
    }
}
