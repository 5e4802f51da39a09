// What an accepted text is made into.

use pict_core::Core;
use pict_syntax::Names;

/// A program's core process, and the names whose numbers it has.
#[derive(Drop)]
pub struct Front {
    pub core: Core,
    pub names: Names,
}
