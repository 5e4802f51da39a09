// Closing what was opened: scopes, groups and patterns.

ghost use Rattle.std.specs.Prelude.{◌≡◌, ◌++◌, IfOk, OnOk};
ghost use Rattle.pict_scope.specs.Reads.{Moves};
ghost use Rattle.pict_scope.specs.Steps.{ClosesGroup, ClosesPattern, GoesBack, IsAt, OpensGroup, OpensPattern, enters};

use crate::reader::{Opened, Place, Reader};
use pict_binders::{Binder, Binders};
use std::alloc::AllocError;

/// How many binders there are around the place. Takes no memory.
pub fn place(r: &Reader) -> Place
    ensures { IsAt result r.now }
{
    Place {
        values: r.values.len(),
        types: r.types.len(),
    }
}

/// Forgets the binders inside a place. Takes no memory.
pub fn go_back(r: &mut Reader, place: Place)
    ensures { GoesBack place r.old r.new }
{
    r.values.cut(place.values);
    r.types.cut(place.types);
}

/// Opens a group of names. Takes no memory.
pub fn open_group(r: &mut Reader) -> usize
    ensures { OpensGroup result r.old r.new }
{
    r.group.open()
}

/// Closes a group of names, inside the group that has so many. Takes no memory.
pub fn close_group(r: &mut Reader, outer: usize)
    ensures { ClosesGroup outer r.old r.new }
{
    r.group.close(outer);
}

/// Opens a pattern. Takes no memory.
pub fn open_pattern(r: &mut Reader) -> Place
    ensures { OpensPattern result r.old r.new }
{
    Place {
        values: r.pattern_values.open(),
        types: r.pattern_types.open(),
    }
}

/// Closes a pattern, inside the pattern that has so many binders, and gives what it binds. The only error is want of
/// memory.
pub fn close_pattern(r: &mut Reader, outer: Place) -> Result<Opened, AllocError>
    ensures { IfOk result (λ opened. ClosesPattern outer opened r.old r.new) }
{
    let values = r.pattern_values.take(r.alloc, outer.values)?;
    let types = r.pattern_types.take(r.alloc, outer.types)?;
    Ok(Opened { values, types })
}

/// Binds what a pattern binds. The only error is want of memory.
pub fn enter(r: &mut Reader, opened: Opened) -> Result<(), AllocError>
    ensures { OnOk result (Moves (enters opened) r.old r.new) }
{
    bind_each(&mut r.values, opened.values)?;
    bind_each(&mut r.types, opened.types)
}

/// Binds these, the last one first. The only error is want of memory.
fn bind_each(binders: &mut Binders, mut bound: Vec<Binder>) -> Result<(), AllocError>
    ensures { OnOk result (binders.new ≡ bound.items ++ binders.old) }
{
    while let Some(binder) = bound.pop() {
        binders.bind(binder)?;
    }
    Ok(())
}
