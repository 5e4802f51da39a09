// Binders by their places in reading order.

ghost use Rattle.std.specs.Prelude.{◌≡◌, length, map, IfOk, OnOk};
ghost use Rattle.pict_scope.specs.Marks.{by_place};
ghost use Rattle.pict_scope.specs.Places.{HasPlacesFrom, SetsPlace, placed};

use crate::target::Target;
use std::alloc::{AllocError, Global};

/// What these targets mean, with each binder by its place among these. The only error is want of memory, also for a
/// number of binders of 32 bits.
pub fn in_reading_order(
    alloc: Global,
    order: &[u32],
    targets: &[Target],
) -> Result<Vec<Target>, AllocError>
    ensures { IfOk result (λ ts. ts.items ≡ map (by_place order.now) targets.now) }
{
    let none = match u32::try_from(order.len()) {
        Ok(none) => none,
        Err(_) => return Err(AllocError),
    };
    let table = table_of(alloc, order, none)?;
    let mut all = Vec::new(alloc);
    for target in targets {
        all.push(in_table(&table, none, *target))?;
    }
    Ok(all)
}

/// A table of the places of these numbers. A number that isn't among them has as its place how many they are. The only
/// error is want of memory.
fn table_of(alloc: Global, order: &[u32], none: u32) -> Result<Vec<u32>, AllocError>
    requires { none ≡ length order.now }
    ensures { IfOk result (λ table. HasPlacesFrom 0 order.now table.items) }
{
    let mut table = Vec::new(alloc);
    let mut place = none;
    while place > 0 {
        place -= 1;
        set_place(&mut table, order[place as usize], place, none)?;
    }
    Ok(table)
}

/// Gives a number a place. The only error is want of memory.
fn set_place(table: &mut Vec<u32>, number: u32, place: u32, none: u32) -> Result<(), AllocError>
    ensures { OnOk result (SetsPlace none number place table.old.items table.new.items) }
{
    let index = number as usize;
    while table.len() <= index {
        table.push(none)?;
    }
    table[index] = place;
    Ok(())
}

/// What a target means, with a binder by its place. Takes no memory.
fn in_table(table: &[u32], none: u32, target: Target) -> Target
    ensures { result ≡ placed none table.now target }
{
    match target {
        Target::Prim(primitive) => Target::Prim(primitive),
        Target::Binder(number) => match table.get(number as usize) {
            None => Target::Binder(none),
            Some(place) => Target::Binder(*place),
        },
    }
}
