// The names around a place, with the level of each name's nearest binder at hand.

ghost use Rattle.std.specs.Prelude.{◌≡◌, Some, IsSome, OnOk, OnErr};
ghost use Rattle.std.specs.BTreeMap.{IsUnchanged, get};
ghost use Rattle.std.specs.Ordering.{nat_cmp};
ghost use Rattle.pict_binders.specs.Tables.{SetsLevel};

use pict_syntax::Name;
use std::alloc::{AllocError, Global};
use std::collections::BTreeMap;
use std::marker::Model;

/// A name, and the level that it had before it was bound here.
#[derive(Clone, Copy)]
struct Binder {
    name: u32,
    outer: Option<u32>,
}

/// The names around a place. The level of a binder is the number of those around it, and its place the number of those
/// inside it. Both are found in a map of the names that are bound, whatever numbers they have.
///
/// Contracts see the list of the names, the innermost first.
#[derive(Drop)]
pub struct Nearest {
    binders: Vec<Binder>,
    levels: BTreeMap<u32, u32>,
}

impl Model for Nearest {
    ghost use Rattle.std.specs.Prelude.{List, ℕ};
    ghost use Rattle.pict_binders.specs.Tables.{names_of, StandsFor};

    ghost Value = { List ℕ };

    ghost view = { λ n. names_of n.binders.items };

    ghost invariant = { λ n. StandsFor n.binders.items n.levels };
}

impl Nearest {
    ghost use Rattle.std.specs.Prelude.{◌≡◌, [], ◌∷◌, length, drop, slice_get, OnOk, OnErr};
    ghost use Rattle.std.specs.Option.{option_map};
    ghost use Rattle.pict_binders.specs.Names.{level_of, place_of};

    /// No name. Takes no memory.
    pub fn new(alloc: Global) -> Nearest
        ensures { result ≡ [] }
    {
        Nearest {
            binders: Vec::new(alloc),
            levels: BTreeMap::new(alloc),
        }
    }

    /// How many names there are. Takes no memory.
    pub fn len(&self) -> usize
        ensures { result ≡ length self.now }
    {
        self.binders.len()
    }

    /// The level of the nearest binder of a name; nothing where it isn't bound. Takes no memory.
    pub fn level(&self, name: Name) -> Option<u32>
        ensures { result ≡ level_of self.now name.0 }
    {
        level_at(&self.levels, name.0)
    }

    /// The place of the nearest binder of a name; nothing where it isn't bound. Takes no memory.
    pub fn place(&self, name: Name) -> Option<usize>
        ensures { result ≡ place_of self.now name.0 }
    {
        match level_at(&self.levels, name.0) {
            None => None,
            Some(level) => Some(self.binders.len() - 1 - level as usize),
        }
    }

    /// Binds a name inside. The only error is want of memory, also for a number of binders of 32 bits, and it leaves
    /// the names as they were.
    pub fn bind(&mut self, name: Name) -> Result<(), AllocError>
        ensures ok { OnOk result (self.new ≡ name.0 ∷ self.old) }
        ensures err { OnErr result (self.new ≡ self.old) }
    {
        let outer = level_at(&self.levels, name.0);
        let level = match u32::try_from(self.binders.len()) {
            Ok(level) => level,
            Err(_) => return Err(AllocError),
        };
        self.binders.reserve(1)?;
        set_level(&mut self.levels, name.0, level)?;
        self.binders.push_reserved(Binder {
            name: name.0,
            outer,
        });
        Ok(())
    }

    /// Forgets the innermost name, and gives it. Takes no memory.
    pub fn unbind(&mut self) -> Option<Name>
        ensures rest { self.new ≡ drop 1 self.old }
        ensures last { option_map (λ n. n.0) result ≡ slice_get self.old 0 }
    {
        match self.binders.pop() {
            None => None,
            Some(binder) => {
                restore_level(&mut self.levels, binder.name, binder.outer);
                Some(Name(binder.name))
            }
        }
    }
}

fn level_at(levels: &BTreeMap<u32, u32>, name: u32) -> Option<u32>
    ensures { result ≡ get nat_cmp levels.now name }
{
    match levels.get(&name) {
        None => None,
        Some(level) => Some(*level),
    }
}

/// Gives a name a level. The only error is want of memory, and it leaves the levels as they were.
fn set_level(levels: &mut BTreeMap<u32, u32>, name: u32, level: u32) -> Result<(), AllocError>
    ensures set { OnOk result (SetsLevel levels.old levels.new name (Some level)) }
    ensures err { OnErr result (IsUnchanged levels.old levels.new) }
{
    let _ = levels.insert(name, level)?;
    Ok(())
}

/// Gives a name that has a level another one, or none. Takes no memory.
fn restore_level(levels: &mut BTreeMap<u32, u32>, name: u32, level: Option<u32>)
    requires { IsSome (get nat_cmp levels.old name) }
    ensures { SetsLevel levels.old levels.new name level }
{
    match level {
        None => {
            let _ = levels.remove(&name);
        }
        Some(level) => match levels.insert(name, level) {
            Ok(_) => {}
            Err(_) => unreachable!(),
        },
    }
}
