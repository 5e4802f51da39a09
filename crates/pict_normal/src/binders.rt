// The type binders around a place in a written type.

ghost use Rattle.std.specs.Option.{option_map};
ghost use Rattle.std.specs.Prelude.{◌≡◌, ◌-◌, ◌<◌, ◌≤◌, [], ◌∷◌, length, drop, IfOk, OnOk};
ghost use Rattle.pict_syntax.specs.PlainTrees.{kind_of};
ghost use Rattle.pict_normal.specs.BinderEntries.{bound_entry, entries_of};
ghost use Rattle.pict_types.specs.Entries.{Variable};
ghost use Rattle.pict_normal.specs.Normal.{kind_bound};
ghost use Rattle.pict_types.specs.Places.{arity, entry_names};
ghost use Rattle.pict_types.specs.Types.{Free};

use pict_binders::Nearest;
use pict_syntax::{KindTree, Name};
use std::alloc::{AllocError, Global};

/// A type binder: its name, and its kind where it is written.
#[derive(Drop)]
pub struct Binder {
    pub name: Name,
    pub kind: Option<KindTree>,
}

/// The type binders around a place.
///
/// Contracts see them as the entries of a context, the innermost first. Their bounds are left out.
#[derive(Drop)]
pub struct Binders {
    binders: Vec<Binder>,
    names: Nearest,
    ghost named: { names ≡ entry_names (entries_of binders.items) },
}

impl Binders {
    ghost use Rattle.pict_normal.specs.Around.{scope_of};
    ghost use Rattle.pict_binders.specs.Names.{place_of};
    ghost use Rattle.pict_types.specs.Places.{arity_at};

    /// No binder. Takes no memory.
    pub fn new(alloc: Global) -> Binders
        ensures { scope_of result ≡ [] }
    {
        Binders {
            binders: Vec::new(alloc),
            names: Nearest::new(alloc),
        }
    }

    /// How many binders there are. Takes no memory.
    pub fn len(&self) -> usize
        ensures { result ≡ length (scope_of self.now) }
    {
        self.binders.as_slice().len()
    }

    /// The place of the nearest binder of a name, counted from the innermost; nothing where it isn't bound. Takes no
    /// memory.
    pub fn place(&self, name: Name) -> Option<usize>
        ensures { result ≡ place_of (entry_names (scope_of self.now)) name.0 }
    {
        self.names.place(name)
    }

    /// Of how many arguments the binder at this place is an operator; nothing where it is a type. Takes no memory.
    pub fn arity(&self, place: usize) -> Option<usize>
        requires { place < length (scope_of self.now) }
        ensures { result ≡ arity_at (scope_of self.now) place }
    {
        let binders = self.binders.as_slice();
        kind_arity(&binders[binders.len() - 1 - place].kind)
    }

    /// One more binder, inside. The only error is want of memory.
    pub fn push(&mut self, name: Name, kind: Option<KindTree>) -> Result<(), AllocError>
        ensures { OnOk result (scope_of self.new ≡ bound_entry name.0 (option_map kind_of kind) ∷ scope_of self.old) }
    {
        self.binders.reserve(1)?;
        self.names.bind(name)?;
        self.binders.push_reserved(Binder { name, kind });
        Ok(())
    }

    /// Forgets the innermost binder. Takes no memory.
    pub fn pop(&mut self)
        ensures { scope_of self.new ≡ drop 1 (scope_of self.old) }
    {
        let _ = self.names.unbind();
        let _ = self.binders.pop();
    }

    /// Forgets so many of the innermost binders. Takes no memory.
    pub fn pop_all(&mut self, count: usize)
        ensures { scope_of self.new ≡ drop count (scope_of self.old) }
    {
        let mut left = count;
        while left > 0 {
            self.pop();
            left -= 1;
        }
    }
}

/// Of how many arguments a type binder of this kind is an operator; nothing where it is a type.
fn kind_arity(kind: &Option<KindTree>) -> Option<usize>
    ensures { result ≡ arity (Variable (kind_bound (option_map kind_of kind.now) Free)) }
{
    match kind {
        None => None,
        Some(KindTree::Plain) => None,
        Some(KindTree::Operator(marks)) => Some(marks.as_slice().len()),
    }
}

/// A copy of the kind of a type binder.
pub fn copy_kind(alloc: Global, kind: &Option<KindTree>) -> Result<Option<KindTree>, AllocError>
    ensures { IfOk result (λ k. option_map kind_of k ≡ option_map kind_of kind.now) }
{
    match kind {
        None => Ok(None),
        Some(kind) => Ok(Some(kind.copy(alloc)?)),
    }
}
