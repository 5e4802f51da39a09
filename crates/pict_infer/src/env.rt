// What is known at a place: type variables and definitions, and values with their types.

ghost use Rattle.std.specs.Prelude.{◌≡◌, ◌-◌, ◌≤◌, ◌++◌, length, drop, max, take, IfOk, None, OnOk};
ghost use Rattle.pict_types.specs.Entries.{EntriesAreWellFormed};
ghost use Rattle.pict_types.specs.PlainContext.{names_of, plain_context, type_context};
ghost use Rattle.pict_types.specs.Plain.{plain};
ghost use Rattle.pict_rules.specs.Environments.{entries_of, type_or_primitive};
ghost use Rattle.pict_infer.specs.Knowing.{deepest, known_types, names_known};

use crate::added::Added;
use crate::known::{Binder, Known};
use crate::primitives::type_of;
use pict_binders::Nearest;
use pict_scope::primitive_named;
use pict_syntax::{Id, Name, Names};
use pict_types::{Arg, Bound, Context, Entry, Ty, What, shift_type};
use std::alloc::{AllocError, Global};

/// How many entries of types and how many values are known somewhere.
#[derive(Clone, Copy)]
pub struct Place {
    pub entries: usize,
    pub values: usize,
}

/// What is known at a place. A type is kept as it was written, with the number of type variables around it there, so
/// that to open and to close a variable moves no type.
#[derive(Drop)]
pub struct Env<'a> {
    pub(crate) context: Context<'a>,
    /// The values, the nearest last.
    values: Vec<Known>,
    names: Nearest,
    ghost named: { names ≡ names_known values.items },
    ghost placed: { deepest values.items ≤ length (type_context context) },
}

impl<'a> Env<'a> {
    ghost use Rattle.std.specs.Prelude.{◌≡◌, ◌∷◌, [], IfOk, OnOk};
    ghost use Rattle.pict_types.specs.Kinds.{BoundIsWellFormed, ArgIsWellFormed};
    ghost use Rattle.pict_types.specs.Plain.{plain, plain_arg, plain_bound};
    ghost use Rattle.pict_types.specs.PlainContext.{names_of, plain_context, type_context};
    ghost use Rattle.pict_rules.specs.Environments.{defined, extended, no_environment, one_value, only_types, type_of_use};
    ghost use Rattle.pict_rules.specs.Regular.{kinds_in};
    ghost use Rattle.pict_infer.specs.Adding.{extension_of};
    ghost use Rattle.pict_infer.specs.Environments.{environment_of, known_entries, known_names, with_value};
    ghost use Rattle.pict_infer.specs.Environments.{GrewFrom, HasGrownFrom, IsAsBefore, IsPlaceOf, MayBeAdded};

    /// Nothing is known. Takes no memory.
    pub fn new(alloc: Global, names: &'a Names) -> Env<'a>
        ensures { environment_of result ≡ no_environment names.now }
    {
        Env {
            context: Context::new(alloc, names),
            values: Vec::new(alloc),
            names: Nearest::new(alloc),
        }
    }

    /// The type variables and definitions that are known. Takes no memory.
    pub fn context(&self) -> &Context<'a>
        ensures names { names_of result.now ≡ known_names self.now }
        ensures entries { plain_context result.now ≡ known_entries self.now }
    {
        &self.context
    }

    /// The type variables and definitions that were known, for those who go on without the values. Takes no memory.
    pub fn into_context(self) -> Context<'a>
        ensures names { names_of result ≡ known_names self.entry }
        ensures entries { plain_context result ≡ known_entries self.entry }
    {
        self.context
    }

    /// The type of the nearest value of a name, or else of the primitive, written in all the type variables. The only
    /// error is want of memory.
    pub fn type_of_use(&self, alloc: Global, name: Name) -> Result<Ty, AllocError>
        ensures { IfOk result (λ t. plain t ≡ type_of_use (environment_of self.now) name.0) }
    {
        match self.names.level(name) {
            None => primitive_use(alloc, self.context.names().text(name)),
            Some(level) => {
                let known = &self.values[level as usize];
                shift_type(alloc, &known.has, self.context.variables() - known.depth, 0)
            }
        }
    }

    /// One value more, the nearest, whose type is written in all the type variables. The only error is want of memory.
    pub fn push_value(&mut self, id: Id, has: Ty) -> Result<(), AllocError>
        ensures known { OnOk result (environment_of self.new ≡ with_value (environment_of self.old) id (plain has)) }
        ensures grew { OnOk result (GrewFrom self.old self.new) }
    {
        let depth = self.context.variables();
        self.values.reserve(1)?;
        self.names.bind(id.name)?;
        self.values.push_reserved(Known {
            name: id.name,
            depth,
            has,
        });
        Ok(())
    }

    /// One type variable more, the innermost. The only error is want of memory.
    pub fn push_type(&mut self, name: Name, bound: Bound) -> Result<(), AllocError>
        requires formed { BoundIsWellFormed (known_names self.old) (kinds_in (environment_of self.old)) (plain_bound bound) }
        ensures known { OnOk result (environment_of self.new
            ≡ extended (environment_of self.old) (only_types (record { name = name.0; bound = plain_bound bound } ∷ []))) }
        ensures grew { OnOk result (GrewFrom self.old self.new) }
    {
        self.context.push(Entry {
            name,
            what: What::Variable(bound),
        })
    }

    /// One definition more, the innermost. The only error is want of memory.
    pub fn define(&mut self, id: Id, arg: Arg) -> Result<(), AllocError>
        requires formed { ArgIsWellFormed (known_names self.old) (kinds_in (environment_of self.old)) (plain_arg arg) }
        ensures known { OnOk result (environment_of self.new ≡ defined (environment_of self.old) id (plain_arg arg)) }
        ensures grew { OnOk result (GrewFrom self.old self.new) }
    {
        self.context.push(Entry {
            name: id.name,
            what: What::Definition(arg),
        })
    }

    /// Adds what a pattern adds. The only error is want of memory.
    pub fn add(&mut self, added: Added) -> Result<(), AllocError>
        requires may { MayBeAdded self.old added }
        ensures known { OnOk result (environment_of self.new ≡ extended (environment_of self.old) (extension_of added)) }
        ensures grew { OnOk result (GrewFrom self.old self.new) }
    {
        add_types(&mut self.context, added.binders)?;
        add_values(&mut self.values, &mut self.names, added.values)
    }

    /// How much is known. Takes no memory.
    pub fn place(&self) -> Place
        ensures { IsPlaceOf result self.now }
    {
        Place {
            entries: self.context.len(),
            values: self.values.len(),
        }
    }

    /// Forgets what has become known since. Takes no memory.
    pub fn cut(&mut self, to: Place)
        requires grown { HasGrownFrom to self.old }
        ensures { (before : Env) → IsPlaceOf to before → GrewFrom before self.old → IsAsBefore before self.new }
    {
        cut_values(&mut self.values, &mut self.names, to.values);
        cut_entries(&mut self.context, to.entries);
    }
}

/// Opens type variables, the outermost first.
fn add_types(context: &mut Context, binders: Vec<Binder>) -> Result<(), AllocError>
    requires formed { EntriesAreWellFormed (names_of context.old) (entries_of (known_types binders.items) ++ plain_context context.old) }
    ensures added { OnOk result (plain_context context.new ≡ entries_of (known_types binders.items) ++ plain_context context.old) }
    ensures names { names_of context.new ≡ names_of context.old }
    ensures grows { length (type_context context.old) ≤ length (type_context context.new) }
{
    let mut rest = binders;
    rest.reverse();
    while let Some(b) = rest.pop() {
        context.push(Entry {
            name: b.name,
            what: What::Variable(b.bound),
        })?;
    }
    Ok(())
}

/// Makes values known, the nearest last. On the error some of them are.
fn add_values(
    values: &mut Vec<Known>,
    names: &mut Nearest,
    added: Vec<Known>,
) -> Result<(), AllocError>
    requires named { names.old ≡ names_known values.old.items }
    ensures added { OnOk result (values.new.items ≡ values.old.items ++ added.items) }
    ensures named { names.new ≡ names_known values.new.items }
    ensures placed { deepest values.new.items ≤ max (deepest values.old.items) (deepest added.items) }
{
    let mut rest = added;
    rest.reverse();
    while let Some(known) = rest.pop() {
        values.reserve(1)?;
        names.bind(known.name)?;
        values.push_reserved(known);
    }
    Ok(())
}

/// Forgets the nearest values, up to so many that are left.
fn cut_values(values: &mut Vec<Known>, names: &mut Nearest, left: usize)
    requires named { names.old ≡ names_known values.old.items }
    requires left { left ≤ length values.old.items }
    ensures values { values.new.items ≡ take left values.old.items }
    ensures named { names.new ≡ names_known values.new.items }
{
    values.truncate(left);
    while names.len() > left {
        names.unbind();
    }
}

/// Forgets the innermost entries, up to so many that are left.
fn cut_entries(context: &mut Context, left: usize)
    ensures entries { plain_context context.new ≡ drop (length (plain_context context.old) - left) (plain_context context.old) }
    ensures names { names_of context.new ≡ names_of context.old }
{
    while context.len() > left {
        context.pop();
    }
}

/// The type of the primitive of this name; `Top` where there is none.
fn primitive_use(alloc: Global, text: &[u8]) -> Result<Ty, AllocError>
    ensures { IfOk result (λ t. plain t ≡ type_or_primitive None text.now) }
{
    match primitive_named(text) {
        None => Ok(Ty::Top),
        Some(primitive) => type_of(alloc, primitive),
    }
}
