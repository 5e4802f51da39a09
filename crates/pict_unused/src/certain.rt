// What is certain of each binder.

ghost use Rattle.std.specs.Prelude.{◌≡◌, ◌++◌, [], get_or, IfOk, OnOk};
ghost use Rattle.pict_syntax.specs.PlainTrees.{declarations_of};
ghost use Rattle.pict_unused.specs.Hints.{hint_if, hints_of, said_where};
ghost use Rattle.pict_unused.specs.Summing.{no_uses};
ghost use Rattle.pict_unused.specs.Telling.{told_from};

use crate::item::{Form, Item};
use crate::items::declarations;
use crate::summing::{Uses, roles_in, summed};
use pict_scope::Scoped;
use pict_syntax::Id;
use std::alloc::{AllocError, Global};

/// What is certain of a name.
#[derive(Clone, Copy, PartialEq, Eq, Debug)]
pub enum Said {
    /// No use means it.
    NeverUsed,
    /// `new` binds it, and it is used, but only to send on it and in calls: whatever is sent on it waits for ever.
    NobodyReceives,
    /// `new` binds it, and it is used, but only to receive on it: whoever receives on it waits for ever.
    NobodySends,
}

/// What is certain of a name, and the identifier that binds it.
#[derive(Clone, Copy, PartialEq, Eq, Debug)]
pub struct Hint {
    pub said: Said,
    pub id: Id,
}

/// What is certain of the names of values of this program, in the order in which they are bound. The only error is want of memory.
/// Goes over the program once, over its uses once and over its binders once.
#[tactic(auto, using(crate::proofs::Written::told_is))]
pub fn hints(alloc: Global, scoped: &Scoped) -> Result<Vec<Hint>, AllocError>
    ensures { IfOk result (λ hs. hs.items ≡ hints_of (declarations_of scoped.now.program) scoped.now.values.items) }
{
    let mut items = Vec::new(alloc);
    declarations(&mut items, &scoped.program.decs)?;
    let roles = roles_in(alloc, &items)?;
    let table = summed(alloc, &roles, &scoped.values)?;
    told(alloc, &items, &table)
}

/// What is certain of the binders among these, where the table says how each is used.
fn told(alloc: Global, items: &[Item], table: &[Uses]) -> Result<Vec<Hint>, AllocError>
    ensures { IfOk result (λ hs. hs.items ≡ told_from 0 items.now table.now) }
{
    let mut hints = Vec::new(alloc);
    let mut number: usize = 0;
    for item in items {
        if let Item::Bind(form, id) = item {
            tell(&mut hints, *form, *id, uses_at(table, number))?;
            number += 1;
        }
    }
    Ok(hints)
}

/// Adds what is certain of a binder that is used so.
fn tell(hints: &mut Vec<Hint>, form: Form, id: Id, uses: Uses) -> Result<(), AllocError>
    ensures { OnOk result (hints.new.items ≡ hints.old.items ++ hint_if (said_where form uses.sends uses.receives uses.hands_on) id []) }
{
    match certain_of(form, uses) {
        Some(said) => hints.push(Hint { said, id })?,
        None => {}
    }
    Ok(())
}

/// What is certain of a binder that is used so.
fn certain_of(form: Form, uses: Uses) -> Option<Said>
    ensures { result ≡ said_where form uses.sends uses.receives uses.hands_on }
{
    if uses.hands_on {
        return None;
    }
    match (form, uses.sends, uses.receives) {
        (_, false, false) => Some(Said::NeverUsed),
        (Form::New, true, false) => Some(Said::NobodyReceives),
        (Form::New, false, true) => Some(Said::NobodySends),
        _ => None,
    }
}

/// How the binder with this number is used.
fn uses_at(table: &[Uses], number: usize) -> Uses
    ensures { result ≡ get_or table.now number no_uses }
{
    match table.get(number) {
        Some(uses) => *uses,
        None => Uses::none(),
    }
}
