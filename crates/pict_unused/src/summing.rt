// In which roles binders are used, by their numbers.

ghost use Rattle.std.specs.Prelude.{◌≡◌, IfOk, OnOk};
ghost use Rattle.pict_unused.specs.Hints.{roles_in};
ghost use Rattle.pict_unused.specs.Summing.{AreSummed, Notes, NotesMeant, and_use, no_uses};

use crate::item::{Item, Role};
use pict_scope::Target;
use std::alloc::{AllocError, Global};

/// Whether some use of a binder sends, whether one receives, and whether one hands it on.
#[derive(Clone, Copy, PartialEq, Eq, Debug)]
pub struct Uses {
    pub sends: bool,
    pub receives: bool,
    pub hands_on: bool,
}

impl Uses {
    /// No use.
    pub fn none() -> Uses
        ensures { result ≡ no_uses }
    {
        Uses {
            sends: false,
            receives: false,
            hands_on: false,
        }
    }

    /// With a use in this role.
    fn and(self, role: Role) -> Uses
        ensures { result ≡ and_use role self }
    {
        match role {
            Role::Sent | Role::Called => Uses {
                sends: true,
                ..self
            },
            Role::Received => Uses {
                receives: true,
                ..self
            },
            Role::HandedOn => Uses {
                hands_on: true,
                ..self
            },
        }
    }
}

/// The roles of the uses among these, in their order. The only error is want of memory.
#[tactic(auto, using(crate::proofs::Tables::tables))]
pub fn roles_in(alloc: Global, items: &[Item]) -> Result<Vec<Role>, AllocError>
    ensures { IfOk result (λ roles. roles.items ≡ roles_in items.now) }
{
    let mut roles = Vec::new(alloc);
    for item in items {
        if let Item::Use(role, _) = item {
            roles.push(*role)?;
        }
    }
    Ok(roles)
}

/// How each binder is used, by its number, where these are the roles of all uses and what they mean. A binder behind the end has
/// no use. The only error is want of memory.
#[tactic(auto, using(crate::proofs::Tables::tables))]
pub fn summed(alloc: Global, roles: &[Role], targets: &[Target]) -> Result<Vec<Uses>, AllocError>
    ensures { IfOk result (λ table. AreSummed roles.now targets.now table.items) }
{
    let mut table = Vec::new(alloc);
    let mut index = roles.len();
    while index > 0 {
        index -= 1;
        if let Some(target) = targets.get(index) {
            note_meant(&mut table, roles[index], *target)?;
        }
    }
    Ok(table)
}

/// Notes a use of what it means.
fn note_meant(table: &mut Vec<Uses>, role: Role, target: Target) -> Result<(), AllocError>
    ensures { OnOk result (NotesMeant target role table.old.items table.new.items) }
{
    match target {
        Target::Prim(_) => Ok(()),
        Target::Binder(number) => note(table, number, role),
    }
}

/// Notes a use of the binder with this number.
fn note(table: &mut Vec<Uses>, number: u32, role: Role) -> Result<(), AllocError>
    ensures { OnOk result (Notes number role table.old.items table.new.items) }
{
    let index = number as usize;
    while table.len() <= index {
        table.push(Uses::none())?;
    }
    table[index] = table[index].and(role);
    Ok(())
}
