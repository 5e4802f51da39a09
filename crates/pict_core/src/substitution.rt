// Substitution of closed values for the outermost variables.

ghost use Rattle.std.specs.Prelude.{◌≡◌, map, IfOk};
ghost use Rattle.pict_core.specs.Plain.{plain_core, plain_val, plain_field, plain_pat, core_of, GivesPart, GivesCore};
ghost use Rattle.pict_core.specs.Term.{Process, Zero, Par, New, Out, In, If};
ghost use Rattle.pict_core.specs.Substitution.{substitute as substitute_plain, value_of_variable, replace_value, substitution};

use crate::{Core, CorePat, CoreVal, Part};
use pict_syntax::{Name, Span};
use std::alloc::{AllocError, Global};

/// The process with these closed values for its first variables: the value at index n stands for level n, and the
/// levels past the values move down by as many. The only error is want of memory.
pub fn substitute(alloc: Global, process: &Core, values: &[CoreVal]) -> Result<Core, AllocError>
    ensures { GivesCore result (substitute_plain 0 (map plain_val values.now) (plain_core process.now)) }
{
    Ok(substitute_part(process, values, alloc)?.into_core())
}

// The recursion. The helpers unpack the results, and the part is made in one place: so its frame is small, and a deep
// process takes little stack.
fn substitute_part(process: &Core, values: &[CoreVal], alloc: Global) -> Result<Part, AllocError>
    ensures { GivesPart result (substitute_plain 0 (map plain_val values.now) (plain_core process.now)) }
{
    let made = match process {
        Core::Zero => Ok(Core::Zero),
        Core::Par(left, right) => par(
            substitute_part(left.core(), values, alloc),
            substitute_part(right.core(), values, alloc),
        ),
        Core::New(body) => new(substitute_part(body.core(), values, alloc)),
        Core::Out { chan, message, at } => substitute_out(chan, message, at, values, alloc),
        Core::In {
            chan,
            replicated,
            pattern,
            body,
        } => substitute_in(
            chan,
            *replicated,
            pattern,
            substitute_part(body.core(), values, alloc),
            values,
            alloc,
        ),
        Core::If { test, yes, no } => substitute_if(
            test,
            substitute_part(yes.core(), values, alloc),
            substitute_part(no.core(), values, alloc),
            values,
            alloc,
        ),
    };
    part_of(made, alloc)
}

fn part_of(made: Result<Core, AllocError>, alloc: Global) -> Result<Part, AllocError>
    ensures { (p : Process) → GivesCore made p → GivesPart result p }
{
    Part::new(alloc, made?)
}

fn par(left: Result<Part, AllocError>, right: Result<Part, AllocError>) -> Result<Core, AllocError>
    ensures { (p q : Process) → GivesPart left p → GivesPart right q → GivesCore result (Par p q) }
{
    let left = left?;
    Ok(Core::Par(left, right?))
}

fn new(body: Result<Part, AllocError>) -> Result<Core, AllocError>
    ensures { (p : Process) → GivesPart body p → GivesCore result (New p) }
{
    Ok(Core::New(body?))
}

fn substitute_out(
    chan: &CoreVal,
    message: &CoreVal,
    at: &Span,
    values: &[CoreVal],
    alloc: Global,
) -> Result<Core, AllocError>
    ensures { GivesCore result (substitute_plain 0 (map plain_val values.now) (Out (plain_val chan.now) (plain_val message.now) at.now)) }
{
    Ok(Core::Out {
        chan: substitute_value(chan, values, alloc)?,
        message: substitute_value(message, values, alloc)?,
        at: *at,
    })
}

fn substitute_in(
    chan: &CoreVal,
    replicated: bool,
    pattern: &CorePat,
    body: Result<Part, AllocError>,
    values: &[CoreVal],
    alloc: Global,
) -> Result<Core, AllocError>
    ensures { (p : Process) → GivesPart body p
        → GivesCore result (In (replace_value (substitution 0 (map plain_val values.now)) (plain_val chan.now)) replicated (plain_pat pattern.now) p) }
{
    let body = body?;
    Ok(Core::In {
        chan: substitute_value(chan, values, alloc)?,
        replicated,
        pattern: pattern.copy(alloc)?,
        body,
    })
}

fn substitute_if(
    test: &CoreVal,
    yes: Result<Part, AllocError>,
    no: Result<Part, AllocError>,
    values: &[CoreVal],
    alloc: Global,
) -> Result<Core, AllocError>
    ensures { (p q : Process) → GivesPart yes p → GivesPart no q
        → GivesCore result (If (replace_value (substitution 0 (map plain_val values.now)) (plain_val test.now)) p q) }
{
    let yes = yes?;
    let no = no?;
    Ok(Core::If {
        test: substitute_value(test, values, alloc)?,
        yes,
        no,
    })
}

// The value of a variable.
fn substitute_variable(level: u32, values: &[CoreVal], alloc: Global) -> Result<CoreVal, AllocError>
    ensures { IfOk result (λ v. plain_val v ≡ value_of_variable 0 (map plain_val values.now) level) }
{
    let index = level as usize;
    if index < values.len() {
        values[index].copy(alloc)
    } else {
        Ok(CoreVal::Var(level - values.len() as u32))
    }
}

#[cycle(substitute_value)]
fn substitute_value(
    value: &CoreVal,
    values: &[CoreVal],
    alloc: Global,
) -> Result<CoreVal, AllocError>
    ensures { IfOk result (λ v. plain_val v ≡ replace_value (substitution 0 (map plain_val values.now)) (plain_val value.now)) }
{
    match value {
        CoreVal::Var(level) => substitute_variable(*level, values, alloc),
        CoreVal::Chan(number) => Ok(CoreVal::Chan(*number)),
        CoreVal::Int(n) => Ok(CoreVal::Int(*n)),
        CoreVal::Char(byte) => Ok(CoreVal::Char(*byte)),
        CoreVal::Bool(b) => Ok(CoreVal::Bool(*b)),
        CoreVal::Text(bytes) => Ok(CoreVal::Text(bytes.copy(alloc)?)),
        CoreVal::Prim(p) => Ok(CoreVal::Prim(*p)),
        CoreVal::Fields {
            positional,
            labelled,
        } => Ok(CoreVal::Fields {
            positional: substitute_values(positional, values, alloc)?,
            labelled: substitute_fields(labelled, values, alloc)?,
        }),
    }
}

#[cycle(substitute_value)]
fn substitute_values(
    parts: &[CoreVal],
    values: &[CoreVal],
    alloc: Global,
) -> Result<Vec<CoreVal>, AllocError>
    ensures { IfOk result (λ v. map plain_val v.items ≡ map (λ x. replace_value (substitution 0 (map plain_val values.now)) (plain_val x)) parts.now) }
{
    let mut made = Vec::new(alloc);
    for part in parts {
        made.push(substitute_value(part, values, alloc)?)?;
    }
    Ok(made)
}

#[cycle(substitute_value)]
fn substitute_fields(
    fields: &[(Name, CoreVal)],
    values: &[CoreVal],
    alloc: Global,
) -> Result<Vec<(Name, CoreVal)>, AllocError>
    ensures { IfOk result (λ v. map plain_field v.items
        ≡ map (λ e. (e.0, replace_value (substitution 0 (map plain_val values.now)) (plain_val e.1))) fields.now) }
{
    let mut made = Vec::new(alloc);
    for field in fields {
        made.push((field.0, substitute_value(&field.1, values, alloc)?))?;
    }
    Ok(made)
}
