// The names that types have at a place.

use pict_syntax::Name;
use pict_types::{Arg, Bound, Context, Ty, Variables, What, mentions};
use std::alloc::{AllocError, Global};

/// Of more definitions than these, the nearest are kept.
const MOST_DEFINITIONS: usize = 500;

/// A type variable by its name. A hidden one has a name that is bound again nearer to the place.
#[derive(Clone, Copy)]
pub struct Variable {
    pub name: Name,
    pub hidden: bool,
    /// Whether a type is known that it is below.
    pub bounded: bool,
}

/// A definition that mentions no variable but its parameters, which are the innermost of its body. That of a type has none.
#[derive(Drop)]
pub struct Definition {
    pub name: Name,
    pub params: usize,
    pub body: Ty,
}

/// The type variables at a place, and the definitions by which types are said there; the innermost first.
#[derive(Drop)]
pub struct Known {
    pub variables: Vec<Variable>,
    pub definitions: Vec<Definition>,
}

/// Whether the name is among those that were seen, which it is from now on.
fn is_seen(seen: &mut Vec<bool>, name: Name) -> Result<bool, AllocError> {
    let place = name.0 as usize;
    if place < seen.len() {
        let before = seen[place];
        seen[place] = true;
        return Ok(before);
    }
    for _ in seen.len()..place {
        seen.push(false)?;
    }
    seen.push(true)?;
    Ok(false)
}

/// Whether the type is written as a single word.
pub fn is_word(t: &Ty) -> bool {
    match t {
        Ty::Top | Ty::Int | Ty::Char | Ty::Str | Ty::Bool | Ty::Var(_) => true,
        Ty::Apply(..) | Ty::Chan(..) | Ty::Fields(_) | Ty::Rec(_) => false,
    }
}

/// Keeps a definition by which types may be said.
fn keep(definitions: &mut Vec<Definition>, definition: Definition) -> Result<(), AllocError> {
    if definitions.len() >= MOST_DEFINITIONS || is_word(&definition.body) {
        return Ok(());
    }
    if mentions(&definition.body, &Variables::Outer(definition.params))? {
        return Ok(());
    }
    definitions.push(definition)?;
    Ok(())
}

/// What is known in a context. The only error is want of memory.
pub fn known_in(alloc: Global, mut context: Context<'_>) -> Result<Known, AllocError> {
    let mut seen = Vec::new(alloc);
    let mut variables = Vec::new(alloc);
    let mut definitions = Vec::new(alloc);
    for _ in 0..context.len() {
        let Some(entry) = context.take() else {
            break;
        };
        let name = entry.name;
        let hidden = is_seen(&mut seen, name)?;
        match entry.what {
            What::Variable(bound) => {
                let bounded = matches!(&bound, Bound::Below(_));
                variables.push(Variable {
                    name,
                    hidden,
                    bounded,
                })?;
            }
            What::Definition(arg) => {
                if !hidden {
                    keep(&mut definitions, definition_of(name, arg))?;
                }
            }
        }
    }
    Ok(Known {
        variables,
        definitions,
    })
}

/// What stands for this name, as a definition.
fn definition_of(name: Name, arg: Arg) -> Definition {
    match arg {
        Arg::Plain(body) => Definition {
            name,
            params: 0,
            body,
        },
        Arg::Op { params, body } => Definition {
            name,
            params: params as usize,
            body,
        },
    }
}
