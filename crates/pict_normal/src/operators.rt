// Written types as arguments: types, and operators by their bare names.

ghost use Rattle.std.specs.Prelude.{◌≡◌, IfErr, IfNone, IfOk, IfSome, None, Some};
ghost use Rattle.pict_syntax.specs.PlainTrees.{type_of};
ghost use Rattle.pict_types.specs.Places.{arity_at};
ghost use Rattle.pict_types.specs.Plain.{plain, plain_arg, plain_types};
ghost use Rattle.pict_types.specs.PlainContext.{plain_context, type_context};
ghost use Rattle.pict_types.specs.Types.{Plain};
ghost use Rattle.pict_scope.specs.DistinctLabels.{HasDistinctLabels};
ghost use Rattle.pict_normal.specs.Meanings.{meanings};
ghost use Rattle.pict_normal.specs.Normal.{an_operator};
ghost use Rattle.pict_normal.specs.Refusals.{IsRefusal};
ghost use Rattle.pict_normal.specs.Written.{ArgIsWithinLimits, ArgIsWrittenIn, arg_stop_in, normal_arg_in, normal_in, stop_in};
ghost use Rattle.pict_normal.specs.WrittenArguments.{body_of, named, parameters};

use crate::expansion::expand;
use crate::numbers::{fits, number};
use crate::put::Put;
use crate::puts::put_entry;
use crate::stops::KindError;
use pict_syntax::TypeTree;
use pict_types::{Arg, Context, Ty, shift_type};
use std::alloc::{AllocError, Global};
use std::rc::Rc;

/// An entry of the context that is an operator, counted from the innermost, and the number of its parameters.
#[derive(Clone, Copy)]
struct Operator {
    entry: usize,
    params: usize,
}

/// The operator whose bare name this is.
#[tactic(auto, unfolding(pict_syntax::specs::PlainTrees::type_of))]
fn named_operator(c: &Context, t: &TypeTree) -> Option<Operator>
    ensures arity { IfSome result (λ o. arity_at (plain_context c.now) o.entry ≡ Some o.params) }
    ensures named { IfSome result (λ o. named (plain_context c.now) (type_of t.now)
        ≡ Some (an_operator o.params ((meanings (plain_context c.now)).head_of o.entry))) }
    ensures no_arg { IfNone result (normal_arg_in c.now (type_of t.now) ≡ Plain (normal_in c.now (type_of t.now))) }
    ensures no_stop { IfNone result (arg_stop_in c.now (type_of t.now) ≡ stop_in c.now (type_of t.now)) }
{
    let TypeTree::Use(_, name) = t else {
        return None;
    };
    let entry = c.place(*name)?;
    let params = c.arity(entry)?;
    Some(Operator { entry, params })
}

/// The parameters of an operator, the last one at 0.
fn parameters(alloc: Global, count: u32) -> Result<Vec<Ty>, AllocError>
    ensures { IfOk result (λ ts. plain_types ts.items ≡ parameters count) }
{
    let mut types = Vec::new(alloc);
    for k in 0..count {
        types.push(Ty::Var(count - 1 - k))?;
    }
    Ok(types)
}

/// The body of the entry that is an operator of so many parameters.
fn operator_body(alloc: Global, c: &Context, entry: usize, count: u32) -> Result<Ty, AllocError>
    requires arity { arity_at (plain_context c.now) entry ≡ Some count }
    ensures { IfOk result (λ t. plain t ≡ body_of count ((meanings (plain_context c.now)).head_of entry)) }
{
    match put_entry(c, number(entry)?) {
        Put::Variable(i) => {
            fits(i, count)?;
            Ok(Ty::Apply(i + count, Rc::new(alloc, parameters(alloc, count)?)?))
        }
        Put::Operator { body, by, .. } => shift_type(alloc, body, by, count as usize),
        Put::Proper(..) => unreachable!(),
    }
}

/// The same as `expand`, where the bare name of an operator is allowed: it is that operator.
///
/// The body of an operator variable is it applied to its parameters, and the body of a definition is its own. An
/// operator is no type, so it is not measured: what it makes is, where it is put in. The condition is that of `expand`,
/// and `Memory` also comes where it does there, and where a `u32` can't hold the number of parameters.
pub fn expand_arg(alloc: Global, c: &Context, t: &TypeTree) -> Result<Arg, KindError>
    requires labels { HasDistinctLabels (type_of t.now) }
    ensures normal { IfOk result (λ a. plain_arg a ≡ normal_arg_in c.now (type_of t.now)) }
    ensures allowed { IfOk result (λ _. arg_stop_in c.now (type_of t.now) ≡ None) }
    ensures formed { IfOk result (λ a. ArgIsWrittenIn c.now (plain_arg a)) }
    ensures within { IfOk result (λ a. ArgIsWithinLimits (type_context c.now) (plain_arg a)) }
    ensures refused { IfErr result (λ e. IsRefusal (arg_stop_in c.now (type_of t.now)) e) }
{
    match named_operator(c, t) {
        None => Ok(Arg::Plain(expand(alloc, c, t)?)),
        Some(operator) => {
            let params = number(operator.params)?;
            Ok(Arg::Op {
                params,
                body: operator_body(alloc, c, operator.entry, params)?,
            })
        }
    }
}
