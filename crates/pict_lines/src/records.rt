// The types of records, records with arguments put in, and written type arguments.

ghost use Rattle.std.specs.Prelude.{◌≡◌, ◌≤◌, ◌++◌, ◌∷◌, [], length, true, IfOk};
ghost use Rattle.pict_syntax.specs.PlainTrees.{type_of, types_on};
ghost use Rattle.pict_syntax.specs.Trees.{no_types};
ghost use Rattle.pict_types.specs.AsMarked.{VaryAsMarked, varies_as};
ghost use Rattle.pict_types.specs.Plain.{plain, plain_arg, plain_args, plain_bound, plain_bounds, plain_labels, plain_record, plain_types};
ghost use Rattle.pict_types.specs.Replacing.{FitTheirFields};
ghost use Rattle.pict_types.specs.Types.{Fields, no_bound};
ghost use Rattle.pict_normal.specs.Written.{record_with};
ghost use Rattle.pict_scope.specs.DistinctLabels.{HasDistinctLabels};
ghost use Rattle.pict_rules.specs.Clauses.{is_of_kind};
ghost use Rattle.pict_rules.specs.Environments.{context_of};
ghost use Rattle.pict_rules.specs.Regular.{IsTypeIn};
ghost use Rattle.pict_rules.specs.Rules.{arguments_, written_arguments};
ghost use Rattle.pict_rules.specs.Typing.{rule};
ghost use Rattle.pict_infer.specs.Answering.{IsAnswer, nothing};
ghost use Rattle.pict_infer.specs.Asking.{IsWellAsked};
ghost use Rattle.pict_infer.specs.Environments.{environment_of};
ghost use Rattle.pict_lines.specs.Fields.{AreArgsIn, IsArgIn, IsBoundUnder};
ghost use Rattle.pict_lines.specs.Lines.{argument_after, argument_expanded, argument_fits, formed};

use crate::fields::within_bound;
use crate::parts::limited;
use pict_infer::{Env, InferError, Told, refusal, size_refusal};
use pict_normal::{expand_arg, instantiate};
use pict_syntax::{Code, Name, Span, TypeTree, type_span};
use pict_types::{Arg, Bound, Record, Ty, varies};
use std::alloc::{AllocError, Global};
use std::rc::Rc;

/// The record type of these fields. The only error is want of memory.
pub fn fields_type(
    alloc: Global,
    positional: Vec<Ty>,
    labelled: Vec<(Name, Ty)>,
) -> Result<Ty, AllocError>
    ensures { IfOk result (λ t. plain t ≡ Fields no_bound (plain_types positional.items) (plain_labels labelled.items)) }
{
    let binders = Vec::new(alloc);
    let r = Record {
        binders,
        positional,
        labelled,
    };
    Ok(Ty::Fields(Rc::new(alloc, r)?))
}

/// The type of a record with fields of these types. K4 at the place where it passes a limit.
pub fn record_type(
    alloc: Global,
    env: &Env,
    positional: Vec<Ty>,
    labelled: Vec<(Name, Ty)>,
    span: Span,
) -> Result<Ty, InferError>
    ensures { IsAnswer (formed (environment_of env.now) (Fields no_bound (plain_types positional.items) (plain_labels labelled.items)) span) plain result }
{
    let t = fields_type(alloc, positional, labelled)?;
    limited(env, t, span)
}

/// The record with these arguments put for its type fields. K4 at the place where it passes a limit.
pub fn record_instance(
    alloc: Global,
    env: &Env,
    r: &Record,
    args: &[Arg],
    span: Span,
) -> Result<Record, InferError>
    requires r { IsTypeIn (environment_of env.now) (plain_record r.now) }
    requires args { AreArgsIn (environment_of env.now) (plain_args args.now) }
    requires fit { FitTheirFields (plain_args args.now) (plain_bounds r.now.binders.items) }
    requires vary { VaryAsMarked (context_of (environment_of env.now)) (plain_args args.now) (plain_bounds r.now.binders.items) }
    ensures answer { IsAnswer (formed (environment_of env.now) (record_with (plain_args args.now) r.now) span) plain_record result }
    ensures formed { IfOk result (λ q. IsTypeIn (environment_of env.now) (plain_record q)) }
{
    match instantiate(alloc, env.context(), r, args) {
        Ok(q) => Ok(q),
        Err(e) => Err(size_refusal(e, span)),
    }
}

/// Whether an argument is of the kind of its type field. Takes no memory.
fn is_of_kind(a: &Arg, b: &Bound) -> bool
    ensures { result ≡ is_of_kind (plain_arg a.now) (plain_bound b.now) }
{
    match (a, b) {
        (Arg::Op { params, .. }, Bound::Operator(marks)) => *params as usize
            == marks.as_slice().len(),
        (Arg::Op { .. }, Bound::Free) => false,
        (Arg::Op { .. }, Bound::Below(_)) => false,
        (Arg::Plain(_), Bound::Operator(_)) => false,
        (Arg::Plain(_), Bound::Free) => true,
        (Arg::Plain(_), Bound::Below(_)) => true,
    }
}

/// Whether an argument varies as its type field's marks say; nothing is asked where the field is no operator. Takes no
/// memory.
fn varies_as(env: &Env, a: &Arg, b: &Bound) -> bool
    requires kind { is_of_kind (plain_arg a.now) (plain_bound b.now) ≡ true }
    ensures { result ≡ varies_as (context_of (environment_of env.now)) (plain_arg a.now) (plain_bound b.now) }
{
    match b {
        Bound::Free => true,
        Bound::Below(_) => true,
        Bound::Operator(marks) => varies(env.context(), a, marks),
    }
}

/// A written type argument, expanded. The refusals are K1 to K4 where they stand in it.
fn expanded_argument(alloc: Global, env: &Env, t: &TypeTree) -> Result<Arg, InferError>
    requires labels { HasDistinctLabels (type_of t.now) }
    ensures answer { IsAnswer (argument_expanded (environment_of env.now) (type_of t.now)) (λ a. plain_arg a ∷ []) result }
    ensures formed { IfOk result (λ a. IsArgIn (environment_of env.now) (plain_arg a)) }
{
    match expand_arg(alloc, env.context(), t) {
        Ok(a) => Ok(a),
        Err(e) => Err(refusal(e)),
    }
}

/// An argument that is written at a place is of its field's kind, varies as the field's marks say, and is below the
/// field's bound with the earlier arguments put in: K1, K5 and Y9 at that place, K4 of the bound at the node.
fn argument_fits(
    alloc: Global,
    env: &Env,
    a: &Arg,
    b: &Bound,
    earlier: &[Arg],
    at: Span,
    node: Span,
) -> Result<(), InferError>
    requires b { IsBoundUnder (environment_of env.now) (plain_args earlier.now) (plain_bound b.now) }
    requires earlier { AreArgsIn (environment_of env.now) (plain_args earlier.now) }
    requires a { IsArgIn (environment_of env.now) (plain_arg a.now) }
    ensures { IsAnswer (argument_fits (environment_of env.now) node at (plain_bound b.now) (plain_args earlier.now) (plain_arg a.now)) nothing result }
{
    if !is_of_kind(a, b) {
        return Err(InferError::Named(Code::K1, at, Told::Nothing));
    }
    if !varies_as(env, a, b) {
        return Err(InferError::Named(Code::K5, at, Told::Nothing));
    }
    within_bound(alloc, env, b, earlier, a, at, node)
}

/// A written type argument after the earlier ones: expanded, of its field's kind, varying as the field's marks say, and
/// below the field's bound.
fn written_argument(
    alloc: Global,
    env: &Env,
    t: &TypeTree,
    b: &Bound,
    earlier: &[Arg],
    span: Span,
) -> Result<Arg, InferError>
    requires labels { HasDistinctLabels (type_of t.now) }
    requires b { IsBoundUnder (environment_of env.now) (plain_args earlier.now) (plain_bound b.now) }
    requires earlier { AreArgsIn (environment_of env.now) (plain_args earlier.now) }
    ensures { IsAnswer (argument_after (environment_of env.now) span (type_of t.now) (plain_bound b.now) (plain_args earlier.now))
        (λ a. plain_args earlier.now ++ plain_arg a ∷ []) result }
{
    let a = expanded_argument(alloc, env, t)?;
    match argument_fits(alloc, env, &a, b, earlier, type_span(t), span) {
        Ok(()) => Ok(a),
        Err(e) => Err(e),
    }
}

/// Written type arguments, in order. K1 to K4 where they stand in one, K1, K5 and Y9 at one that its type field doesn't
/// take, K4 at the node for the bound of a type field.
pub fn written_arguments(
    alloc: Global,
    env: &Env,
    ts: &[TypeTree],
    bs: &[Bound],
    span: Span,
) -> Result<Vec<Arg>, InferError>
    requires right { IsWellAsked arguments_ (environment_of env.now) (written_arguments span (types_on no_types ts.now) (plain_bounds bs.now)) }
    requires count { length ts.now ≤ length bs.now }
    ensures { IsAnswer (rule (environment_of env.now) (written_arguments span (types_on no_types ts.now) (plain_bounds bs.now)))
        (λ args. plain_args args.items) result }
{
    let mut args = Vec::new(alloc);
    for (i, t) in ts.iter().enumerate() {
        match written_argument(alloc, env, t, &bs[i], &args, span) {
            Ok(a) => args.push(a)?,
            Err(e) => return Err(e),
        }
    }
    Ok(args)
}
