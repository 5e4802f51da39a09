// What is found for the type fields of a record, and types with arguments put in.

ghost use Rattle.std.specs.Prelude.{◌≡◌, length, map, is_none, option_map, true, Some, IfOk};
ghost use Rattle.pict_types.specs.Plain.{plain, plain_arg, plain_args, plain_bound, plain_bounds};
ghost use Rattle.pict_types.specs.Replacing.{FitTheirFields, arguments, replace};
ghost use Rattle.pict_types.specs.Types.{Below, Op, PlainBounds, Top};
ghost use Rattle.pict_rules.specs.Found.{argument_in, mentions_missing, none_found, with_found};
ghost use Rattle.pict_rules.specs.Regular.{FoundFits, IsExpected, IsRegular, IsTypeIn, kinds_found, kinds_of_fields};
ghost use Rattle.pict_match.specs.PlainFound.{found_of};
ghost use Rattle.pict_infer.specs.Answering.{IsAnswer, nothing};
ghost use Rattle.pict_infer.specs.Environments.{environment_of};
ghost use Rattle.pict_infer.specs.Steps.{changed_or_same};
ghost use Rattle.pict_lines.specs.Fields.{AreArgsIn, AreBoundsIn, IsArgIn, IsBoundUnder, IsFieldIn, IsTypeUnder};
ghost use Rattle.pict_lines.specs.Functions.{function_of, FunctionIsFormed};
ghost use Rattle.pict_lines.specs.Lines.{all_found, application_end, as_expected, fields_end, formed, found_before, given_lines, within_all, within_one};
ghost use Rattle.pict_lines.specs.Reading.{found_for, slot};

use crate::functions::Function;
use crate::steps::{below, within_limits};
use pict_infer::{Env, InferError, Told, changed_or_same, size_refusal};
use pict_match::{Found, match_type};
use pict_normal::instantiate_type;
use pict_syntax::{Code, Span};
use pict_types::{Arg, Bound, Ty, Variables, mentions};
use std::alloc::{AllocError, Global};

/// For each type field a mark where it isn't found yet.
fn marks(alloc: Global, found: &[Option<Ty>]) -> Result<Vec<bool>, AllocError>
    ensures { IfOk result (λ ms. ms.items ≡ map is_none found.now) }
{
    let mut marks = Vec::new(alloc);
    for x in found {
        marks.push(x.is_none())?;
    }
    Ok(marks)
}

/// Whether the type of a field mentions a type field that isn't found yet. The only error is want of memory.
pub fn mentions_missing(alloc: Global, t: &Ty, found: &Found) -> Result<bool, AllocError>
    ensures { IfOk result (λ b. (bs : PlainBounds) → b ≡ mentions_missing (found_of bs found.now) (plain t.now)) }
{
    if found.list.is_empty() {
        return Ok(false);
    }
    let missing = marks(alloc, &found.list)?;
    mentions(t, &Variables::Marked(&missing))
}

/// The operator of so many parameters that makes `Top`. An error where a `u32` can't hold the number.
fn top_operator(params: usize) -> Result<Arg, AllocError>
    ensures { IfOk result (λ a. plain_arg a ≡ Op params Top) }
{
    if params > u32::MAX as usize {
        return Err(AllocError);
    }
    Ok(Arg::Op {
        params: params as u32,
        body: Ty::Top,
    })
}

/// What stands for a type field: the argument that is found; `Top`, as a type or as an operator, where none is.
fn argument(alloc: Global, b: &Bound, x: &Option<Ty>) -> Result<Arg, AllocError>
    ensures { IfOk result (λ a. plain_arg a ≡ argument_in (slot (plain_bound b.now) x.now)) }
{
    match x {
        Some(t) => Ok(Arg::Plain(t.copy(alloc)?)),
        None => match b {
            Bound::Operator(marks) => top_operator(marks.as_slice().len()),
            Bound::Free => Ok(Arg::Plain(Ty::Top)),
            Bound::Below(_) => Ok(Arg::Plain(Ty::Top)),
        },
    }
}

/// What stands for each type field.
fn arguments(alloc: Global, bs: &[Bound], found: &Found) -> Result<Vec<Arg>, AllocError>
    requires count { length bs.now ≡ length found.now.list.items }
    ensures { IfOk result (λ args. plain_args args.items ≡ map argument_in (found_for bs.now found.now)) }
{
    let mut args = Vec::new(alloc);
    for (i, x) in found.list.iter().enumerate() {
        args.push(argument(alloc, &bs[i], x)?)?;
    }
    Ok(args)
}

/// A type with these arguments put for its innermost variables. K4 at the place where it passes a limit.
fn instance(alloc: Global, env: &Env, t: &Ty, args: &[Arg], at: Span) -> Result<Ty, InferError>
    requires t { IsTypeUnder (environment_of env.now) (plain_args args.now) (plain t.now) }
    requires args { AreArgsIn (environment_of env.now) (plain_args args.now) }
    ensures answer { IsAnswer (formed (environment_of env.now) (replace (arguments (plain_args args.now)) (plain t.now)) at) plain result }
    ensures formed { IfOk result (λ u. IsTypeIn (environment_of env.now) (plain u)) }
{
    match instantiate_type(alloc, env.context(), t, args) {
        Ok(u) => Ok(u),
        Err(e) => Err(size_refusal(e, at)),
    }
}

/// The type that the value of a field is wanted to have, with what is found put in; nothing where there are no type
/// fields, and it is the field's own. K4 at the place where it passes a limit.
pub fn wanted(
    alloc: Global,
    env: &Env,
    t: &Ty,
    bs: &[Bound],
    found: &Found,
    at: Span,
) -> Result<Option<Ty>, InferError>
    requires count { length bs.now ≡ length found.now.list.items }
    requires t { IsFieldIn (environment_of env.now) bs.now found.now t.now }
    requires fits { FoundFits (environment_of env.now) (found_for bs.now found.now) }
    ensures answer { IsAnswer (formed (environment_of env.now) (with_found (found_for bs.now found.now) (plain t.now)) at)
        (λ o. changed_or_same o t.now) result }
    ensures formed { IfOk result (λ o. IsTypeIn (environment_of env.now) (changed_or_same o t.now)) }
{
    if found.list.is_empty() {
        within_limits(env, t, at)?;
        return Ok(None);
    }
    let args = arguments(alloc, bs, found)?;
    match instance(alloc, env, t, &args, at) {
        Ok(u) => Ok(Some(u)),
        Err(e) => Err(e),
    }
}

/// A value at a place gave a type, against which the type of its field was matched. Y10 there where the field's type
/// mentions a type field that isn't found still, K4 at the node where it passes a limit with what is found put in, and
/// Y4 at the value where the given type is no subtype of it.
pub fn given_fits(
    alloc: Global,
    env: &Env,
    t: &Ty,
    given: &Ty,
    bs: &[Bound],
    found: &Found,
    at: Span,
    node: Span,
) -> Result<(), InferError>
    requires count { length bs.now ≡ length found.now.list.items }
    requires t { IsFieldIn (environment_of env.now) bs.now found.now t.now }
    requires given { IsTypeIn (environment_of env.now) (plain given.now) }
    requires fits { FoundFits (environment_of env.now) (found_for bs.now found.now) }
    ensures { IsAnswer (given_lines (environment_of env.now) node at (plain t.now) (plain given.now) (found_for bs.now found.now))
        (λ _. found_for bs.now found.now) result }
{
    if mentions_missing(alloc, t, found)? {
        return Err(InferError::Named(Code::Y10, at, Told::Nothing));
    }
    let put = wanted(alloc, env, t, bs, found, node)?;
    below(alloc, env, given, changed_or_same(&put, t), Code::Y4, at)
}

/// Nothing is found yet for these type fields.
pub fn none_found(alloc: Global, bs: &[Bound]) -> Result<Found, AllocError>
    ensures count { IfOk result (λ f. length f.list.items ≡ length bs.now) }
    ensures none { IfOk result (λ f. found_for bs.now f ≡ none_found (plain_bounds bs.now)) }
{
    let mut list = Vec::new(alloc);
    while list.len() < bs.len() {
        list.push(None)?;
    }
    Ok(Found { list })
}

/// What a function's type of the answer finds for its type fields, matched against the type that is expected. The only
/// error is want of memory.
fn found_by_answer(
    alloc: Global,
    env: &Env,
    f: &Function,
    none: Found,
    t: &Ty,
) -> Result<Found, AllocError>
    requires regular { IsRegular (environment_of env.now) }
    requires f { FunctionIsFormed (environment_of env.now) (function_of f.now) }
    requires t { IsTypeIn (environment_of env.now) (plain t.now) }
    requires count { length none.list.items ≡ length f.now.fields.binders.items }
    requires none { found_for f.now.fields.binders.items none ≡ none_found (plain_bounds f.now.fields.binders.items) }
    ensures count { IfOk result (λ x. length x.list.items ≡ length f.now.fields.binders.items) }
    ensures found { IfOk result (λ x. found_for f.now.fields.binders.items x
        ≡ found_before (environment_of env.now) (function_of f.now) true (Some (plain t.now))) }
{
    let mut found = none;
    match_type(alloc, env.context(), &f.answer, t, &mut found)?;
    Ok(found)
}

/// What is found before the values: where a type is expected, and no type argument is written, the type of the answer is
/// matched against it. The only error is want of memory.
pub fn found_first(
    alloc: Global,
    env: &Env,
    f: &Function,
    none_written: bool,
    expected: Option<&Ty>,
) -> Result<Found, AllocError>
    requires regular { IsRegular (environment_of env.now) }
    requires f { FunctionIsFormed (environment_of env.now) (function_of f.now) }
    requires expected { IsExpected (environment_of env.now) (option_map (λ t. plain t.now) expected) }
    ensures count { IfOk result (λ x. length x.list.items ≡ length f.now.fields.binders.items) }
    ensures found { IfOk result (λ x. found_for f.now.fields.binders.items x
        ≡ found_before (environment_of env.now) (function_of f.now) none_written (option_map (λ t. plain t.now) expected.entry)) }
{
    let none = none_found(alloc, &f.fields.binders)?;
    if !none_written {
        return Ok(none);
    }
    match expected {
        None => Ok(none),
        Some(t) => found_by_answer(alloc, env, f, none, t),
    }
}

/// The arguments that were found. Y10 at the place where one is missing.
fn all_found(alloc: Global, found: &Found, node: Span) -> Result<Vec<Arg>, InferError>
    ensures { (bs : PlainBounds) → IsAnswer (all_found (found_of bs found.now) node) (λ args. plain_args args.items) result }
{
    let mut args = Vec::new(alloc);
    for x in &found.list {
        match x {
            Some(t) => args.push(Arg::Plain(t.copy(alloc)?))?,
            None => return Err(InferError::Named(Code::Y10, node, Told::Nothing)),
        }
    }
    Ok(args)
}

/// An argument is below the type that bounds its type field, with the earlier arguments put in.
fn below_bound(
    alloc: Global,
    env: &Env,
    t: &Ty,
    earlier: &[Arg],
    a: &Arg,
    at: Span,
    node: Span,
) -> Result<(), InferError>
    requires t { IsTypeUnder (environment_of env.now) (plain_args earlier.now) (plain t.now) }
    requires earlier { AreArgsIn (environment_of env.now) (plain_args earlier.now) }
    requires a { IsArgIn (environment_of env.now) (plain_arg a.now) }
    ensures { IsAnswer (within_one (environment_of env.now) node (Below (plain t.now)) (plain_args earlier.now) (plain_arg a.now) at) nothing result }
{
    let bound = instance(alloc, env, t, earlier, node)?;
    match a {
        Arg::Plain(u) => below(alloc, env, u, &bound, Code::Y9, at),
        Arg::Op { .. } => below(alloc, env, &Ty::Top, &bound, Code::Y9, at),
    }
}

/// An argument is below the bound of its type field, with the earlier arguments put in: K4 at the node where that passes a
/// limit, Y9 at the place where it isn't below.
pub fn within_bound(
    alloc: Global,
    env: &Env,
    b: &Bound,
    earlier: &[Arg],
    a: &Arg,
    at: Span,
    node: Span,
) -> Result<(), InferError>
    requires b { IsBoundUnder (environment_of env.now) (plain_args earlier.now) (plain_bound b.now) }
    requires earlier { AreArgsIn (environment_of env.now) (plain_args earlier.now) }
    requires a { IsArgIn (environment_of env.now) (plain_arg a.now) }
    ensures { IsAnswer (within_one (environment_of env.now) node (plain_bound b.now) (plain_args earlier.now) (plain_arg a.now) at) nothing result }
{
    match b {
        Bound::Free => Ok(()),
        Bound::Operator(_) => Ok(()),
        Bound::Below(t) => below_bound(alloc, env, t, earlier, a, at, node),
    }
}

/// Arguments are below the bounds of their type fields.
fn within_bounds(
    alloc: Global,
    env: &Env,
    bs: &[Bound],
    args: &[Arg],
    node: Span,
) -> Result<(), InferError>
    requires bounds { AreBoundsIn (environment_of env.now) (plain_bounds bs.now) }
    requires args { AreArgsIn (environment_of env.now) (plain_args args.now) }
    requires fit { FitTheirFields (plain_args args.now) (plain_bounds bs.now) }
    ensures { IsAnswer (within_all (environment_of env.now) node (plain_bounds bs.now) (plain_args args.now)) nothing result }
{
    for (i, b) in bs.iter().enumerate() {
        within_bound(alloc, env, b, &args[..i], &args[i], node, node)?;
    }
    Ok(())
}

/// The arguments that the values of fields found. Y10 where one is missing, Y9 where one is not below its type field's
/// bound, and K4 where such a bound passes a limit, at the place of the fields.
pub fn fields_end(
    alloc: Global,
    env: &Env,
    bs: &[Bound],
    found: &Found,
    node: Span,
) -> Result<Vec<Arg>, InferError>
    requires bounds { AreBoundsIn (environment_of env.now) (plain_bounds bs.now) }
    requires kinds { kinds_found (found_for bs.now found.now) ≡ kinds_of_fields (plain_bounds bs.now) }
    requires fits { FoundFits (environment_of env.now) (found_for bs.now found.now) }
    ensures answer { IsAnswer (fields_end (environment_of env.now) node (plain_bounds bs.now) (found_for bs.now found.now))
        (λ args. plain_args args.items) result }
    ensures formed { IfOk result (λ args. AreArgsIn (environment_of env.now) (plain_args args.items)) }
    ensures fit { IfOk result (λ args. FitTheirFields (plain_args args.items) (plain_bounds bs.now)) }
{
    let args = all_found(alloc, found, node)?;
    match within_bounds(alloc, env, bs, &args, node) {
        Ok(()) => Ok(args),
        Err(e) => Err(e),
    }
}

/// Y4 at the place where the type is no subtype of the one that is expected, if any.
fn as_expected(
    alloc: Global,
    env: &Env,
    t: &Ty,
    expected: Option<&Ty>,
    at: Span,
) -> Result<(), InferError>
    requires t { IsTypeIn (environment_of env.now) (plain t.now) }
    requires expected { IsExpected (environment_of env.now) (option_map (λ t. plain t.now) expected) }
    ensures { IsAnswer (as_expected (environment_of env.now) (option_map (λ t. plain t.now) expected.entry) (plain t.now) at) nothing result }
{
    match expected {
        None => Ok(()),
        Some(u) => below(alloc, env, t, u, Code::Y4, at),
    }
}

/// The type of an application's answer with the arguments put in: K4 where it passes a limit, Y4 where it is no subtype
/// of the type that is expected, at the application.
pub fn application_end(
    alloc: Global,
    env: &Env,
    answer: &Ty,
    args: &[Arg],
    expected: Option<&Ty>,
    node: Span,
) -> Result<Ty, InferError>
    requires answer { IsTypeUnder (environment_of env.now) (plain_args args.now) (plain answer.now) }
    requires args { AreArgsIn (environment_of env.now) (plain_args args.now) }
    requires expected { IsExpected (environment_of env.now) (option_map (λ t. plain t.now) expected) }
    ensures answer { IsAnswer (application_end (environment_of env.now) node (plain answer.now) (plain_args args.now)
        (option_map (λ t. plain t.now) expected.entry)) plain result }
    ensures formed { IfOk result (λ t. IsTypeIn (environment_of env.now) (plain t)) }
{
    let t = instance(alloc, env, answer, args, node)?;
    match as_expected(alloc, env, &t, expected, node) {
        Ok(()) => Ok(t),
        Err(e) => Err(e),
    }
}
