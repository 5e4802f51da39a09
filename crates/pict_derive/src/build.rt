// The translation of values, abstractions, declarations and processes.
//
// What is built stands under the names of `scope`, each with the level of its variable, and under `depth` variables.
// Every function gives the scope back as it was, but for those that read declarations, which leave what these bind. The
// only error is want of memory, also for a level of more than 32 bits.
ghost use Rattle.std.specs.Prelude.{◌≡◌, length, IfOk, OnOk};
ghost use Rattle.pict_core.specs.Plain.{plain_core, plain_val};
ghost use Rattle.pict_core.specs.Term.{Var};
ghost use Rattle.pict_syntax.specs.PlainTrees.{abs_of, dec_of, chan_of, val_of, proc_of, field_vals_of, vals_on, labelled_vals_on, decs_on, procs_on, definitions_on};
ghost use Rattle.pict_syntax.specs.Trees.{no_vals, no_labelled_vals, no_decs, no_procs, no_definitions};
ghost use Rattle.pict_translation.specs.Placed.{side_by_side};
ghost use Rattle.pict_translation.specs.Translation.{sending, sending_chan, reader, dec_core, decs_core, proc_core, procs_core};
ghost use Rattle.pict_derive.specs.Built.{Declares, Defines, Extends, Serves, Takes, TakesAll, TakesChan, TakesFields, TakesLabelled, place, sending_lambda, sending_left, sending_right};

use crate::outside::{Outside, level_after};
use crate::parts::{applied, bind_all, channels, nothing_sent, unit_pattern};
use crate::patterns::{open, open_function};
use crate::simple::{record, simple, simple_channel, use_core};
use crate::terms::{choice, core_input, core_output};
use pict_binders::{Binder, Binders};
use pict_core::{Core, CoreVal};
use pict_syntax::{
    Abs, Chan, Dec, Definition, FieldVals, LabelledVal, Name, Names, Proc, Span, Val,
};
use std::alloc::{AllocError, Global};

/// Values that were taken for the fields of a record or of an application.
#[derive(Drop)]
struct Taken {
    positional: Vec<CoreVal>,
    labelled: Vec<(Name, CoreVal)>,
}

/// The process that sends a value on the variable of level `k`.
#[cycle(build)]
fn value(
    alloc: Global,
    names: &Names,
    scope: &mut Binders,
    tree: &Val,
    k: u32,
    depth: u32,
) -> Result<Core, AllocError>
    ensures core { IfOk result (λ core. plain_core core ≡ sending (place names.now scope.old) (val_of tree.now) (Var k) depth) }
    ensures scope { OnOk result (scope.new ≡ scope.old) }
{
    match tree {
        Val::OfChan(chan) => Ok(channel(alloc, names, scope, chan, k, depth)?),
        Val::Number(at, number) => Ok(core_output(CoreVal::Var(k), CoreVal::Int(*number), *at)),
        Val::Character(at, byte) => Ok(core_output(CoreVal::Var(k), CoreVal::Char(*byte), *at)),
        Val::String(at, bytes) => {
            Ok(core_output(CoreVal::Var(k), CoreVal::Text(bytes.copy(alloc)?), *at))
        }
        Val::True(at) => Ok(core_output(CoreVal::Var(k), CoreVal::Bool(true), *at)),
        Val::False(at) => Ok(core_output(CoreVal::Var(k), CoreVal::Bool(false), *at)),
        Val::Fields(at, parts) => {
            let mut outer = Outside::new(alloc, depth);
            let taken = fields(alloc, names, scope, parts, &mut outer)?;
            let message = record(names, taken.positional, taken.labelled)?;
            Ok(outer.around(alloc, core_output(CoreVal::Var(k), message, *at))?)
        }
        Val::If(_, test, yes, no) => {
            let mut outer = Outside::new(alloc, depth);
            let test = operand(alloc, names, scope, test, &mut outer)?;
            let yes = value(alloc, names, scope, yes, k, outer.depth)?;
            let no = value(alloc, names, scope, no, k, outer.depth)?;
            let rest = choice(alloc, test, yes, no)?;
            Ok(outer.around(alloc, rest)?)
        }
        Val::Lambda(at, abs) => Ok(lambda(alloc, names, scope, abs, *at, k, depth)?),
    }
}

/// `new f (A at f | k!f)`, for the abstraction A.
#[cycle(build)]
fn lambda(
    alloc: Global,
    names: &Names,
    scope: &mut Binders,
    tree: &Abs,
    at: Span,
    k: u32,
    depth: u32,
) -> Result<Core, AllocError>
    ensures core { IfOk result (λ core. plain_core core ≡ sending_lambda (place names.now scope.old) (abs_of tree.now) at (Var k) depth) }
    ensures scope { OnOk result (scope.new ≡ scope.old) }
{
    let mut outer = Outside::new(alloc, depth);
    let f = outer.new_channel()?;
    let server = abstraction(
        alloc,
        names,
        scope,
        tree,
        CoreVal::Var(f),
        true,
        outer.depth,
    )?;
    outer.beside(server)?;
    Ok(outer.around(alloc, core_output(CoreVal::Var(k), CoreVal::Var(f), at))?)
}

/// The same for a value that stands as a channel.
#[cycle(build)]
fn channel(
    alloc: Global,
    names: &Names,
    scope: &mut Binders,
    tree: &Chan,
    k: u32,
    depth: u32,
) -> Result<Core, AllocError>
    ensures core { IfOk result (λ core. plain_core core ≡ sending_chan (place names.now scope.old) (chan_of tree.now) (Var k) depth) }
    ensures scope { OnOk result (scope.new ≡ scope.old) }
{
    match tree {
        Chan::Use(at, name) => Ok(core_output(CoreVal::Var(k), use_core(names, scope, *name), *at)),
        Chan::Fold(at, _, inner) => match simple(alloc, names, scope, inner)? {
            Some(message) => Ok(core_output(CoreVal::Var(k), message, *at)),
            None => Ok(value(alloc, names, scope, inner, k, depth)?),
        },
        Chan::Block(_, before, body) => {
            let around = scope.len();
            let mut outer = Outside::new(alloc, depth);
            decs(alloc, names, scope, before, &mut outer)?;
            let body = value(alloc, names, scope, body, k, outer.depth)?;
            scope.cut(around);
            Ok(outer.around(alloc, body)?)
        }
        Chan::Apply(at, head, parts) => {
            let mut outer = Outside::new(alloc, depth);
            let head = operand(alloc, names, scope, head, &mut outer)?;
            let mut taken = fields(alloc, names, scope, parts, &mut outer)?;
            taken.positional.push(CoreVal::Var(k))?;
            let message = record(names, taken.positional, taken.labelled)?;
            Ok(outer.around(alloc, core_output(head, message, *at))?)
        }
        Chan::Right(at, head, parts) => {
            Ok(right(alloc, names, scope, parts, head.name, *at, k, depth)?)
        }
        Chan::Left(at, head, parts) => {
            Ok(left(alloc, names, scope, parts, head.name, *at, k, depth)?)
        }
    }
}

/// With the value as the answer: around the rest stands what makes it, and the answer is its core value.
#[cycle(build)]
fn operand(
    alloc: Global,
    names: &Names,
    scope: &mut Binders,
    tree: &Val,
    outer: &mut Outside,
) -> Result<CoreVal, AllocError>
    ensures core { IfOk result (Takes outer.old outer.new (place names.now scope.old) (val_of tree.now)) }
    ensures scope { OnOk result (scope.new ≡ scope.old) }
{
    match simple(alloc, names, scope, tree)? {
        Some(found) => Ok(found),
        None => {
            let k = outer.new_channel()?;
            let sent = value(alloc, names, scope, tree, k, outer.depth)?;
            let level = outer.read_one(k, sent)?;
            Ok(CoreVal::Var(level))
        }
    }
}

/// The same for a value that stands as a channel.
#[cycle(build)]
fn channel_operand(
    alloc: Global,
    names: &Names,
    scope: &mut Binders,
    tree: &Chan,
    outer: &mut Outside,
) -> Result<CoreVal, AllocError>
    ensures core { IfOk result (TakesChan outer.old outer.new (place names.now scope.old) (chan_of tree.now)) }
    ensures scope { OnOk result (scope.new ≡ scope.old) }
{
    match simple_channel(alloc, names, scope, tree)? {
        Some(found) => Ok(found),
        None => {
            let k = outer.new_channel()?;
            let sent = channel(alloc, names, scope, tree, k, outer.depth)?;
            let level = outer.read_one(k, sent)?;
            Ok(CoreVal::Var(level))
        }
    }
}

/// With the fields as the answer: the positional ones before the labelled ones, as they are written.
#[cycle(build)]
fn fields(
    alloc: Global,
    names: &Names,
    scope: &mut Binders,
    parts: &FieldVals,
    outer: &mut Outside,
) -> Result<Taken, AllocError>
    ensures core { IfOk result (TakesFields outer.old outer.new (place names.now scope.old) (field_vals_of parts.now)) }
    ensures scope { OnOk result (scope.new ≡ scope.old) }
{
    let positional = values(alloc, names, scope, &parts.positional, outer)?;
    let labelled = labelled(alloc, names, scope, &parts.labelled, outer)?;
    Ok(Taken {
        positional,
        labelled,
    })
}

#[cycle(build)]
fn values(
    alloc: Global,
    names: &Names,
    scope: &mut Binders,
    trees: &[Val],
    outer: &mut Outside,
) -> Result<Vec<CoreVal>, AllocError>
    ensures core { IfOk result (λ xs. TakesAll outer.old outer.new (place names.now scope.old) (vals_on no_vals trees.now) xs.items) }
    ensures scope { OnOk result (scope.new ≡ scope.old) }
{
    let mut found = Vec::new(alloc);
    for tree in trees {
        let x = operand(alloc, names, scope, tree, outer)?;
        found.push(x)?;
    }
    Ok(found)
}

#[cycle(build)]
fn labelled(
    alloc: Global,
    names: &Names,
    scope: &mut Binders,
    trees: &[LabelledVal],
    outer: &mut Outside,
) -> Result<Vec<(Name, CoreVal)>, AllocError>
    ensures core { IfOk result (λ xs. TakesLabelled outer.old outer.new (place names.now scope.old) (labelled_vals_on no_labelled_vals trees.now) xs.items) }
    ensures scope { OnOk result (scope.new ≡ scope.old) }
{
    let mut found = Vec::new(alloc);
    for tree in trees {
        let x = operand(alloc, names, scope, &tree.value, outer)?;
        found.push((tree.label.name, x))?;
    }
    Ok(found)
}

/// `(f > a1 a2 .. an)` is `(f a1 (f > a2 .. an))`, and `(f > a)` is `a`.
#[cycle(build)]
fn right(
    alloc: Global,
    names: &Names,
    scope: &mut Binders,
    trees: &[Val],
    head: Name,
    at: Span,
    k: u32,
    depth: u32,
) -> Result<Core, AllocError>
    ensures core { IfOk result (λ core. plain_core core ≡ sending_right (place names.now scope.old) head.0 at (vals_on no_vals trees.now) (Var k) depth) }
    ensures scope { OnOk result (scope.new ≡ scope.old) }
{
    let Some((last, before)) = trees.split_last() else {
        return Ok(nothing_sent(k));
    };
    let Some((second, first)) = before.split_last() else {
        return Ok(value(alloc, names, scope, last, k, depth)?);
    };
    let mut outer = Outside::new(alloc, depth);
    let mut answer = k;
    for tree in first {
        let x = operand(alloc, names, scope, tree, &mut outer)?;
        let level = level_after(outer.depth)?;
        let f = use_core(names, scope, head);
        let body = applied(alloc, f, x, CoreVal::Var(level), answer, at)?;
        answer = outer.nest(alloc, body)?;
    }
    let x = operand(alloc, names, scope, second, &mut outer)?;
    let y = operand(alloc, names, scope, last, &mut outer)?;
    let f = use_core(names, scope, head);
    let rest = applied(alloc, f, x, y, answer, at)?;
    Ok(outer.around(alloc, rest)?)
}

/// `(f < a1 .. an-1 an)` is `(f (f < a1 .. an-1) an)`, and `(f < a)` is `a`.
#[cycle(build)]
fn left(
    alloc: Global,
    names: &Names,
    scope: &mut Binders,
    trees: &[Val],
    head: Name,
    at: Span,
    k: u32,
    depth: u32,
) -> Result<Core, AllocError>
    ensures core { IfOk result (λ core. plain_core core ≡ sending_left (place names.now scope.old) head.0 at (vals_on no_vals trees.now) (Var k) depth) }
    ensures scope { OnOk result (scope.new ≡ scope.old) }
{
    let Some((first, after)) = trees.split_first() else {
        return Ok(nothing_sent(k));
    };
    let Some((second, others)) = after.split_first() else {
        return Ok(value(alloc, names, scope, first, k, depth)?);
    };
    let mut outer = Outside::new(alloc, depth);
    let mut answer = k;
    for tree in others.iter().rev() {
        let level = level_after(outer.depth)?;
        let inside = level_after(level)?;
        let mut inner = Outside::new(alloc, inside);
        let y = operand(alloc, names, scope, tree, &mut inner)?;
        let f = use_core(names, scope, head);
        let rest = applied(alloc, f, CoreVal::Var(level), y, answer, at)?;
        let body = inner.around(alloc, rest)?;
        answer = outer.nest(alloc, body)?;
    }
    let x = operand(alloc, names, scope, first, &mut outer)?;
    let y = operand(alloc, names, scope, second, &mut outer)?;
    let f = use_core(names, scope, head);
    let rest = applied(alloc, f, x, y, answer, at)?;
    Ok(outer.around(alloc, rest)?)
}

/// The input of an abstraction on a channel.
#[cycle(build)]
fn abstraction(
    alloc: Global,
    names: &Names,
    scope: &mut Binders,
    tree: &Abs,
    chan: CoreVal,
    replicated: bool,
    depth: u32,
) -> Result<Core, AllocError>
    ensures core { IfOk result (λ core. plain_core core ≡ reader (place names.now scope.old) (abs_of tree.now) (plain_val chan) replicated depth) }
    ensures scope { OnOk result (scope.new ≡ scope.old) }
{
    let around = scope.len();
    match tree {
        Abs::Process(_, pattern, body) => {
            let opened = open(alloc, names, pattern)?;
            let inside = bind_all(scope, &opened.names, depth)?;
            let body = process(alloc, names, scope, body, inside)?;
            scope.cut(around);
            Ok(core_input(alloc, chan, replicated, opened.pattern, body)?)
        }
        Abs::Function(_, parts, _, body) => {
            let opened = open_function(alloc, names, parts)?;
            let answer = bind_all(scope, &opened.before, depth)?;
            let next = level_after(answer)?;
            let inside = bind_all(scope, &opened.after, next)?;
            let body = value(alloc, names, scope, body, answer, inside)?;
            scope.cut(around);
            Ok(core_input(alloc, chan, replicated, opened.pattern, body)?)
        }
    }
}

/// Declarations around the rest, which stands under the names that they bind.
#[cycle(build)]
pub fn decs(
    alloc: Global,
    names: &Names,
    scope: &mut Binders,
    trees: &[Dec],
    outer: &mut Outside,
) -> Result<(), AllocError>
    ensures core { OnOk result (Declares outer.old outer.new (decs_core (place names.now scope.old) (decs_on no_decs trees.now)) (place names.now scope.new)) }
    ensures scope { OnOk result (Extends scope.old scope.new) }
{
    for tree in trees {
        dec(alloc, names, scope, tree, outer)?;
    }
    Ok(())
}

#[cycle(build)]
fn dec(
    alloc: Global,
    names: &Names,
    scope: &mut Binders,
    tree: &Dec,
    outer: &mut Outside,
) -> Result<(), AllocError>
    ensures core { OnOk result (Declares outer.old outer.new (dec_core (place names.now scope.old) (dec_of tree.now)) (place names.now scope.new)) }
    ensures scope { OnOk result (Extends scope.old scope.new) }
{
    match tree {
        Dec::New(_, id, _) => {
            let number = outer.new_channel()?;
            scope.bind(Binder {
                name: id.name.0,
                number,
            })?;
            Ok(())
        }
        Dec::Run(_, body) => {
            let left = process(alloc, names, scope, body, outer.depth)?;
            outer.beside(left)?;
            Ok(())
        }
        Dec::Let(_, pattern, sent) => {
            let k = outer.new_channel()?;
            let sent = value(alloc, names, scope, sent, k, outer.depth)?;
            let opened = open(alloc, names, pattern)?;
            let inside = bind_all(scope, &opened.names, outer.depth)?;
            outer.read(k, opened.pattern, inside, sent)?;
            Ok(())
        }
        Dec::Def(_, parts) => Ok(definitions(alloc, names, scope, parts, outer)?),
        Dec::Alias(_, _, _) => Ok(()),
        Dec::Operator(_, _, _, _) => Ok(()),
        Dec::Await(_, sent) => {
            let k = outer.new_channel()?;
            let inside = outer.depth;
            let sent = value(alloc, names, scope, sent, k, inside)?;
            outer.read(k, unit_pattern(alloc), inside, sent)?;
            Ok(())
        }
    }
}

/// A `def`: its channels around the rest, and its abstractions beside it.
#[cycle(build)]
fn definitions(
    alloc: Global,
    names: &Names,
    scope: &mut Binders,
    parts: &[Definition],
    outer: &mut Outside,
) -> Result<(), AllocError>
    ensures core { OnOk result (Defines outer.old outer.new (place names.now scope.old) (definitions_on no_definitions parts.now) (place names.now scope.new)) }
    ensures scope { OnOk result (Extends scope.old scope.new) }
{
    let first = outer.depth;
    channels(scope, parts, outer)?;
    serve(alloc, names, scope, parts, first, outer)?;
    Ok(())
}

/// The abstractions of a `def` beside the rest, each at its channel, of which the first has this level.
#[cycle(build)]
fn serve(
    alloc: Global,
    names: &Names,
    scope: &mut Binders,
    parts: &[Definition],
    first: u32,
    outer: &mut Outside,
) -> Result<(), AllocError>
    ensures core { OnOk result (Serves outer.old outer.new (place names.now scope.old) (definitions_on no_definitions parts.now) first (length parts.now)) }
    ensures scope { OnOk result (scope.new ≡ scope.old) }
{
    let mut level = first;
    for part in parts {
        let f = CoreVal::Var(level);
        let server = abstraction(alloc, names, scope, &part.abs, f, true, outer.depth)?;
        outer.beside(server)?;
        level = level_after(level)?;
    }
    Ok(())
}

/// The core of a process.
#[cycle(build)]
fn process(
    alloc: Global,
    names: &Names,
    scope: &mut Binders,
    tree: &Proc,
    depth: u32,
) -> Result<Core, AllocError>
    ensures core { IfOk result (λ core. plain_core core ≡ proc_core (place names.now scope.old) (proc_of tree.now) depth) }
    ensures scope { OnOk result (scope.new ≡ scope.old) }
{
    let mut outer = Outside::new(alloc, depth);
    match tree {
        Proc::Send(at, chan, message) => {
            let chan = channel_operand(alloc, names, scope, chan, &mut outer)?;
            let message = operand(alloc, names, scope, message, &mut outer)?;
            Ok(outer.around(alloc, core_output(chan, message, *at))?)
        }
        Proc::Receive(_, chan, abs) => {
            let chan = channel_operand(alloc, names, scope, chan, &mut outer)?;
            let body = abstraction(alloc, names, scope, abs, chan, false, outer.depth)?;
            Ok(outer.around(alloc, body)?)
        }
        Proc::Serve(_, chan, abs) => {
            let chan = channel_operand(alloc, names, scope, chan, &mut outer)?;
            let body = abstraction(alloc, names, scope, abs, chan, true, outer.depth)?;
            Ok(outer.around(alloc, body)?)
        }
        Proc::If(_, test, yes, no) => {
            let test = operand(alloc, names, scope, test, &mut outer)?;
            let yes = process(alloc, names, scope, yes, outer.depth)?;
            let no = process(alloc, names, scope, no, outer.depth)?;
            let rest = choice(alloc, test, yes, no)?;
            Ok(outer.around(alloc, rest)?)
        }
        Proc::Inert(_) => Ok(Core::Zero),
        Proc::Group(_, before, parts) => {
            let around = scope.len();
            decs(alloc, names, scope, before, &mut outer)?;
            let body = group(alloc, names, scope, parts, outer.depth)?;
            scope.cut(around);
            Ok(outer.around(alloc, body)?)
        }
    }
}

/// Processes side by side.
#[cycle(build)]
fn group(
    alloc: Global,
    names: &Names,
    scope: &mut Binders,
    trees: &[Proc],
    depth: u32,
) -> Result<Core, AllocError>
    ensures core { IfOk result (λ core. plain_core core ≡ side_by_side (procs_core (place names.now scope.old) (procs_on no_procs trees.now)) depth) }
    ensures scope { OnOk result (scope.new ≡ scope.old) }
{
    let Some((last, before)) = trees.split_last() else {
        return Ok(Core::Zero);
    };
    let mut outer = Outside::new(alloc, depth);
    for tree in before {
        let left = process(alloc, names, scope, tree, outer.depth)?;
        outer.beside(left)?;
    }
    let body = process(alloc, names, scope, last, outer.depth)?;
    Ok(outer.around(alloc, body)?)
}
