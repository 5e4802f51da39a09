// The depth of the core of each phrase, told from its tree. Nothing is built.
ghost use Rattle.std.specs.Prelude.{◌≡◌, ◌+◌, ◌∷◌, ◌++◌, [], max, Some, None};
ghost use Rattle.pict_syntax.specs.Trees.{no_vals, no_labelled_vals, no_decs, no_procs, no_definitions};
ghost use Rattle.pict_syntax.specs.PlainTrees.{abs_of, dec_of, chan_of, val_of, proc_of, field_vals_of, vals_on, labelled_vals_on, decs_on, procs_on, definitions_on, declarations_of};
ghost use Rattle.pict_translation.specs.Depth.{or_one, put_with, right_depth, left_depth, left_depth_after, side_depth, definitions_depth, application_depth, sent_depth, sent_chan_depth, fields_depth, withs_depth, labelled_depth, depths, abs_depth, dec_depth, decs_depth, abs_depths, proc_depth, proc_depths, program_depth};
ghost use Rattle.pict_derive.specs.Held.{held, held_option};

use pict_syntax::{Abs, Chan, Dec, Definition, FieldVals, LabelledVal, Proc, Program, Val};

/// The depth of a program's core, held at the greatest `u64`. Takes no memory.
pub fn program_depth(program: &Program) -> u64
    ensures { result ≡ held (program_depth (declarations_of program.now)) }
{
    decs(&program.decs, 1)
}

/// The depth of what sends the value; nothing where it is simple.
#[cycle(depths)]
fn value(tree: &Val) -> Option<u64>
    ensures { held_option result ≡ held_option (sent_depth (val_of tree.now)) }
{
    match tree {
        Val::OfChan(chan) => channel(chan),
        Val::Number(_, _) => None,
        Val::Character(_, _) => None,
        Val::String(_, _) => None,
        Val::True(_) => None,
        Val::False(_) => None,
        Val::Fields(_, parts) => fields(parts, None),
        Val::If(_, test, yes, no) => branches(value(test), value(yes), value(no)),
        Val::Lambda(_, abs) => Some(abstraction(abs).max(1).saturating_add(2)),
    }
}

/// The same for a value that stands as a channel.
#[cycle(depths)]
fn channel(tree: &Chan) -> Option<u64>
    ensures { held_option result ≡ held_option (sent_chan_depth (chan_of tree.now)) }
{
    match tree {
        Chan::Use(_, _) => None,
        Chan::Fold(_, _, inner) => value(inner),
        Chan::Block(_, before, body) => Some(decs(before, or_one(value(body)))),
        Chan::Apply(_, head, parts) => Some(or_one(put_with(value(head), fields(parts, Some(1))))),
        Chan::Right(_, _, parts) => Some(or_one(right(parts))),
        Chan::Left(_, _, parts) => Some(or_one(left(parts))),
    }
}

/// With these fields, something of that depth; nothing where that is nothing and all fields are simple.
#[cycle(depths)]
fn fields(parts: &FieldVals, inner: Option<u64>) -> Option<u64>
    ensures { held_option result ≡ held_option (fields_depth (field_vals_of parts.now) inner) }
{
    values(&parts.positional, labelled(&parts.labelled, inner))
}

#[cycle(depths)]
fn values(trees: &[Val], inner: Option<u64>) -> Option<u64>
    ensures { held_option result ≡ held_option (withs_depth (vals_on no_vals trees.now) inner) }
{
    let mut inner = inner;
    for tree in trees.iter().rev() {
        inner = put_with(value(tree), inner);
    }
    inner
}

#[cycle(depths)]
fn labelled(trees: &[LabelledVal], inner: Option<u64>) -> Option<u64>
    ensures { held_option result ≡ held_option (labelled_depth (labelled_vals_on no_labelled_vals trees.now) inner) }
{
    let mut inner = inner;
    for tree in trees.iter().rev() {
        inner = put_with(value(&tree.value), inner);
    }
    inner
}

/// `(f > a1 a2 .. an)` is `(f a1 (f > a2 .. an))`, and `(f > a)` is `a`.
#[cycle(depths)]
fn right(trees: &[Val]) -> Option<u64>
    ensures { held_option result ≡ held_option (right_depth (depths (vals_on no_vals trees.now))) }
{
    let Some((last, before)) = trees.split_last() else {
        return Some(1);
    };
    let mut inner = value(last);
    for tree in before.iter().rev() {
        inner = application(value(tree), inner);
    }
    inner
}

/// `(f < a1 .. an-1 an)` is `(f (f < a1 .. an-1) an)`, and `(f < a)` is `a`.
#[cycle(depths)]
fn left(trees: &[Val]) -> Option<u64>
    ensures { held_option result ≡ held_option (left_depth (depths (vals_on no_vals trees.now))) }
{
    let Some((first, rest)) = trees.split_first() else {
        return Some(1);
    };
    let mut head = value(first);
    for tree in rest {
        head = application(head, value(tree));
    }
    head
}

#[cycle(depths)]
fn abstraction(tree: &Abs) -> u64
    ensures { held result ≡ held (abs_depth (abs_of tree.now)) }
{
    match tree {
        Abs::Process(_, _, body) => process(body).saturating_add(1),
        Abs::Function(_, _, _, body) => or_one(value(body)).saturating_add(1),
    }
}

#[cycle(depths)]
fn decs(trees: &[Dec], inner: u64) -> u64
    ensures { held result ≡ held (decs_depth (decs_on no_decs trees.now) inner) }
{
    let mut inner = inner;
    for tree in trees.iter().rev() {
        inner = dec(tree, inner);
    }
    inner
}

#[cycle(depths)]
fn dec(tree: &Dec, rest: u64) -> u64
    ensures { held result ≡ held (dec_depth (dec_of tree.now) rest) }
{
    match tree {
        Dec::New(_, _, _) => rest.saturating_add(1),
        Dec::Run(_, body) => process(body).max(rest).saturating_add(1),
        Dec::Let(_, _, sent) => read(rest, value(sent)),
        Dec::Def(_, parts) => definitions(parts, rest),
        Dec::Alias(_, _, _) => rest,
        Dec::Operator(_, _, _, _) => rest,
        Dec::Await(_, sent) => read(rest, value(sent)),
    }
}

#[cycle(depths)]
fn definitions(parts: &[Definition], rest: u64) -> u64
    ensures { held result ≡ held (definitions_depth (abs_depths (definitions_on no_definitions parts.now)) rest) }
{
    let mut inner = rest;
    for part in parts.iter().rev() {
        inner = beside(abstraction(&part.abs), inner);
    }
    inner.saturating_add(parts.len() as u64)
}

#[cycle(depths)]
fn process(tree: &Proc) -> u64
    ensures { held result ≡ held (proc_depth (proc_of tree.now)) }
{
    match tree {
        Proc::Send(_, chan, message) => {
            or_one(put_with(channel(chan), put_with(value(message), None)))
        }
        Proc::Receive(_, chan, abs) => { or_one(put_with(channel(chan), Some(abstraction(abs)))) }
        Proc::Serve(_, chan, abs) => { or_one(put_with(channel(chan), Some(abstraction(abs)))) }
        Proc::If(_, test, yes, no) => or_one(put_with(
            value(test),
            Some(beside(process(yes), process(no))),
        )),
        Proc::Inert(_) => 1,
        Proc::Group(_, before, parts) => decs(before, side_by_side(parts)),
    }
}

#[cycle(depths)]
fn side_by_side(trees: &[Proc]) -> u64
    ensures { held result ≡ held (side_depth (proc_depths (procs_on no_procs trees.now))) }
{
    let Some((last, before)) = trees.split_last() else {
        return 1;
    };
    let mut inner = process(last);
    for tree in before.iter().rev() {
        inner = beside(process(tree), inner);
    }
    inner
}

/// The depth of a process that sends the value, or that of the plain output of a simple one.
fn or_one(value: Option<u64>) -> u64
    ensures { result ≡ or_one value }
{
    match value {
        None => 1,
        Some(depth) => depth,
    }
}

/// The depth of a process with a value in it, if there is one to be put around.
fn put_with(value: Option<u64>, inner: Option<u64>) -> Option<u64>
    ensures { held_option result ≡ held_option (put_with value inner) }
{
    match value {
        None => inner,
        Some(depth) => Some(read(or_one(inner), Some(depth))),
    }
}

/// The depth of `new k ((k?p = rest) | V(v, k))`.
fn read(rest: u64, sent: Option<u64>) -> u64
    ensures { held result ≡ held (max (rest + 1) (or_one sent) + 2) }
{
    rest.saturating_add(1).max(or_one(sent)).saturating_add(2)
}

fn application(first: Option<u64>, second: Option<u64>) -> Option<u64>
    ensures { held_option result ≡ held_option (application_depth first second) }
{
    Some(or_one(put_with(first, put_with(second, Some(1)))))
}

fn branches(test: Option<u64>, yes: Option<u64>, no: Option<u64>) -> Option<u64>
    ensures { held_option result ≡ held_option (put_with test (Some (max (or_one yes) (or_one no) + 1))) }
{
    put_with(test, Some(beside(or_one(yes), or_one(no))))
}

fn beside(left: u64, right: u64) -> u64
    ensures { held result ≡ held (max left right + 1) }
{
    left.max(right).saturating_add(1)
}
