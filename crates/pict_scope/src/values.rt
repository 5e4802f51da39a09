// Scopes of values, abstractions, declarations and processes.

ghost use Rattle.std.specs.Prelude.{map};
ghost use Rattle.pict_syntax.specs.PlainTrees.{abs_of, chan_of, dec_of, field_vals_of, proc_of, type_of, val_of};
ghost use Rattle.pict_scope.specs.Forms.{in_abs, in_chan, in_dec, in_field_vals, in_proc, in_type, in_val};
ghost use Rattle.pict_scope.specs.Outlines.{◌▸◌, binds_all, closed, group};
ghost use Rattle.pict_scope.specs.Held.{each, in_dec_tree, in_definition, in_labelled_val, in_parameter, in_proc_tree, in_val_tree};
ghost use Rattle.pict_scope.specs.Reads.{IsRead};

use crate::error::ScopeError;
use crate::patterns::{read_function_pattern, read_pattern};
use crate::reader::Reader;
use crate::steps::{close_group, enter, go_back, open_group, place};
use crate::types::{read_annotation, read_type, read_types};
use pict_syntax::{
    Abs, Chan, Code, Dec, Definition, FieldVals, Id, LabelledVal, Proc, TypeTree, Val,
};

#[cycle(values)]
#[tactic(auto, using(crate::proofs::Reading::reading), unfolding(pict_syntax::specs::PlainTrees::dec_of))]
fn read_val(r: &mut Reader, v: &Val) -> Result<(), ScopeError>
    ensures { IsRead (in_val (val_of v.now)) r.old r.new result }
{
    match v {
        Val::OfChan(c) => read_chan(r, c),
        Val::Number(..) | Val::Character(..) | Val::String(..) => Ok(()),
        Val::True(_) | Val::False(_) => Ok(()),
        Val::Fields(_, f) => read_field_vals(r, f),
        Val::If(_, c, v, w) => {
            read_val(r, c)?;
            read_val(r, v)?;
            read_val(r, w)
        }
        Val::Lambda(_, abs) => read_abs(r, abs),
    }
}

#[cycle(values)]
#[tactic(auto, using(crate::proofs::Reading::reading, crate::proofs::ValueForms::value_forms), unfolding(pict_syntax::specs::PlainTrees::dec_of))]
fn read_chan(r: &mut Reader, c: &Chan) -> Result<(), ScopeError>
    ensures { IsRead (in_chan (chan_of c.now)) r.old r.new result }
{
    match c {
        Chan::Use(span, name) => r.use_value(*span, *name),
        Chan::Fold(_, annotation, v) => {
            read_annotation(r, annotation)?;
            read_val(r, v)
        }
        Chan::Block(_, ds, v) => {
            let outer = place(r);
            read_decs(r, ds)?;
            read_val(r, v)?;
            go_back(r, outer);
            Ok(())
        }
        Chan::Apply(_, v, f) => {
            read_val(r, v)?;
            read_field_vals(r, f)
        }
        Chan::Right(_, id, vs) => {
            r.use_value(id.span, id.name)?;
            read_vals(r, vs)
        }
        Chan::Left(_, id, vs) => {
            r.use_value(id.span, id.name)?;
            read_vals(r, vs)
        }
    }
}

#[cycle(values)]
#[tactic(auto, using(crate::proofs::Reading::reading))]
fn read_field_vals(r: &mut Reader, f: &FieldVals) -> Result<(), ScopeError>
    ensures { IsRead (in_field_vals (field_vals_of f.now)) r.old r.new result }
{
    read_types(r, &f.type_arguments)?;
    read_vals(r, &f.positional)?;
    read_label_group(r, &f.labelled)
}

#[cycle(values)]
#[tactic(auto, using(crate::proofs::Reading::reading))]
fn read_vals(r: &mut Reader, vs: &[Val]) -> Result<(), ScopeError>
    ensures { IsRead (each in_val_tree vs.now) r.old r.new result }
{
    for v in vs {
        read_val(r, v)?;
    }
    Ok(())
}

#[cycle(values)]
#[tactic(auto, using(crate::proofs::Reading::reading))]
fn read_label_group(r: &mut Reader, ls: &[LabelledVal]) -> Result<(), ScopeError>
    ensures { IsRead (group (each in_labelled_val ls.now)) r.old r.new result }
{
    let outer = open_group(r);
    read_labelled_vals(r, ls)?;
    close_group(r, outer);
    Ok(())
}

#[cycle(values)]
#[tactic(auto, using(crate::proofs::Reading::reading))]
fn read_labelled_vals(r: &mut Reader, ls: &[LabelledVal]) -> Result<(), ScopeError>
    ensures { IsRead (each in_labelled_val ls.now) r.old r.new result }
{
    for l in ls {
        r.once(Code::S4, l.label)?;
        read_val(r, &l.value)?;
    }
    Ok(())
}

#[cycle(values)]
#[tactic(auto, using(crate::proofs::Reading::reading, crate::proofs::ValueForms::value_forms), unfolding(pict_syntax::specs::PlainTrees::dec_of))]
fn read_abs(r: &mut Reader, abs: &Abs) -> Result<(), ScopeError>
    ensures { IsRead (in_abs (abs_of abs.now)) r.old r.new result }
{
    let outer = place(r);
    match abs {
        Abs::Process(_, p, q) => {
            let opened = read_pattern(r, p)?;
            enter(r, opened)?;
            read_proc(r, q)?;
            go_back(r, outer);
            Ok(())
        }
        Abs::Function(_, f, annotation, v) => {
            let opened = read_function_pattern(r, f, annotation)?;
            enter(r, opened)?;
            read_val(r, v)?;
            go_back(r, outer);
            Ok(())
        }
    }
}

#[cycle(values)]
#[tactic(auto, using(crate::proofs::Reading::reading, crate::proofs::ValueForms::value_forms), unfolding(pict_syntax::specs::PlainTrees::dec_of))]
fn read_proc(r: &mut Reader, p: &Proc) -> Result<(), ScopeError>
    ensures { IsRead (in_proc (proc_of p.now)) r.old r.new result }
{
    match p {
        Proc::Send(_, c, v) => {
            read_chan(r, c)?;
            read_val(r, v)
        }
        Proc::Receive(_, c, abs) | Proc::Serve(_, c, abs) => {
            read_chan(r, c)?;
            read_abs(r, abs)
        }
        Proc::If(_, v, p, q) => {
            read_val(r, v)?;
            read_proc(r, p)?;
            read_proc(r, q)
        }
        Proc::Inert(_) => Ok(()),
        Proc::Group(_, ds, ps) => {
            let outer = place(r);
            read_decs(r, ds)?;
            read_procs(r, ps)?;
            go_back(r, outer);
            Ok(())
        }
    }
}

#[cycle(values)]
#[tactic(auto, using(crate::proofs::Reading::reading))]
fn read_procs(r: &mut Reader, ps: &[Proc]) -> Result<(), ScopeError>
    ensures { IsRead (each in_proc_tree ps.now) r.old r.new result }
{
    for p in ps {
        read_proc(r, p)?;
    }
    Ok(())
}

#[cycle(values)]
#[tactic(auto, using(crate::proofs::Reading::reading))]
pub fn read_decs(r: &mut Reader, ds: &[Dec]) -> Result<(), ScopeError>
    ensures { IsRead (each in_dec_tree ds.now) r.old r.new result }
{
    for d in ds {
        read_dec(r, d)?;
    }
    Ok(())
}

#[cycle(values)]
#[tactic(auto, using(crate::proofs::Reading::reading, crate::proofs::ValueForms::value_forms), unfolding(pict_syntax::specs::PlainTrees::dec_of))]
fn read_dec(r: &mut Reader, d: &Dec) -> Result<(), ScopeError>
    ensures { IsRead (in_dec (dec_of d.now)) r.old r.new result }
{
    match d {
        Dec::New(_, id, t) => {
            r.bind_value(*id)?;
            read_type(r, t)
        }
        Dec::Run(_, p) => read_proc(r, p),
        Dec::Let(_, pattern, value) => {
            let bound = read_pattern(r, pattern)?;
            read_val(r, value)?;
            enter(r, bound)?;
            Ok(())
        }
        Dec::Def(_, ds) => {
            bind_all(r, ds)?;
            read_definitions(r, ds)
        }
        Dec::Alias(_, id, t) => {
            let number = r.number_type()?;
            read_type(r, t)?;
            r.bind_type(*id, number)?;
            Ok(())
        }
        Dec::Operator(_, id, parameters, t) => {
            let number = r.number_type()?;
            read_operator(r, parameters, t)?;
            r.bind_type(*id, number)?;
            Ok(())
        }
        Dec::Await(_, v) => read_val(r, v),
    }
}

/// The names of a `def` with their abstractions. The names are bound already.
#[cycle(values)]
#[tactic(auto, using(crate::proofs::Reading::reading))]
fn read_definitions(r: &mut Reader, ds: &[Definition]) -> Result<(), ScopeError>
    ensures { IsRead (group (each in_definition ds.now)) r.old r.new result }
{
    let outer = open_group(r);
    read_each_definition(r, ds)?;
    close_group(r, outer);
    Ok(())
}

#[cycle(values)]
#[tactic(auto, using(crate::proofs::Reading::reading))]
fn read_each_definition(r: &mut Reader, ds: &[Definition]) -> Result<(), ScopeError>
    ensures { IsRead (each in_definition ds.now) r.old r.new result }
{
    for d in ds {
        r.once(Code::S3, d.id)?;
        r.define(d.id)?;
        read_abs(r, &d.abs)?;
    }
    Ok(())
}

/// Binds the names of a `def`.
#[tactic(auto, using(crate::proofs::Reading::reading))]
fn bind_all(r: &mut Reader, ds: &[Definition]) -> Result<(), ScopeError>
    ensures { IsRead (binds_all (map (λ d. d.id) ds.now)) r.old r.new result }
{
    for d in ds {
        r.bind_ahead(d.id)?;
    }
    Ok(())
}

/// The parameters and the body of an operator.
#[tactic(auto, using(crate::proofs::Reading::reading))]
fn read_operator(r: &mut Reader, ids: &[Id], t: &TypeTree) -> Result<(), ScopeError>
    ensures { IsRead (closed (group (each in_parameter ids.now) ▸ in_type (type_of t.now))) r.old r.new result }
{
    let outer = place(r);
    read_parameters(r, ids)?;
    read_type(r, t)?;
    go_back(r, outer);
    Ok(())
}

#[tactic(auto, using(crate::proofs::Reading::reading))]
fn read_parameters(r: &mut Reader, ids: &[Id]) -> Result<(), ScopeError>
    ensures { IsRead (group (each in_parameter ids.now)) r.old r.new result }
{
    let outer = open_group(r);
    read_each_parameter(r, ids)?;
    close_group(r, outer);
    Ok(())
}

#[tactic(auto, using(crate::proofs::Reading::reading))]
fn read_each_parameter(r: &mut Reader, ids: &[Id]) -> Result<(), ScopeError>
    ensures { IsRead (each in_parameter ids.now) r.old r.new result }
{
    for id in ids {
        read_parameter(r, id)?;
    }
    Ok(())
}

#[tactic(auto, using(crate::proofs::Reading::reading))]
fn read_parameter(r: &mut Reader, id: &Id) -> Result<(), ScopeError>
    ensures { IsRead (in_parameter id.now) r.old r.new result }
{
    r.once(Code::S3, *id)?;
    r.bind_type_here(*id)
}
