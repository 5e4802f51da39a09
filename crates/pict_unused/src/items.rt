// The items of values, abstractions, declarations and processes.

ghost use Rattle.std.specs.Prelude.{◌≡◌, OnOk};
ghost use Rattle.pict_syntax.specs.Trees.{no_decs, no_definitions, no_vals, no_labelled_vals, no_procs};
ghost use Rattle.pict_syntax.specs.PlainTrees.{abs_of, chan_of, dec_of, field_vals_of, proc_of, val_of, decs_on, definitions_on, labelled_vals_on, procs_on, vals_on};
ghost use Rattle.pict_unused.specs.declared.item.Role.TheVariants.{HandedOn};
ghost use Rattle.pict_unused.specs.Items.{then_abs, then_chan, then_dec, then_decs, then_definitions, then_field_vals, then_labelled_vals, then_proc, then_procs, then_val, then_vals};

use crate::item::{Form, Item, Role};
use crate::patterns::{field_patterns, pattern};
use pict_syntax::{Abs, Chan, Dec, Definition, FieldVals, LabelledVal, Proc, Val};
use std::alloc::AllocError;

/// Adds the items of declarations, in reading order. The only error is want of memory.
#[cycle(items)]
#[tactic(auto, using(crate::proofs::Forms::value_forms))]
pub fn declarations(out: &mut Vec<Item>, ds: &[Dec]) -> Result<(), AllocError>
    ensures { OnOk result (out.new.items ≡ then_decs out.old.items (decs_on no_decs ds.now)) }
{
    for d in ds {
        declaration(out, d)?;
    }
    Ok(())
}

#[cycle(items)]
#[tactic(auto, using(crate::proofs::Forms::value_forms), unfolding(crate::specs::Items::then_dec, pict_syntax::specs::PlainTrees::dec_of))]
fn declaration(out: &mut Vec<Item>, d: &Dec) -> Result<(), AllocError>
    ensures { OnOk result (out.new.items ≡ then_dec out.old.items (dec_of d.now)) }
{
    match d {
        Dec::New(_, id, _) => {
            out.push(Item::Bind(Form::New, *id))?;
            Ok(())
        }
        Dec::Run(_, p) => process(out, p),
        Dec::Let(_, p, v) => {
            pattern(out, p)?;
            value(out, Role::HandedOn, v)
        }
        Dec::Def(_, ds) => definitions(out, ds),
        Dec::Alias(_, _, _) | Dec::Operator(_, _, _, _) => Ok(()),
        Dec::Await(_, v) => value(out, Role::HandedOn, v),
    }
}

#[cycle(items)]
#[tactic(auto, using(crate::proofs::Forms::value_forms))]
fn definitions(out: &mut Vec<Item>, ds: &[Definition]) -> Result<(), AllocError>
    ensures { OnOk result (out.new.items ≡ then_definitions out.old.items (definitions_on no_definitions ds.now)) }
{
    for d in ds {
        out.push(Item::Bind(Form::Def, d.id))?;
        abstraction(out, &d.abs)?;
    }
    Ok(())
}

#[cycle(items)]
#[tactic(auto, using(crate::proofs::Forms::value_forms), unfolding(crate::specs::Items::then_dec, pict_syntax::specs::PlainTrees::dec_of))]
fn abstraction(out: &mut Vec<Item>, abs: &Abs) -> Result<(), AllocError>
    ensures { OnOk result (out.new.items ≡ then_abs out.old.items (abs_of abs.now)) }
{
    match abs {
        Abs::Process(_, p, body) => {
            pattern(out, p)?;
            process(out, body)
        }
        Abs::Function(_, fields, _, body) => {
            field_patterns(out, fields)?;
            value(out, Role::HandedOn, body)
        }
    }
}

/// A value that may stand as a channel. Where it is a name alone, it stands in this role.
#[cycle(items)]
#[tactic(auto, using(crate::proofs::Forms::value_forms), unfolding(crate::specs::Items::then_dec, pict_syntax::specs::PlainTrees::dec_of))]
fn channel(out: &mut Vec<Item>, role: Role, c: &Chan) -> Result<(), AllocError>
    ensures { OnOk result (out.new.items ≡ then_chan out.old.items role (chan_of c.now)) }
{
    match c {
        Chan::Use(span, _) => {
            out.push(Item::Use(role, *span))?;
            Ok(())
        }
        Chan::Fold(_, _, v) => value(out, Role::HandedOn, v),
        Chan::Block(_, ds, v) => {
            declarations(out, ds)?;
            value(out, Role::HandedOn, v)
        }
        Chan::Apply(_, head, fields) => {
            value(out, Role::Called, head)?;
            field_values(out, fields)
        }
        Chan::Right(_, id, vs) | Chan::Left(_, id, vs) => {
            out.push(Item::Use(Role::Called, id.span))?;
            values(out, vs)
        }
    }
}

/// A value. Where it is a name alone, it stands in this role.
#[cycle(items)]
#[tactic(auto, using(crate::proofs::Forms::value_forms), unfolding(crate::specs::Items::then_dec, pict_syntax::specs::PlainTrees::dec_of))]
fn value(out: &mut Vec<Item>, role: Role, v: &Val) -> Result<(), AllocError>
    ensures { OnOk result (out.new.items ≡ then_val out.old.items role (val_of v.now)) }
{
    match v {
        Val::OfChan(c) => channel(out, role, c),
        Val::Number(..) | Val::Character(..) | Val::String(..) => Ok(()),
        Val::True(_) | Val::False(_) => Ok(()),
        Val::Fields(_, fields) => field_values(out, fields),
        Val::If(_, test, yes, no) => {
            value(out, Role::HandedOn, test)?;
            value(out, Role::HandedOn, yes)?;
            value(out, Role::HandedOn, no)
        }
        Val::Lambda(_, abs) => abstraction(out, abs),
    }
}

#[cycle(items)]
#[tactic(auto, using(crate::proofs::Forms::value_forms))]
fn values(out: &mut Vec<Item>, vs: &[Val]) -> Result<(), AllocError>
    ensures { OnOk result (out.new.items ≡ then_vals out.old.items (vals_on no_vals vs.now)) }
{
    for v in vs {
        value(out, Role::HandedOn, v)?;
    }
    Ok(())
}

#[cycle(items)]
#[tactic(auto, using(crate::proofs::Forms::value_forms))]
fn field_values(out: &mut Vec<Item>, fields: &FieldVals) -> Result<(), AllocError>
    ensures { OnOk result (out.new.items ≡ then_field_vals out.old.items (field_vals_of fields.now)) }
{
    values(out, &fields.positional)?;
    labelled_values(out, &fields.labelled)
}

#[cycle(items)]
#[tactic(auto, using(crate::proofs::Forms::value_forms))]
fn labelled_values(out: &mut Vec<Item>, ls: &[LabelledVal]) -> Result<(), AllocError>
    ensures { OnOk result (out.new.items ≡ then_labelled_vals out.old.items (labelled_vals_on no_labelled_vals ls.now)) }
{
    for l in ls {
        value(out, Role::HandedOn, &l.value)?;
    }
    Ok(())
}

#[cycle(items)]
#[tactic(auto, using(crate::proofs::Forms::value_forms), unfolding(crate::specs::Items::then_dec, pict_syntax::specs::PlainTrees::dec_of))]
fn process(out: &mut Vec<Item>, p: &Proc) -> Result<(), AllocError>
    ensures { OnOk result (out.new.items ≡ then_proc out.old.items (proc_of p.now)) }
{
    match p {
        Proc::Send(_, c, v) => {
            channel(out, Role::Sent, c)?;
            value(out, Role::HandedOn, v)
        }
        Proc::Receive(_, c, abs) | Proc::Serve(_, c, abs) => {
            channel(out, Role::Received, c)?;
            abstraction(out, abs)
        }
        Proc::If(_, test, yes, no) => {
            value(out, Role::HandedOn, test)?;
            process(out, yes)?;
            process(out, no)
        }
        Proc::Inert(_) => Ok(()),
        Proc::Group(_, ds, ps) => {
            declarations(out, ds)?;
            processes(out, ps)
        }
    }
}

#[cycle(items)]
#[tactic(auto, using(crate::proofs::Forms::value_forms))]
fn processes(out: &mut Vec<Item>, ps: &[Proc]) -> Result<(), AllocError>
    ensures { OnOk result (out.new.items ≡ then_procs out.old.items (procs_on no_procs ps.now)) }
{
    for p in ps {
        process(out, p)?;
    }
    Ok(())
}
