// Scopes of written types.

ghost use Rattle.pict_syntax.specs.PlainTrees.{annotation_of, type_of};
ghost use Rattle.pict_scope.specs.Forms.{in_annotation, in_type};
ghost use Rattle.pict_scope.specs.Outlines.{◌▸◌, closed, group};
ghost use Rattle.pict_scope.specs.Held.{each, in_binder_tree, in_held, in_labelled_type, in_type_tree};
ghost use Rattle.pict_scope.specs.Reads.{IsRead};

use crate::error::ScopeError;
use crate::reader::Reader;
use crate::steps::{close_group, go_back, open_group, place};
use pict_syntax::{Code, LabelledType, RType, TypeBinder, TypeTree};

#[cycle(types)]
#[tactic(auto, using(crate::proofs::Reading::reading, crate::proofs::TypeForms::type_forms), unfolding(pict_syntax::specs::PlainTrees::type_of))]
pub fn read_type(r: &mut Reader, t: &TypeTree) -> Result<(), ScopeError>
    ensures { IsRead (in_type (type_of t.now)) r.old r.new result }
{
    match t {
        TypeTree::Top(_)
        | TypeTree::Int(_)
        | TypeTree::Char(_)
        | TypeTree::String(_)
        | TypeTree::Bool(_) => Ok(()),
        TypeTree::Use(span, name) => r.use_type(*span, *name),
        TypeTree::Both(_, t)
        | TypeTree::Read(_, t)
        | TypeTree::Write(_, t)
        | TypeTree::Respond(_, t) => read_type(r, t),
        TypeTree::Fields(_, bs, ts, ls) => {
            let outer = place(r);
            read_binder_group(r, bs)?;
            read_types(r, ts)?;
            read_label_group(r, ls)?;
            go_back(r, outer);
            Ok(())
        }
        TypeTree::Apply(_, id, ts) => {
            r.use_type(id.span, id.name)?;
            read_types(r, ts)
        }
        TypeTree::Rec(_, id, t) => {
            let outer = place(r);
            r.bind_type_here(*id)?;
            read_type(r, t)?;
            go_back(r, outer);
            Ok(())
        }
    }
}

#[cycle(types)]
#[tactic(auto, using(crate::proofs::Reading::reading, crate::proofs::TypeForms::type_forms))]
pub fn read_types(r: &mut Reader, ts: &[TypeTree]) -> Result<(), ScopeError>
    ensures { IsRead (each in_type_tree ts.now) r.old r.new result }
{
    for t in ts {
        read_type(r, t)?;
    }
    Ok(())
}

#[cycle(types)]
#[tactic(auto, using(crate::proofs::Reading::reading))]
fn read_label_group(r: &mut Reader, ls: &[LabelledType]) -> Result<(), ScopeError>
    ensures { IsRead (group (each in_labelled_type ls.now)) r.old r.new result }
{
    let outer = open_group(r);
    read_labelled_types(r, ls)?;
    close_group(r, outer);
    Ok(())
}

#[cycle(types)]
#[tactic(auto, using(crate::proofs::Reading::reading, crate::proofs::TypeForms::type_forms))]
fn read_labelled_types(r: &mut Reader, ls: &[LabelledType]) -> Result<(), ScopeError>
    ensures { IsRead (each in_labelled_type ls.now) r.old r.new result }
{
    for l in ls {
        r.once(Code::S4, l.label)?;
        read_type(r, &l.of)?;
    }
    Ok(())
}

#[cycle(types)]
#[tactic(auto, using(crate::proofs::Reading::reading))]
fn read_binder_group(r: &mut Reader, bs: &[TypeBinder]) -> Result<(), ScopeError>
    ensures { IsRead (group (each in_binder_tree bs.now)) r.old r.new result }
{
    let outer = open_group(r);
    read_binders(r, bs)?;
    close_group(r, outer);
    Ok(())
}

#[cycle(types)]
#[tactic(auto, using(crate::proofs::Reading::reading, crate::proofs::TypeForms::type_forms))]
fn read_binders(r: &mut Reader, bs: &[TypeBinder]) -> Result<(), ScopeError>
    ensures { IsRead (each in_binder_tree bs.now) r.old r.new result }
{
    for b in bs {
        read_binder(r, b)?;
    }
    Ok(())
}

/// A type binder of a record type, which binds over what comes after its bound.
#[cycle(types)]
#[tactic(auto, using(crate::proofs::Reading::reading))]
fn read_binder(r: &mut Reader, b: &TypeBinder) -> Result<(), ScopeError>
    ensures { IsRead (in_binder_tree b.now) r.old r.new result }
{
    r.once(Code::S3, b.id)?;
    let number = r.number_type()?;
    read_held(r, &b.bound)?;
    r.bind_type(b.id, number)?;
    Ok(())
}

/// A type, where there is one.
#[cycle(types)]
#[tactic(auto, using(crate::proofs::Reading::reading))]
pub fn read_held(r: &mut Reader, held: &Option<Box<TypeTree>>) -> Result<(), ScopeError>
    ensures { IsRead (in_held held.now) r.old r.new result }
{
    match held {
        None => Ok(()),
        Some(t) => read_type(r, t),
    }
}

/// An annotation, where one is written.
#[tactic(auto, using(crate::proofs::TypeForms::type_forms))]
pub fn read_annotation(r: &mut Reader, annotation: &RType) -> Result<(), ScopeError>
    ensures { IsRead (in_annotation (annotation_of annotation.now)) r.old r.new result }
{
    read_held(r, &annotation.of)
}
