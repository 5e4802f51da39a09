// Scopes of patterns.

ghost use Rattle.pict_syntax.specs.PlainTrees.{annotation_of, field_pats_of, pat_of};
ghost use Rattle.pict_scope.specs.Forms.{in_annotation, in_field_pats, in_pat};
ghost use Rattle.pict_scope.specs.Outlines.{◌▸◌, group};
ghost use Rattle.pict_scope.specs.Held.{each, in_labelled_pat, in_pat_tree, in_pattern_binder_tree};
ghost use Rattle.pict_scope.specs.Reads.{IsRead};
ghost use Rattle.pict_scope.specs.Steps.{IsReadPattern};

use crate::error::ScopeError;
use crate::reader::{Opened, Reader};
use crate::steps::{close_group, close_pattern, go_back, open_group, open_pattern, place};
use crate::types::{read_annotation, read_held};
use pict_syntax::{Code, FieldPats, LabelledPat, Pat, RType, TypeBinder};

/// A whole pattern: what it binds over what comes after it, and nothing is bound yet.
#[tactic(auto, using(crate::proofs::Reading::reading))]
pub fn read_pattern(r: &mut Reader, p: &Pat) -> Result<Opened, ScopeError>
    ensures { IsReadPattern (in_pat (pat_of p.now)) r.old r.new result }
{
    let back = place(r);
    let outer = open_pattern(r);
    read_pat(r, p)?;
    let opened = close_pattern(r, outer)?;
    go_back(r, back);
    Ok(opened)
}

/// The fields of a function, and its annotation, which is in the scope of the type binders among them.
#[tactic(auto, using(crate::proofs::Reading::reading))]
pub fn read_function_pattern(
    r: &mut Reader,
    f: &FieldPats,
    annotation: &RType,
) -> Result<Opened, ScopeError>
    ensures { IsReadPattern (in_field_pats (field_pats_of f.now) ▸ in_annotation (annotation_of annotation.now)) r.old r.new result }
{
    let back = place(r);
    let outer = open_pattern(r);
    read_field_pats(r, f)?;
    read_annotation(r, annotation)?;
    let opened = close_pattern(r, outer)?;
    go_back(r, back);
    Ok(opened)
}

#[cycle(patterns)]
#[tactic(auto, using(crate::proofs::Reading::reading), unfolding(pict_syntax::specs::PlainTrees::pat_of))]
fn read_pat(r: &mut Reader, p: &Pat) -> Result<(), ScopeError>
    ensures { IsRead (in_pat (pat_of p.now)) r.old r.new result }
{
    match p {
        Pat::Bind(_, id, annotation) => {
            r.bind_pattern_value(*id)?;
            read_annotation(r, annotation)
        }
        Pat::Any(_, annotation) => read_annotation(r, annotation),
        Pat::Fields(_, f) => {
            let outer = place(r);
            read_field_pats(r, f)?;
            go_back(r, outer);
            Ok(())
        }
        Pat::Fold(_, annotation, p) => {
            read_annotation(r, annotation)?;
            read_pat(r, p)
        }
    }
}

#[cycle(patterns)]
#[tactic(auto, using(crate::proofs::Reading::reading))]
fn read_field_pats(r: &mut Reader, f: &FieldPats) -> Result<(), ScopeError>
    ensures { IsRead (in_field_pats (field_pats_of f.now)) r.old r.new result }
{
    read_pattern_binders(r, &f.binders)?;
    read_pats(r, &f.positional)?;
    read_label_group(r, &f.labelled)
}

#[cycle(patterns)]
#[tactic(auto, using(crate::proofs::Reading::reading))]
fn read_pats(r: &mut Reader, ps: &[Pat]) -> Result<(), ScopeError>
    ensures { IsRead (each in_pat_tree ps.now) r.old r.new result }
{
    for p in ps {
        read_pat(r, p)?;
    }
    Ok(())
}

#[cycle(patterns)]
#[tactic(auto, using(crate::proofs::Reading::reading))]
fn read_label_group(r: &mut Reader, ls: &[LabelledPat]) -> Result<(), ScopeError>
    ensures { IsRead (group (each in_labelled_pat ls.now)) r.old r.new result }
{
    let outer = open_group(r);
    read_labelled_pats(r, ls)?;
    close_group(r, outer);
    Ok(())
}

#[cycle(patterns)]
#[tactic(auto, using(crate::proofs::Reading::reading))]
fn read_labelled_pats(r: &mut Reader, ls: &[LabelledPat]) -> Result<(), ScopeError>
    ensures { IsRead (each in_labelled_pat ls.now) r.old r.new result }
{
    for l in ls {
        r.once(Code::S4, l.label)?;
        read_pat(r, &l.pat)?;
    }
    Ok(())
}

#[tactic(auto, using(crate::proofs::Reading::reading))]
fn read_pattern_binders(r: &mut Reader, bs: &[TypeBinder]) -> Result<(), ScopeError>
    ensures { IsRead (each in_pattern_binder_tree bs.now) r.old r.new result }
{
    for b in bs {
        read_pattern_binder(r, b)?;
    }
    Ok(())
}

/// A type binder of a pattern, which binds over what comes after its bound.
#[tactic(auto, using(crate::proofs::Reading::reading))]
fn read_pattern_binder(r: &mut Reader, b: &TypeBinder) -> Result<(), ScopeError>
    ensures { IsRead (in_pattern_binder_tree b.now) r.old r.new result }
{
    if let Some(_) = r.pattern_types.nearest(b.id.name) {
        return Err(ScopeError::Named(Code::S3, b.id.span));
    }
    let number = r.number_type()?;
    read_held(r, &b.bound)?;
    r.bind_pattern_type(b.id, number)?;
    Ok(())
}
