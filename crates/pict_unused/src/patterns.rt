// The items of patterns.

ghost use Rattle.std.specs.Prelude.{◌≡◌, OnOk};
ghost use Rattle.pict_syntax.specs.Trees.{no_pats, no_labelled_pats};
ghost use Rattle.pict_syntax.specs.PlainTrees.{pat_of, field_pats_of, pats_on, labelled_pats_on};
ghost use Rattle.pict_unused.specs.Items.{then_pat, then_field_pats, then_pats, then_labelled_pats};

use crate::item::{Form, Item};
use pict_syntax::{FieldPats, LabelledPat, Pat};
use std::alloc::AllocError;

/// Adds the items of a pattern.
#[cycle(patterns)]
#[tactic(auto, using(crate::proofs::Forms::pattern_forms), unfolding(crate::specs::Items::then_pat, pict_syntax::specs::PlainTrees::pat_of))]
pub fn pattern(out: &mut Vec<Item>, p: &Pat) -> Result<(), AllocError>
    ensures { OnOk result (out.new.items ≡ then_pat out.old.items (pat_of p.now)) }
{
    match p {
        Pat::Bind(_, id, _) => {
            out.push(Item::Bind(Form::Pattern, *id))?;
            Ok(())
        }
        Pat::Any(_, _) => Ok(()),
        Pat::Fields(_, fields) => field_patterns(out, fields),
        Pat::Fold(_, _, inner) => pattern(out, inner),
    }
}

/// Adds the items of the patterns of fields.
#[cycle(patterns)]
#[tactic(auto, using(crate::proofs::Forms::pattern_forms))]
pub fn field_patterns(out: &mut Vec<Item>, fields: &FieldPats) -> Result<(), AllocError>
    ensures { OnOk result (out.new.items ≡ then_field_pats out.old.items (field_pats_of fields.now)) }
{
    patterns(out, &fields.positional)?;
    labelled_patterns(out, &fields.labelled)
}

#[cycle(patterns)]
#[tactic(auto, using(crate::proofs::Forms::pattern_forms))]
fn patterns(out: &mut Vec<Item>, ps: &[Pat]) -> Result<(), AllocError>
    ensures { OnOk result (out.new.items ≡ then_pats out.old.items (pats_on no_pats ps.now)) }
{
    for p in ps {
        pattern(out, p)?;
    }
    Ok(())
}

#[cycle(patterns)]
#[tactic(auto, using(crate::proofs::Forms::pattern_forms))]
fn labelled_patterns(out: &mut Vec<Item>, ls: &[LabelledPat]) -> Result<(), AllocError>
    ensures { OnOk result (out.new.items ≡ then_labelled_pats out.old.items (labelled_pats_on no_labelled_pats ls.now)) }
{
    for l in ls {
        pattern(out, &l.pat)?;
    }
    Ok(())
}
