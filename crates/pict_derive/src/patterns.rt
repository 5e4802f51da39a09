// Patterns of the source as core patterns, with the names that they bind.
ghost use Rattle.std.specs.Prelude.{◌≡◌, ◌++◌, [], ◌∷◌, map, IfOk};
ghost use Rattle.pict_core.specs.Plain.{plain_pat};
ghost use Rattle.pict_syntax.specs.PlainTrees.{pat_of, field_pats_of, pats_on, labelled_pats_on};
ghost use Rattle.pict_syntax.specs.Trees.{no_pats, no_labelled_pats};
ghost use Rattle.pict_translation.specs.Patterns.{opened, all_opened, fields_in_order, names_opened, labelled_names_in, function_pat, names_before, names_after};
ghost use Rattle.pict_derive.specs.Built.{opened_of, opened_field, numbers_of, pattern_of, patterns_in_order, record_pattern_of};

use pict_core::CorePat;
use pict_syntax::{FieldPats, LabelledPat, Name, Names, Pat, sort_labels};
use std::alloc::{AllocError, Global};

/// A core pattern with the names of its variables, in the order in which it binds them.
#[derive(Drop)]
pub struct Opened {
    pub pattern: CorePat,
    pub names: Vec<Name>,
}

/// The patterns of positional fields, and the names of all of them.
#[derive(Drop)]
struct Positional {
    patterns: Vec<CorePat>,
    names: Vec<Name>,
}

/// The patterns of labelled fields in the order of their labels, and the names of all of them.
#[derive(Drop)]
struct Labelled {
    patterns: Vec<(Name, CorePat)>,
    names: Vec<Name>,
}

/// The pattern of a function: the names that are bound before the channel for its answer, and after it.
#[derive(Drop)]
pub struct OpenedFunction {
    pub pattern: CorePat,
    pub before: Vec<Name>,
    pub after: Vec<Name>,
}

/// The core of a pattern. The only error is want of memory.
#[cycle(patterns)]
pub fn open(alloc: Global, names: &Names, tree: &Pat) -> Result<Opened, AllocError>
    ensures { IfOk result (λ o. opened_of o ≡ opened names.now (pat_of tree.now)) }
{
    match tree {
        Pat::Bind(_, id, _) => {
            let mut bound = Vec::new(alloc);
            bound.push(id.name)?;
            Ok(Opened {
                pattern: CorePat::Bind,
                names: bound,
            })
        }
        Pat::Any(_, _) => Ok(Opened {
            pattern: CorePat::Any,
            names: Vec::new(alloc),
        }),
        Pat::Fields(_, parts) => {
            let positional = open_positional(alloc, names, &parts.positional)?;
            let labelled = open_labelled(alloc, names, &parts.labelled)?;
            Ok(joined(positional, labelled)?)
        }
        Pat::Fold(_, _, inner) => Ok(open(alloc, names, inner)?),
    }
}

#[cycle(patterns)]
fn open_positional(alloc: Global, names: &Names, trees: &[Pat]) -> Result<Positional, AllocError>
    ensures patterns { IfOk result (λ p. map plain_pat p.patterns.items ≡ map (λ o. o.pattern) (all_opened names.now (pats_on no_pats trees.now))) }
    ensures names { IfOk result (λ p. numbers_of p.names.items ≡ names_opened (all_opened names.now (pats_on no_pats trees.now))) }
{
    let mut patterns = Vec::new(alloc);
    let mut bound = Vec::new(alloc);
    for tree in trees {
        let opened = open(alloc, names, tree)?;
        patterns.push(opened.pattern)?;
        bound.extend_from_slice(&opened.names)?;
    }
    Ok(Positional {
        patterns,
        names: bound,
    })
}

#[cycle(patterns)]
fn open_labelled(
    alloc: Global,
    names: &Names,
    trees: &[LabelledPat],
) -> Result<Labelled, AllocError>
    ensures patterns { IfOk result (λ p. map pattern_of p.patterns.items ≡ patterns_in_order names.now (labelled_pats_on no_labelled_pats trees.now)) }
    ensures names { IfOk result (λ p. numbers_of p.names.items ≡ labelled_names_in (fields_in_order names.now (labelled_pats_on no_labelled_pats trees.now))) }
{
    let mut fields = Vec::new(alloc);
    for tree in trees {
        let opened = open(alloc, names, &tree.pat)?;
        fields.push((tree.label.name, opened))?;
    }
    sort_labels(names, &mut fields)?;
    Ok(apart(alloc, fields)?)
}

/// The pattern of a function's fields, in which the channel for its answer is the last of the positional ones.
pub fn open_function(
    alloc: Global,
    names: &Names,
    parts: &FieldPats,
) -> Result<OpenedFunction, AllocError>
    ensures pattern { IfOk result (λ o. plain_pat o.pattern ≡ function_pat names.now (field_pats_of parts.now)) }
    ensures before { IfOk result (λ o. numbers_of o.before.items ≡ names_before names.now (field_pats_of parts.now)) }
    ensures after { IfOk result (λ o. numbers_of o.after.items ≡ names_after names.now (field_pats_of parts.now)) }
{
    let mut positional = open_positional(alloc, names, &parts.positional)?;
    let labelled = open_labelled(alloc, names, &parts.labelled)?;
    positional.patterns.push(CorePat::Bind)?;
    Ok(OpenedFunction {
        pattern: CorePat::Fields {
            positional: positional.patterns,
            labelled: labelled.patterns,
        },
        before: positional.names,
        after: labelled.names,
    })
}

/// The pattern of a record.
fn joined(positional: Positional, labelled: Labelled) -> Result<Opened, AllocError>
    ensures pattern { IfOk result (λ o. plain_pat o.pattern ≡ record_pattern_of positional.patterns.items labelled.patterns.items) }
    ensures names { IfOk result (λ o. numbers_of o.names.items ≡ numbers_of positional.names.items ++ numbers_of labelled.names.items) }
{
    let mut bound = positional.names;
    bound.extend_from_slice(&labelled.names)?;
    Ok(Opened {
        pattern: CorePat::Fields {
            positional: positional.patterns,
            labelled: labelled.patterns,
        },
        names: bound,
    })
}

/// The patterns of fields, and all their names.
fn apart(alloc: Global, fields: Vec<(Name, Opened)>) -> Result<Labelled, AllocError>
    ensures patterns { IfOk result (λ p. map pattern_of p.patterns.items ≡ map (λ f. (f.0.0, plain_pat f.1.pattern)) fields.items) }
    ensures names { IfOk result (λ p. numbers_of p.names.items ≡ labelled_names_in (map opened_field fields.items)) }
{
    let mut patterns = Vec::new(alloc);
    let mut bound = Vec::new(alloc);
    for field in fields {
        let opened = field.1;
        patterns.push((field.0, opened.pattern))?;
        bound.extend_from_slice(&opened.names)?;
    }
    Ok(Labelled {
        patterns,
        names: bound,
    })
}
