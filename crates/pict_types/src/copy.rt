// Copies of types.

ghost use Rattle.std.specs.Prelude.{◌≡◌, IfOk};
ghost use Rattle.pict_types.specs.Plain.{plain, plain_arg, plain_bound, plain_bounds, plain_labels, plain_record, plain_types};

use crate::types::{Arg, Bound, Record, Ty};
use pict_syntax::Name;
use std::alloc::{AllocError, Global};

fn copy_type(t: &Ty) -> Result<Ty, AllocError>
    ensures { IfOk result (λ u. plain u ≡ plain t.now) }
{
    match t {
        Ty::Top => Ok(Ty::Top),
        Ty::Int => Ok(Ty::Int),
        Ty::Char => Ok(Ty::Char),
        Ty::Str => Ok(Ty::Str),
        Ty::Bool => Ok(Ty::Bool),
        Ty::Var(i) => Ok(Ty::Var(*i)),
        Ty::Apply(i, ts) => Ok(Ty::Apply(*i, ts.clone()?)),
        Ty::Chan(cap, t) => Ok(Ty::Chan(*cap, t.clone()?)),
        Ty::Fields(r) => Ok(Ty::Fields(r.clone()?)),
        Ty::Rec(t) => Ok(Ty::Rec(t.clone()?)),
    }
}

fn copy_record(alloc: Global, r: &Record) -> Result<Record, AllocError>
    ensures { IfOk result (λ q. plain_record q ≡ plain_record r.now) }
{
    Ok(Record {
        binders: copy_bounds(alloc, &r.binders)?,
        positional: copy_types(alloc, &r.positional)?,
        labelled: copy_labels(alloc, &r.labelled)?,
    })
}

fn copy_bound(alloc: Global, b: &Bound) -> Result<Bound, AllocError>
    ensures { IfOk result (λ d. plain_bound d ≡ plain_bound b.now) }
{
    match b {
        Bound::Free => Ok(Bound::Free),
        Bound::Below(t) => Ok(Bound::Below(copy_type(t)?)),
        Bound::Operator(marks) => Ok(Bound::Operator(Vec::from_slice(alloc, marks)?)),
    }
}

#[tactic(auto, using(crate::proofs::Rows::types_rules))]
fn copy_types(alloc: Global, ts: &[Ty]) -> Result<Vec<Ty>, AllocError>
    ensures { IfOk result (λ us. plain_types us.items ≡ plain_types ts.now) }
{
    let mut copies = Vec::with_capacity(alloc, ts.len())?;
    for t in ts {
        copies.push(copy_type(t)?)?;
    }
    Ok(copies)
}

#[tactic(auto, using(crate::proofs::Rows::bounds_rules))]
fn copy_bounds(alloc: Global, bs: &[Bound]) -> Result<Vec<Bound>, AllocError>
    ensures { IfOk result (λ us. plain_bounds us.items ≡ plain_bounds bs.now) }
{
    let mut copies = Vec::with_capacity(alloc, bs.len())?;
    for b in bs {
        copies.push(copy_bound(alloc, b)?)?;
    }
    Ok(copies)
}

#[tactic(auto, using(crate::proofs::Rows::labels_rules))]
fn copy_labels(alloc: Global, ls: &[(Name, Ty)]) -> Result<Vec<(Name, Ty)>, AllocError>
    ensures { IfOk result (λ us. plain_labels us.items ≡ plain_labels ls.now) }
{
    let mut copies = Vec::with_capacity(alloc, ls.len())?;
    for l in ls {
        copies.push((l.0, copy_type(&l.1)?))?;
    }
    Ok(copies)
}

impl Ty {
    /// The same type once more. The only error is want of memory.
    pub fn copy(&self, alloc: Global) -> Result<Ty, AllocError>
        ensures same { IfOk result (λ u. plain u ≡ plain self.now) }
    {
        copy_type(self)
    }
}

impl Record {
    /// The same record once more. The only error is want of memory.
    pub fn copy(&self, alloc: Global) -> Result<Record, AllocError>
        ensures same { IfOk result (λ q. plain_record q ≡ plain_record self.now) }
    {
        copy_record(alloc, self)
    }
}

impl Bound {
    /// The same bound once more. The only error is want of memory.
    pub fn copy(&self, alloc: Global) -> Result<Bound, AllocError>
        ensures same { IfOk result (λ d. plain_bound d ≡ plain_bound self.now) }
    {
        copy_bound(alloc, self)
    }
}

impl Arg {
    /// The same argument once more. The only error is want of memory.
    pub fn copy(&self, alloc: Global) -> Result<Arg, AllocError>
        ensures same { IfOk result (λ a. plain_arg a ≡ plain_arg self.now) }
    {
        match self {
            Arg::Plain(t) => Ok(Arg::Plain(copy_type(t)?)),
            Arg::Op { params, body } => Ok(Arg::Op {
                params: *params,
                body: copy_type(body)?,
            }),
        }
    }
}
