// The bounds of variables in a context, and within the records and recursive types around a place.

ghost use Rattle.std.specs.Prelude.{◌≡◌, ◌≢◌, List, IfNone, IfSome};
ghost use Rattle.pict_syntax.specs.declared.type_tree.Mark.{Mark};
ghost use Rattle.pict_types.specs.Plain.{plain};
ghost use Rattle.pict_types.specs.Renaming.{bound_at};
ghost use Rattle.pict_types.specs.Types.{PlainType, Below, Operator};
ghost use Rattle.pict_sub.specs.Scopes.{scope_context};

use pict_syntax::Mark;
use pict_types::{Bound, Context, Ty};

/// The type variables at a place within a type: those of a context, and those of the records and recursive types
/// around the place.
#[derive(Clone, Copy)]
pub enum TypeScope<'a, 'n> {
    /// A context alone.
    Outer(&'a Context<'n>),
    /// Under the type fields of a record, or the first of them.
    Inner(&'a [Bound], &'a TypeScope<'a, 'n>),
    /// In the body of a recursive type, whose variable has no bound.
    Recursive(&'a TypeScope<'a, 'n>),
}

/// The type that bounds variable `i`, written where the variable was bound; nothing where it has none.
#[tactic(auto, using(pict_types::proofs::Contexts::bound_rules))]
pub fn bound_in<'a, 'n>(i: u32, scope: &TypeScope<'a, 'n>) -> Option<&'a Ty>
    ensures none { IfNone result ((b : PlainType) → bound_at (scope_context scope.now) i ≢ Below b) }
    ensures some { IfSome result (λ b. bound_at (scope_context scope.now) i ≡ Below (plain b.now)) }
{
    match scope {
        TypeScope::Outer(c) => match c.bound(i) {
            Some(Bound::Below(t)) => Some(t),
            _ => None,
        },
        TypeScope::Inner(bs, outer) => {
            if (i as usize) >= bs.len() {
                return bound_in(i - bs.len() as u32, outer);
            }
            match &bs[bs.len() - 1 - i as usize] {
                Bound::Below(t) => Some(t),
                Bound::Free => None,
                Bound::Operator(_) => None,
            }
        }
        TypeScope::Recursive(outer) => {
            if i == 0 {
                return None;
            }
            bound_in(i - 1, outer)
        }
    }
}

/// The marks of operator variable `i`; nothing where it is none.
#[tactic(auto, using(pict_types::proofs::Contexts::bound_rules))]
pub fn marks_in<'a, 'n>(i: u32, scope: &TypeScope<'a, 'n>) -> Option<&'a [Mark]>
    ensures none { IfNone result ((ms : List Mark) → bound_at (scope_context scope.now) i ≢ Operator ms) }
    ensures some { IfSome result (λ ms. bound_at (scope_context scope.now) i ≡ Operator ms.now) }
{
    match scope {
        TypeScope::Outer(c) => match c.bound(i) {
            Some(Bound::Operator(marks)) => Some(marks),
            _ => None,
        },
        TypeScope::Inner(bs, outer) => {
            if (i as usize) >= bs.len() {
                return marks_in(i - bs.len() as u32, outer);
            }
            match &bs[bs.len() - 1 - i as usize] {
                Bound::Operator(marks) => Some(marks),
                Bound::Free => None,
                Bound::Below(_) => None,
            }
        }
        TypeScope::Recursive(outer) => {
            if i == 0 {
                return None;
            }
            marks_in(i - 1, outer)
        }
    }
}
