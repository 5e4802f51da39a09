// The operator of a form from the right or from the left.

ghost use Rattle.std.specs.Prelude.{◌≡◌, length};

use crate::functions::Function;
use pict_syntax::{Id, Span};

/// The name before `>` or `<` in the form at this place, and what it takes: two positional fields, and no labelled one.
#[derive(Drop)]
pub struct Applied {
    pub span: Span,
    pub name: Id,
    pub function: Function,
    ghost two: { length function.fields.positional.items ≡ 2 },
    ghost unlabelled: { length function.fields.labelled.items ≡ 0 },
}
