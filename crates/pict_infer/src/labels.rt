// The type at a label.

ghost use Rattle.std.specs.Prelude.{◌≡◌, None, Some, IfNone, IfSome};
ghost use Rattle.pict_types.specs.Plain.{plain, plain_labels};
ghost use Rattle.pict_types.specs.Types.{type_at};
ghost use Rattle.pict_infer.specs.Ordering.{AreInOrder};

use pict_syntax::{Name, Names, compare_labels};
use pict_types::Ty;

/// The type at a label of a record type, whose labels stand in order; nothing where it has none. Takes no memory. The
/// time is that of log n comparisons.
pub fn labelled_type<'a>(names: &Names, fields: &'a [(Name, Ty)], label: Name) -> Option<&'a Ty>
    requires ordered { AreInOrder names.now (plain_labels fields.now) }
    ensures none { IfNone result (type_at label.0 (plain_labels fields.now) ≡ None) }
    ensures some { IfSome result (λ t. type_at label.0 (plain_labels fields.now) ≡ Some (plain t.now)) }
{
    match fields.binary_search_by(|f| compare_labels(names, f.0, label)) {
        Ok(at) => Some(&fields[at].1),
        Err(_) => None,
    }
}
