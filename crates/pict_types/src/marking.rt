// Lists of marks, compared.

ghost use Rattle.std.specs.Prelude.{◌≡◌, ◌↔◌, IsTrue};

use pict_syntax::Mark;

/// Whether two operators have the same marks. Marks count nothing.
#[tactic(auto, using(crate::proofs::Marks::marks_compared))]
pub fn equal_marks(ms: &[Mark], ns: &[Mark]) -> bool
    ensures answer { IsTrue result ↔ (ms.now ≡ ns.now) }
{
    if ms.len() != ns.len() {
        return false;
    }
    for i in 0..ms.len() {
        if ms[i] != ns[i] {
            return false;
        }
    }
    true
}
