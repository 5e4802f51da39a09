// What is sent: a value that has words, or a record that isn't made.
ghost use Rattle.std.specs.Prelude.{length, map, IfSome};
ghost use Rattle.pict_core.specs.Closed.{IsOver, AreOver};
ghost use Rattle.pict_core.specs.Plain.{plain_val, vals_of};
ghost use Rattle.pict_heap.specs.HeapState.{HeapState};
ghost use Rattle.pict_desk.specs.Arguments.{operand_in, argument_of};
ghost use Rattle.pict_desk.specs.Pairs.{ArePairs};
ghost use Rattle.pict_core.specs.Term.{no_labelled};
ghost use Rattle.pict_meetings.specs.Sent.{IsSentFor};

use pict_code::Operand;
use pict_core::CoreVal;
use pict_desk::pair_at_hand;

// What is sent.
#[derive(Clone, Copy)]
pub(crate) enum Sent {
    // The value of these two words.
    Whole((u64, u64)),
    // A record of two fields without labels, by the two words of each.
    Two((u64, u64), (u64, u64)),
    // The same of three fields.
    Three((u64, u64), (u64, u64), (u64, u64)),
}

// Two or three fields without labels that are at hand.
#[inline(always)]
fn fields_of(fields: &[Operand], values: &[(u64, u64)]) -> Option<Sent>
    requires over { AreOver (length values.now) 0 (vals_of (map plain_val fields.now)) }
    requires pairs { (h : HeapState) × ArePairs h values.now }
    ensures { (h : HeapState) → ArePairs h values.now → IfSome result (IsSentFor h (argument_of h values.now fields.now no_labelled)) }
{
    if fields.len() == 2 {
        let a = pair_at_hand(&fields[0], values)?;
        let b = pair_at_hand(&fields[1], values)?;
        return Some(Sent::Two(a, b));
    }
    if fields.len() == 3 {
        let a = pair_at_hand(&fields[0], values)?;
        let b = pair_at_hand(&fields[1], values)?;
        let c = pair_at_hand(&fields[2], values)?;
        return Some(Sent::Three(a, b, c));
    }
    None
}

// The fields of an operand that is a record of two or three fields at hand, without labels. Takes no memory.
#[inline(always)]
pub(crate) fn fields_at_hand(operand: &Operand, values: &[(u64, u64)]) -> Option<Sent>
    requires over { IsOver (length values.now) 0 (plain_val operand.now) }
    requires pairs { (h : HeapState) × ArePairs h values.now }
    ensures { (h : HeapState) → ArePairs h values.now → IfSome result (IsSentFor h (operand_in h values.now (plain_val operand.now))) }
{
    match operand {
        CoreVal::Fields {
            positional,
            labelled,
        } => {
            if labelled.len() > 0 {
                None
            } else {
                fields_of(positional, values)
            }
        }
        _ => None,
    }
}
