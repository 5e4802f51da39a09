// What operands need of a heap.
ghost use Rattle.std.specs.Prelude.{◌≡◌, ◌+◌, map, IfOk};
ghost use Rattle.pict_core.specs.Plain.{plain_val, plain_field, vals_of, labelled_of};
ghost use Rattle.pict_desk.specs.Needs.{need_of, needs_of, needs_of_labelled, both_needs};

use pict_code::Operand;
use pict_core::CoreVal;
use pict_prim::Need;
use pict_syntax::Name;
use std::alloc::AllocError;

/// What making the word of the operand adds to a heap. A number past 64 bits is want of memory: no memory holds so much.
#[cycle(need)]
pub fn need(operand: &Operand) -> Result<Need, AllocError>
    ensures { IfOk result (λ n. n ≡ need_of (plain_val operand.now)) }
{
    match operand {
        CoreVal::Text(bytes) => Ok(Need {
            records: 0,
            fields: 0,
            texts: 1,
            bytes: bytes.slice().len() as u64,
        }),
        CoreVal::Fields {
            positional,
            labelled,
        } => {
            let own = Need {
                records: 1,
                fields: (positional.len() + labelled.len()) as u64,
                texts: 0,
                bytes: 0,
            };
            both(
                own,
                both(need_of_all(positional)?, needs_labelled(labelled)?)?,
            )
        }
        _ => Ok(Need {
            records: 0,
            fields: 0,
            texts: 0,
            bytes: 0,
        }),
    }
}

/// What making the words of these operands adds to a heap. A number past 64 bits is want of memory.
#[cycle(need)]
pub fn need_of_all(operands: &[Operand]) -> Result<Need, AllocError>
    ensures { IfOk result (λ n. n ≡ needs_of (vals_of (map plain_val operands.now))) }
{
    let mut sum = Need {
        records: 0,
        fields: 0,
        texts: 0,
        bytes: 0,
    };
    for operand in operands {
        sum = both(sum, need(operand)?)?;
    }
    Ok(sum)
}

#[cycle(need)]
fn needs_labelled(operands: &[(Name, Operand)]) -> Result<Need, AllocError>
    ensures { IfOk result (λ n. n ≡ needs_of_labelled (labelled_of (map plain_field operands.now))) }
{
    let mut sum = Need {
        records: 0,
        fields: 0,
        texts: 0,
        bytes: 0,
    };
    for field in operands {
        sum = both(sum, need(&field.1)?)?;
    }
    Ok(sum)
}

/// What two things need together. A number past 64 bits is want of memory.
pub fn both(a: Need, b: Need) -> Result<Need, AllocError>
    ensures { IfOk result (λ n. n ≡ both_needs a b) }
{
    Ok(Need {
        records: sum(a.records, b.records)?,
        fields: sum(a.fields, b.fields)?,
        texts: sum(a.texts, b.texts)?,
        bytes: sum(a.bytes, b.bytes)?,
    })
}

fn sum(a: u64, b: u64) -> Result<u64, AllocError>
    ensures { IfOk result (λ s. s ≡ a + b) }
{
    match a.checked_add(b) {
        Some(sum) => Ok(sum),
        None => Err(AllocError),
    }
}
