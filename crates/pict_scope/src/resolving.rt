// The targets of a program's uses.

ghost use Rattle.std.specs.Prelude.{◌≡◌, None, IfErr, IfOk};
ghost use Rattle.pict_syntax.specs.PlainTrees.{declarations_of};
ghost use Rattle.pict_scope.specs.Refusals.{IsScopeStop};
ghost use Rattle.pict_scope.specs.Scopes.{scope_stop, type_targets, value_targets};

use crate::error::ScopeError;
use crate::places::in_reading_order;
use crate::reader::Reader;
use crate::target::Scoped;
use crate::values::read_decs;
use pict_syntax::{Names, Program};
use std::alloc::Global;

/// The program with what its uses mean, or the first place in reading order where a rule of scopes fails: a value (S1) or
/// a type (S2) without binder, a name bound twice in one pattern, the fields of one function, one `def`, one list of
/// parameters or one record type (S3), a label twice in one record, record pattern, function, record type or application
/// (S4), each at the second. The other error is want of memory, also for 2 to the power 32 binders. Goes over the program
/// once, with one look-up in a map of the nearest binders at each use and each binder, and recurses along its nesting alone.
pub fn resolve(alloc: Global, names: &Names, program: Program) -> Result<Scoped, ScopeError>
    ensures program { IfOk result (λ s. s.program ≡ program) }
    ensures no_stop { IfOk result (λ _. scope_stop names.now (declarations_of program) ≡ None) }
    ensures values { IfOk result (λ s. s.values.items ≡ value_targets names.now (declarations_of program)) }
    ensures types { IfOk result (λ s. s.types.items ≡ type_targets names.now (declarations_of program)) }
    ensures refused { IfErr result (λ e. IsScopeStop names.now (declarations_of program) e) }
{
    let mut reader = Reader::new(alloc, names);
    read_decs(&mut reader, &program.decs)?;
    let values = in_reading_order(alloc, &reader.order, &reader.value_targets)?;
    Ok(Scoped {
        program,
        values,
        types: reader.type_targets,
    })
}
