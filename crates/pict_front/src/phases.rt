// The phases, one after the other.

ghost use Rattle.std.specs.Prelude.{◌≡◌, ◌≤◌, [], IfOk, IfErr, IfSome, Err, length, None};
ghost use Rattle.pict_syntax.specs.PlainTrees.{declarations_of};
ghost use Rattle.pict_outside.specs.Counts.{Rose};
ghost use Rattle.pict_gather.specs.Entry.{lent};
ghost use Rattle.pict_scope.specs.Scopes.{scope_stop};
ghost use Rattle.pict_core.specs.Closed.{IsClosed};
ghost use Rattle.pict_core.specs.Plain.{plain_core};
ghost use Rattle.pict_front.specs.Answers.{RefusalStandsIn, MissedInFront, fronted, gives_front, plain_decs, plain_front, said_by};
ghost use Rattle.pict_front.specs.Front.{IsFront, Judges, Translates};
ghost use Rattle.pict_front.specs.Laws.{IsAccepted};

use crate::accepted::Front;
use crate::refusal::{
    FrontError, Refusal, of_derive_error, of_gather_error, of_refusal, of_scope_error,
    of_type_error,
};
use pict_check::check;
use pict_derive::derive;
use pict_gather::gather;
use pict_outside::Shelf;
use pict_scope::{Scoped, resolve};
use pict_syntax::{Dec, Names, Program, Sources, TEXT_LIMIT};
use std::alloc::Global;

/// The core process of a file with the texts that it reaches by its imports, behind a prelude where there is one, with the names
/// that its numbers stand for; or how that ended. `sources` gains the texts under their numbers.
///
/// The texts are gathered first, by `pict_gather::gather`, with its refusals; then scopes, types and translation follow over the
/// declarations of all of them, in their order, those of the prelude first. Each phase begins only where the one before accepted.
/// A process that is too deep is refused at the first byte of the file. `Missing`, and `I1` of an import, come only where the
/// shelf's count of misses rose, `Failed` only where its count of faults rose; the last source then has the name that was asked
/// for. The other error is want of memory.
pub fn front<S: Shelf>(
    alloc: Global,
    prelude: Option<&[u8]>,
    file: &str,
    shelf: &mut S,
    sources: &mut Sources,
) -> Result<Front, FrontError>
    requires empty { sources.old.list.items ≡ [] }
    requires short { IfSome prelude (λ bytes. length bytes.now ≤ TEXT_LIMIT) }
    ensures answer { IfSome (fronted result sources.new) (IsFront (gives_front result (S.held shelf.old)) (lent prelude.entry) file.now) }
    ensures accepted { IfOk result (λ front. IsAccepted (plain_front front)) }
    ensures placed { IfErr result (RefusalStandsIn sources.new.list.items) }
    ensures closed { IfOk result (λ front. IsClosed (plain_core front.core)) }
    ensures missed { result ≡ Err FrontError.Missing → Rose (S.misses shelf.old) (S.misses shelf.new) }
    ensures failed { result ≡ Err FrontError.Failed → Rose (S.faults shelf.old) (S.faults shelf.new) }
    ensures absent { IfErr result (MissedInFront (S.misses shelf.old) (S.misses shelf.new)) }
    ensures held { S.held shelf.new ≡ S.held shelf.old }
    ensures counts { (S.faults shelf.old ≤ S.faults shelf.new) × (S.misses shelf.old ≤ S.misses shelf.new) }
{
    let gathering = match gather(alloc, prelude, file, shelf, sources) {
        Ok(gathering) => gathering,
        Err(error) => return Err(of_gather_error(error)),
    };
    match judged(alloc, gathering.names, gathering.decs) {
        Ok(front) => Ok(front),
        Err(refusal) => Err(of_refusal(refusal)),
    }
}

/// What scopes, types and translation say of declarations.
fn judged(alloc: Global, names: Names, decs: Vec<Dec>) -> Result<Front, Refusal>
    ensures answer { IfSome (said_by plain_front result) (Judges names (plain_decs decs)) }
    ensures closed { IfOk result (λ front. IsClosed (plain_core front.core)) }
{
    let imports = Vec::new(alloc);
    resolved(alloc, names, Program { imports, decs })
}

/// The same of a program, whose imports are not looked at.
fn resolved(alloc: Global, names: Names, program: Program) -> Result<Front, Refusal>
    ensures answer { IfSome (said_by plain_front result) (Judges names (declarations_of program)) }
    ensures closed { IfOk result (λ front. IsClosed (plain_core front.core)) }
{
    let scoped = match resolve(alloc, &names, program) {
        Ok(scoped) => scoped,
        Err(error) => return Err(of_scope_error(error)),
    };
    match check(alloc, &names, &scoped) {
        Ok(()) => translated(alloc, names, &scoped),
        Err(error) => Err(of_type_error(error)),
    }
}

/// The core process of a program in which no rule of scopes fails.
fn translated(alloc: Global, names: Names, scoped: &Scoped) -> Result<Front, Refusal>
    requires scoped { scope_stop names (declarations_of scoped.now.program) ≡ None }
    ensures answer { IfSome (said_by plain_front result) (Translates names (declarations_of scoped.now.program)) }
    ensures closed { IfOk result (λ front. IsClosed (plain_core front.core)) }
{
    match derive(alloc, &names, scoped) {
        Ok(core) => Ok(Front { core, names }),
        Err(error) => Err(of_derive_error(error)),
    }
}
