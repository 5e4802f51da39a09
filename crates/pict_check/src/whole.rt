// Whether a whole program is typed.

ghost use Rattle.std.specs.Prelude.{◌≡◌, None, IfErr, IfOk};
ghost use Rattle.pict_syntax.specs.PlainTrees.{declarations_of};
ghost use Rattle.pict_scope.specs.Scopes.{scope_stop};
ghost use Rattle.pict_rules.specs.Derivations.{IsTyped};
ghost use Rattle.pict_rules.specs.Environments.{no_environment};
ghost use Rattle.pict_infer.specs.Environments.{environment_of};
ghost use Rattle.pict_check.specs.Refused.{IsTypeStop};

use crate::declarations::declarations;
use crate::error::{TypeError, refusal};
use pict_infer::Env;
use pict_scope::Scoped;
use pict_syntax::Names;
use std::alloc::Global;

/// Whether the typing rules accept the declarations of a program in which no rule of scopes fails, with the names that its
/// numbers stand for. Its imports are not looked at.
///
/// Where they don't, the error is the first of their lines that is false, by its code (K1 to K5, Y1 to Y16) and at its
/// place. The other error is want of memory.
pub fn check(alloc: Global, names: &Names, scoped: &Scoped) -> Result<(), TypeError>
    requires scoped { scope_stop names.now (declarations_of scoped.now.program) ≡ None }
    ensures typed { IfOk result (λ _. IsTyped names.now (declarations_of scoped.now.program)) }
    ensures stuck { IfErr result (IsTypeStop names.now (declarations_of scoped.now.program)) }
{
    let mut env = Env::new(alloc, names);
    check_in(alloc, &mut env, names, scoped)
}

/// The same in an environment of these names in which nothing is known. After a refusal it has what was known at the place, for
/// those who explain it; no clause speaks of that.
pub fn check_in(
    alloc: Global,
    env: &mut Env,
    names: &Names,
    scoped: &Scoped,
) -> Result<(), TypeError>
    requires empty { environment_of env.old ≡ no_environment names.now }
    requires scoped { scope_stop names.now (declarations_of scoped.now.program) ≡ None }
    ensures typed { IfOk result (λ _. IsTyped names.now (declarations_of scoped.now.program)) }
    ensures stuck { IfErr result (IsTypeStop names.now (declarations_of scoped.now.program)) }
{
    match declarations(alloc, env, &scoped.program.decs) {
        Ok(()) => Ok(()),
        Err(e) => Err(refusal(e)),
    }
}
