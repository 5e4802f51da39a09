// Core processes put together.
ghost use Rattle.std.specs.Prelude.{◌≡◌, IfOk};
ghost use Rattle.pict_core.specs.Plain.{plain_core, plain_pat, plain_val};
ghost use Rattle.pict_core.specs.Term.{Out, In, If};

use pict_core::{Core, CorePat, CoreVal, Part};
use pict_syntax::Span;
use std::alloc::{AllocError, Global};

/// An output at its place.
pub fn core_output(chan: CoreVal, message: CoreVal, at: Span) -> Core
    ensures { plain_core result ≡ Out (plain_val chan) (plain_val message) at }
{
    Core::Out { chan, message, at }
}

/// A conditional.
pub fn choice(alloc: Global, test: CoreVal, yes: Core, no: Core) -> Result<Core, AllocError>
    ensures { IfOk result (λ core. plain_core core ≡ If (plain_val test) (plain_core yes) (plain_core no)) }
{
    let yes = Part::new(alloc, yes)?;
    let no = Part::new(alloc, no)?;
    Ok(Core::If { test, yes, no })
}

/// An input.
pub fn core_input(
    alloc: Global,
    chan: CoreVal,
    replicated: bool,
    pattern: CorePat,
    body: Core,
) -> Result<Core, AllocError>
    ensures { IfOk result (λ core. plain_core core ≡ In (plain_val chan) replicated (plain_pat pattern) (plain_core body)) }
{
    let body = Part::new(alloc, body)?;
    Ok(Core::In {
        chan,
        replicated,
        pattern,
        body,
    })
}
