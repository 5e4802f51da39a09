// Places of processes in the texts.

ghost use Rattle.std.specs.Prelude.{◌≡◌};
ghost use Rattle.pict_core.specs.Plain.{plain_core};
ghost use Rattle.pict_stepper.specs.Lines.{first_output};

use pict_core::Core;
use pict_syntax::Span;

/// The place of the first output of a process, in the order of reading. It recurses along the nesting of the process.
pub fn first_output(process: &Core) -> Option<Span>
    ensures { result ≡ first_output (plain_core process.now) }
{
    match process {
        Core::Zero => None,
        Core::Out { at, .. } => Some(*at),
        Core::New(body) => first_output(body.core()),
        Core::In { body, .. } => first_output(body.core()),
        Core::Par(left, right) => first_output(left.core()).or(first_output(right.core())),
        Core::If { yes, no, .. } => first_output(yes.core()).or(first_output(no.core())),
    }
}
