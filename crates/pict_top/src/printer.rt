// The watcher that writes what the steps of a run show.
use crate::form::Form;
use crate::print::{print_event, write_some};
use pict_heap::Heap;
use pict_machine::{Event, RunError, Watcher};
use pict_outside::Sink;
use pict_syntax::Names;
use pict_trace::line;
use std::alloc::{AllocError, Global};

/// Writes what each step shows on a sink, right after the step, in one write; nothing where there are no bytes.
#[derive(Drop)]
pub struct Printer<'a, O: Sink> {
    pub alloc: Global,
    pub form: Form,
    pub names: &'a Names,
    pub out: &'a mut O,
}

impl<'a, O: Sink> Watcher for Printer<'a, O> {
    ghost use Rattle.std.specs.Prelude.{◌≡◌, refl};
    ghost use Rattle.std.proofs.Common.{◌∙◌};
    ghost use Rattle.pict_top.specs.Printed.{form_of, written_after, WrittenInPart};

    ghost view = { λ p. O.taken p.out.now };

    ghost next = { λ p. written_after (form_of p.form p.names.now) };

    ghost torn = { λ p. WrittenInPart (form_of p.form p.names.now) };

    ghost faults = { λ p. O.faults p.out.now };

    ghost same = { λ p q. q.out.ghost_name ≡ p.out.ghost_name };

    ghost same_itself = { λ p. refl };

    ghost same_along = { λ p q r e f. f ∙ e };

    fn passes(&self) -> bool {
        match self.form {
            Form::Printed => true,
            Form::Line => false,
        }
    }

    fn see(&mut self, heap: &Heap, number: u64, event: &Event) -> Result<(), RunError> {
        match self.form {
            Form::Printed => print_event(self.out, heap, event),
            Form::Line => match line(self.alloc, self.names, heap, number, event) {
                Err(AllocError) => Err(RunError::Memory),
                Ok(line) => write_some(self.out, &line),
            },
        }
    }
}
