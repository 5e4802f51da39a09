// The watcher that counts what the steps of a run show, and the run that it watches.
ghost use Rattle.std.specs.Prelude.{◌≤◌, IfOk};
ghost use Rattle.pict_core.specs.Closed.{IsClosed};
ghost use Rattle.pict_core.specs.Plain.{plain_core};
ghost use Rattle.pict_view.specs.Right.{RunsRight};
ghost use Rattle.pict_load.specs.Counted.{IsCounted};

use crate::summary::Tally;
use itoa::Buffer;
use pict_core::Core;
use pict_heap::Heap;
use pict_machine::{Event, Machine, RunError, Watcher};
use pict_show_words::printed;
use pict_syntax::FUEL_LIMIT;
use std::alloc::{AllocError, Global};

/// Counts communications, and bytes that are printed. Its one error, `Memory`, comes where a count passes 64 bits.
#[derive(Drop)]
struct Counter {
    communications: u64,
    printed: u64,
}

impl Watcher for Counter {
    ghost use Rattle.std.specs.Prelude.{◌≡◌, [], ◌∷◌, Some};
    ghost use Rattle.pict_load.specs.Counted.{counts_after};

    ghost view = { λ c. Some (c.communications ∷ c.printed ∷ []) };

    ghost next = { λ c. counts_after };

    ghost torn = { λ c before number label after. after ≡ before };

    ghost faults = { λ c. 0 };

    ghost same = { λ c d. Unit {0} };

    ghost same_itself = { λ c. tt };

    ghost same_along = { λ b c d e f. tt };

    fn see(&mut self, heap: &Heap, _number: u64, event: &Event) -> Result<(), RunError> {
        match event {
            Event::Comm { .. } => match self.communications.checked_add(1) {
                None => return Err(RunError::Memory),
                Some(count) => self.communications = count,
            },
            Event::Print(word) => {
                let mut digits = Buffer::new();
                let bytes = printed(heap, *word, &mut digits).len() as u64;
                match self.printed.checked_add(bytes) {
                    None => return Err(RunError::Memory),
                    Some(count) => self.printed = count,
                }
            }
            _ => {}
        }
        Ok(())
    }
}

/// Runs a process for up to `fuel` steps, none of which may be wrong, and counts what they show. The one error is want of
/// memory, also where a count passes 64 bits.
pub fn count_run(alloc: Global, core: Core, fuel: u64) -> Result<Tally, AllocError>
    requires closed { IsClosed (plain_core core) }
    requires fuel { fuel ≤ FUEL_LIMIT }
    requires right { RunsRight (plain_core core) fuel }
    ensures { IfOk result (IsCounted (plain_core core) fuel) }
{
    let mut machine = Machine::load_core(alloc, core)?;
    let mut counter = Counter {
        communications: 0,
        printed: 0,
    };
    match machine.run_counted(fuel, &mut counter) {
        // The counter has no sink that fails.
        Err(_) => Err(AllocError),
        Ok(stopped) => Ok(Tally {
            end: stopped.end,
            steps: stopped.steps,
            communications: counter.communications,
            printed: counter.printed,
        }),
    }
}
