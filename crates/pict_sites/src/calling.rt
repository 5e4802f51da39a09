// A call of a primitive at the only site: five events in one go.
ghost use Rattle.std.specs.Prelude.{◌≡◌, ◌≤◌, ◌<◌, ◌+◌, ◌^◌, length, map, Ok, None};
ghost use Rattle.pict_code.specs.Plain.{plain_node};
ghost use Rattle.pict_heap.specs.HeapState.{KeepsWords};
ghost use Rattle.pict_desk.specs.Code.{core_in, IsCode};
ghost use Rattle.pict_sites.specs.Alone.{IsCalled};
ghost use Rattle.pict_sites.specs.Views.{heap_in, count_channels};
ghost use Rattle.pict_sites.specs.Working.{AreWorking};

use crate::sites::Sites;
use pict_acting::{Received, call_at_once};
use pict_code::Node;
use pict_desk::word_at;
use pict_picker::Did;
use std::alloc::AllocError;

impl Sites {
    /// The five events of a call that who has the turn begins at the only site, where nobody else is ready and so many events may
    /// happen: what the last of them shows. None where it isn't so. Then, and where memory is wanting, nothing changes but room.
    #[inline(always)]
    pub(crate) fn call(&mut self, code: &[Node], most: u64) -> Result<Option<Did>, AllocError>
        requires code { IsCode (map plain_node code.now) }
        requires working { AreWorking (core_in code.now) 0 self.old }
        requires one { length self.old.queues.items ≡ 1 }
        requires none { length self.old.to.items ≡ 0 }
        requires few { count_channels self.old + 1 < 2 ^ 32 }
        ensures working { AreWorking (core_in code.now) 0 self.new }
        ensures called { IsCalled (core_in code.now) self.old self.new most result }
        ensures still { result ≡ Ok None → count_channels self.new ≡ count_channels self.old }
        ensures keeps { KeepsWords (heap_in self.old) (heap_in self.new) }
        ensures channels { count_channels self.new ≤ count_channels self.old + 1 }
        ensures queues { self.new.queues ≡ self.old.queues }
        ensures to { self.new.to ≡ self.old.to }
    {
        self.homes.reserve(1)?;
        match call_at_once(code, &mut self.store, most)? {
            Some(Received { channel, value }) => {
                match self.homes.push(0) {
                    Ok(()) => {}
                    Err(_) => unreachable!(),
                }
                Ok(Some(Did::Comm {
                    channel,
                    value: word_at(value),
                }))
            }
            None => Ok(None),
        }
    }
}
