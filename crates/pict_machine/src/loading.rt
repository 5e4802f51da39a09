// The machine of a core process.
ghost use Rattle.std.specs.Prelude.{◌≡◌, IfOk};
ghost use Rattle.pict_core.specs.Closed.{IsClosed};
ghost use Rattle.pict_core.specs.Configuration.{IsConfiguration, opening};
ghost use Rattle.pict_core.specs.Plain.{plain_core};
ghost use Rattle.pict_view.specs.View.{StandsFor};
ghost use Rattle.pict_machine.specs.Machine.{IsMachine, core_in, view_of, channels_of};

use crate::machine::Machine;
use pict_core::Core;
use pict_lower::lower;
use std::alloc::{AllocError, Global};

impl Machine {
    /// The machine that is to run this process, which is closed: its code is made, and loaded. It stands for the process'
    /// opening configuration, and no channel is made. The only error is want of memory.
    pub fn load_core(alloc: Global, core: Core) -> Result<Machine, AllocError>
        requires closed { IsClosed (plain_core core) }
        ensures kept { IfOk result (λ m. IsMachine m) }
        ensures stands { IfOk result (λ m. StandsFor (view_of m) (opening (plain_core core))) }
        ensures is { IfOk result (λ m. IsConfiguration (opening (plain_core core))) }
        ensures channels { IfOk result (λ m. channels_of m ≡ 0) }
        ensures code { IfOk result (λ m. core_in m ≡ plain_core core) }
    {
        let code = lower(alloc, &core)?;
        Machine::load(alloc, code)
    }
}
