// Laws of the definitions. Each is a function that does nothing: its contract is the law.
ghost use Rattle.pict_machine.specs.Laws.{ClosedProcessesHaveCodes};

/// The nodes of a closed process, as lowering gives them, are a code that a machine may run, and it is the code of this
/// process alone.
pub fn law_closed_processes_have_codes()
    ensures { ClosedProcessesHaveCodes }
{}
