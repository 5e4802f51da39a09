// Laws of codes. Each is a function that does nothing: its contract is the law.
ghost use Rattle.pict_code.specs.Laws.{ProcessIsReadBack, NodesStand};

/// A process is read back from its nodes, so a code is that of one process only.
pub fn law_process_is_read_back()
    ensures { ProcessIsReadBack }
{}

/// Each node of a closed process, with values for its frame, stands for the part of its number: the frame's values are
/// enough to know the part with all variables around it put in, and closed values give a closed process.
pub fn law_nodes_stand()
    ensures { NodesStand }
{}
