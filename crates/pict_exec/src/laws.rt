// Laws of the definitions. Each is a function that does nothing: its contract is the law.
ghost use Rattle.pict_exec.specs.Room.{FramesAreFew};

/// The frames of a process have together no more levels than there are variables bound around its parts.
pub fn law_frames_are_few()
    ensures { FramesAreFew }
{}
