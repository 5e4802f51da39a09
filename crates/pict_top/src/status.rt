// How a call of the command ends.

/// How a call of the command ends.
#[derive(Clone, Copy, Debug, PartialEq, Eq)]
pub enum Status {
    /// The run is finished.
    Done,
    /// The text is refused, and the report on the error output says where and why.
    Refused,
    /// The words have no listed shape.
    Usage,
    /// The fuel is spent, and something is ready still.
    FuelSpent,
    /// A step divides by zero.
    Trap,
    /// The shelf failed.
    ReadFault,
    /// The output or the error output failed.
    WriteFault,
    /// Want of memory.
    Memory,
    /// The shelf has no such file.
    Missing,
    /// A step of an object's run is wrong: a message of another shape than the step asks for.
    Misshapen,
    /// A replay file doesn't agree with the program.
    Rejected,
}

impl Status {
    ghost use Rattle.std.specs.Prelude.{◌≡◌};
    ghost use Rattle.pict_top.specs.Numbers.{number_of};

    /// The exit status of the process.
    pub fn number(self) -> u8
        ensures { result ≡ number_of self }
    {
        match self {
            Status::Done => 0,
            Status::Refused => 1,
            Status::Usage => 2,
            Status::FuelSpent => 3,
            Status::Trap => 4,
            Status::ReadFault => 5,
            Status::WriteFault => 6,
            Status::Memory => 7,
            Status::Missing => 8,
            Status::Misshapen => 9,
            Status::Rejected => 10,
        }
    }
}
