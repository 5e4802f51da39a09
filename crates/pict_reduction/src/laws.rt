// Laws of the definitions. Each is a function that does nothing: its contract is the law.

ghost use Rattle.pict_reduction.specs.Laws.{AlikeAreCongruent, ChannelsInOrder, CongruentAreAlike, FinishedIsIrreducible, FreeRunsReach, ParkedApart, ReductionsAreReached, ReductionsAreReactions, RunsReduce, StepsAreReductions};

/// In each configuration that free steps reach from the opening one of a closed process, a parked process stands at a
/// channel, and no channel has a parked message and a parked reader at once.
pub fn law_parked()
    ensures { ParkedApart }
{}

/// In each oldest-first run of a closed process, and for each channel, the messages offered to it are those
/// communicated on it followed by those parked at it, in the order in which the outputs acted; and likewise for readers.
/// A reader is offered when it parks, when it acts and meets a message, and, if it is replicated, again when it is parked
/// anew after serving.
pub fn law_channel_order()
    ensures { ChannelsInOrder }
{}

/// For each free step of a configuration, the reading before it is congruent to the reading after it and the step prints
/// nothing, or the reading reduces to it by one reduction and the step prints exactly what the reduction prints.
pub fn law_reading()
    ensures { StepsAreReductions }
{}

/// A finished configuration that free steps reach from the opening one of a closed process has a reading that no
/// reduction leaves, even up to congruence.
pub fn law_done()
    ensures { FinishedIsIrreducible }
{}

/// In an oldest-first run of a closed process each step leaves the reading congruent and prints nothing, or reduces it by
/// one reduction and prints what that prints; and where the run is finished no reduction leaves the reading, even up to
/// congruence.
pub fn law_runs_reduce()
    ensures { RunsReduce }
{}

/// Congruent processes have the same components, up to order and a bijection of the variables bound there. The
/// components are what stands under no input and no conditional: a number of new, and the processes under them that are
/// no |, no new and no 0.
pub fn law_components()
    ensures { CongruentAreAlike }
{}

/// Each reduction of a process, also one of a process congruent to it, is the firing of a redex among the process' own
/// components, which prints the same: one or two of them reduce by one of the four rules, and the components afterwards are
/// those of what they leave, beside the others.
pub fn law_redex()
    ensures { ReductionsAreReactions }
{}

/// Processes with the same components, up to order and a bijection of the variables bound there, are congruent.
pub fn law_alike()
    ensures { AlikeAreCongruent }
{}

/// Free steps lose no reduction. Let the reading of a configuration that free steps reach from the opening one of a closed
/// process reduce to a process by one reduction. Then free steps lead from it to a configuration whose reading is that
/// process, up to congruence: each of them but the last shows nothing and leaves the reading congruent, and the last one
/// reduces it and prints what the reduction prints.
pub fn law_reduction_is_reached()
    ensures { ReductionsAreReached }
{}

/// The free run of a list of places, from the opening configuration of a closed process, reaches its last configuration by
/// free steps.
pub fn law_free_runs_reach()
    ensures { FreeRunsReach }
{}
