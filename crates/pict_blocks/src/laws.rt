// Laws of the definitions. Each is a function that does nothing: its contract is the law.
ghost use Rattle.pict_blocks.specs.Laws.{NarrowBlocks, NodesEnd, PartsFork, NewsMakeChannels, TestsChoose, OutputsStand, InputsStand, OutputsMeet, InputsMeet};

/// A frame of at most `NARROW_LIMIT` levels stands in the block itself: the words of a node's number and of the values of its
/// frame are a block of the node.
pub fn law_narrow_blocks()
    ensures { NarrowBlocks }
{}

/// The step of the inert process, on the words of blocks: its block ends.
pub fn law_nodes_end()
    ensures { NodesEnd }
{}

/// The step of a parallel composition, on the words of blocks: the words of its left part come first and those of its right
/// part last among the ready ones, each with the values of its own frame.
pub fn law_parts_fork()
    ensures { PartsFork }
{}

/// The step of a new channel, on the words of blocks: the words of its part come first, with the values of the levels around it
/// and the next channel at the new level.
pub fn law_news_make_channels()
    ensures { NewsMakeChannels }
{}

/// The step of a conditional, on the words of blocks: the words of the part that the test chooses come first.
pub fn law_tests_choose()
    ensures { TestsChoose }
{}

/// The block of an output stands for the output of its second operand on its first, with the values of its levels.
pub fn law_outputs_stand()
    ensures { OutputsStand }
{}

/// The block of an input stands for an input from its operand, with its pattern.
pub fn law_inputs_stand()
    ensures { InputsStand }
{}

/// The step of an output that meets a reader, on the words of blocks: the words of the reader's part come last among the ready
/// ones, with what the pattern binds beside the reader's values; a replicated reader goes behind the others.
pub fn law_outputs_meet()
    ensures { OutputsMeet }
{}

/// The step of an input that meets a message, on the words of blocks: the words of its part come last among the ready ones,
/// with what the pattern binds beside its values; a replicated input keeps the turn.
pub fn law_inputs_meet()
    ensures { InputsMeet }
{}
