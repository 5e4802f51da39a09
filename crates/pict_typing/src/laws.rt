// Laws of core typing. Each is a function that does nothing: its contract is the law.

ghost use Rattle.pict_typing.specs.Laws.{ConditionsAreTruthValues, MessagesAreReceived, NothingResponds, PrimitivesAct, ReceiversAreChannels, SendersAreChannelsOrPrimitives, TypedAreClosed, TypesPutKeepTyping, ValuesPutKeepTyping};
ghost use Rattle.pict_typing.specs.PrimitiveShapes.{EffectsAreByShape};

/// Typing is kept where types and operators, of their kinds and within their bounds, are put for type variables.
pub fn law_types_put_in()
    ensures { TypesPutKeepTyping }
{}

/// Typing is kept where closed values are put for variables of their types.
pub fn law_values_put_in()
    ensures { ValuesPutKeepTyping }
{}

/// A closed value that has `Bool` is a truth value. One that has `?T` is a channel whose messages have T. One that has
/// `!T` is a channel or a primitive that takes each value of T. None has `/T`. And a primitive has an effect on each closed
/// value that it takes.
pub fn law_canonical_forms()
    ensures conditions { ConditionsAreTruthValues }
    ensures receivers { ReceiversAreChannels }
    ensures senders { SendersAreChannelsOrPrimitives }
    ensures responders { NothingResponds }
    ensures primitives { PrimitivesAct }
{}

/// A pattern that opens a closed type fits each closed value of this type, and a process typed with what the pattern
/// opens and binds is typed once what it binds is put in.
pub fn law_messages_are_received()
    ensures { MessagesAreReceived }
{}

/// The processes of a well typed configuration are closed and name its channels alone, and no label stands twice in a
/// record.
pub fn law_typed_are_closed()
    ensures { TypedAreClosed }
{}

/// A primitive has an effect on exactly the values of the shape that it takes: literals of its operands' types, in a record
/// with one field more, for the answer, where it answers. Labels count nothing.
pub fn law_effects_by_shape()
    ensures { EffectsAreByShape }
{}
