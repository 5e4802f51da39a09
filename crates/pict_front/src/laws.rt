// The laws of the phases before a run, each as the contract of a function that does nothing.

ghost use Rattle.pict_front.specs.Laws.{AcceptedHasObject, AcceptedIsOrdered, AcceptedIsReadBack, AcceptedIsTyped, OneFront, RefusedIsPlaced};

/// Over a shelf that tells its texts every file, behind a prelude or without one, has exactly one answer by the phases: there is no
/// such file, or the core process of a program, or a refusal with one code at one place.
pub fn law_one_front()
    ensures { OneFront }
{}

/// The place of each refusal lies in the text whose number it has, from its first byte to its end, over any shelf.
pub fn law_refused_is_placed()
    ensures { RefusedIsPlaced }
{}

/// The core process of an accepted file is the translation of declarations in which no rule of scopes fails and that are
/// typed, and it is within the limit of depth.
pub fn law_accepted_is_typed()
    ensures { AcceptedIsTyped }
{}

/// The records in the core process of an accepted file have identifiers as labels, in the order of their bytes and so
/// distinct; and no two of its names are the same.
pub fn law_accepted_is_ordered()
    ensures { AcceptedIsOrdered }
{}

/// The core process of an accepted file meets the bounds of objects: closed, within the limits of depth and of nesting, its
/// labels identifiers, those of each record and of each record pattern in the order of their bytes. So it has an object.
pub fn law_accepted_has_object()
    ensures { AcceptedHasObject }
{}

/// What a run of an accepted file writes, a line for each step that shows something, is read back as the labels of these
/// steps, as far as their numbers and their nesting fit, and as nothing else.
pub fn law_accepted_is_read_back()
    ensures { AcceptedIsReadBack }
{}
