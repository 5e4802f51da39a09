// Laws of the definitions. Each is a function that does nothing: its contract is the law.

ghost use Rattle.pict_built.specs.Laws.{BytesAreDecided, DecodedRunsAsWritten, ObjectsAreDecodedOnce, ObjectsAreSized, WrittenIsReadBack};

/// Bytes are the object of some process, or of none.
pub fn law_bytes_are_decided()
    ensures { BytesAreDecided }
{}

/// An object that is read by no names but its own labels is one process.
pub fn law_objects_are_decoded_once()
    ensures { ObjectsAreDecodedOnce }
{}

/// A process within the bounds of objects has an object of at most so many bytes, or each object of it has more.
pub fn law_objects_are_sized()
    ensures { ObjectsAreSized }
{}

/// What is read of an object runs as the process of which it was written: with the same fuel it comes to the same end, and prints
/// the same bytes.
pub fn law_decoded_runs_as_written()
    ensures { DecodedRunsAsWritten }
{}

/// What was written of a process is read back over the same names, which stay as they are: the process without its places.
pub fn law_written_is_read_back()
    ensures { WrittenIsReadBack }
{}
