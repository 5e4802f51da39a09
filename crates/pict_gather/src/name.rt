// Names of texts.

ghost use Rattle.std.specs.Prelude.{◌≡◌};
ghost use Rattle.pict_gather.specs.Gathered as gathered;
ghost use Rattle.pict_gather.specs.Sources as sources;

use pict_syntax::{Bytes, Source};

/// Whether an import may have this name: one that isn't empty, doesn't begin with `-`, and has bytes from 0x20 to 0x7E alone.
/// Takes no memory.
pub(crate) fn is_import_name(name: &[u8]) -> bool
    ensures { result ≡ gathered.is_import_name name.now }
{
    match name.first() {
        None => false,
        Some(first) => *first != b'-' && are_printable(name),
    }
}

/// Whether each byte is from 0x20 to 0x7E. Takes no memory.
fn are_printable(bytes: &[u8]) -> bool
    ensures { result ≡ gathered.are_printable bytes.now }
{
    bytes.iter().all(|byte| 32 <= *byte && *byte <= 126)
}

/// Whether a name is among these. Takes no memory.
pub(crate) fn is_among(name: &[u8], names: &[Bytes]) -> bool
    ensures { result ≡ sources.is_among name.now names.now }
{
    names.iter().any(|other| name == other.slice())
}

/// Whether a name is that of one of these texts. Takes no memory.
pub(crate) fn is_name_of(name: &[u8], texts: &[Source]) -> bool
    ensures { result ≡ sources.is_name_of name.now texts.now }
{
    texts.iter().any(|source| name == source.name.slice())
}
