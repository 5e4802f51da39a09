// The primitives by their names.

ghost use Rattle.std.specs.Prelude.{◌≡◌};
ghost use Rattle.pict_scope.specs.PrimitiveNames.{primitive_named};

use pict_syntax::Primitive;

/// The primitive of this name. Takes no memory.
pub fn primitive_named(text: &[u8]) -> Option<Primitive>
    ensures { result ≡ primitive_named text.now }
{
    Primitive::named(text)
}
