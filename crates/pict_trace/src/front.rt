// What stands at the front of a text.

ghost use Rattle.std.specs.Prelude.{◌≡◌, ◌≢◌, ◌++◌, ◌↔◌, ℕ, List, IsTrue, IfSome, None};
ghost use Rattle.pict_trace.specs.Reading.{is_end, Ends};

/// The text behind these bytes, or None exactly where it doesn't begin with them. Takes no memory.
pub fn behind<'a>(bytes: &[u8], text: &'a [u8]) -> Option<&'a [u8]>
    ensures some { IfSome result (λ rest. text.now ≡ bytes.now ++ rest.now) }
    ensures none { result ≡ None → (rest : List ℕ) → text.now ≢ bytes.now ++ rest }
{
    text.strip_prefix(bytes)
}

// Whether a byte ends a value without quotes and brackets: a space, a newline or `]`.
pub(crate) fn is_end(byte: u8) -> bool
    ensures { result ≡ is_end byte }
{
    byte == b' ' || byte == b'\n' || byte == b']'
}

// Whether a value may end in front of this text.
pub(crate) fn at_end(rest: &[u8]) -> bool
    ensures { IsTrue result ↔ Ends rest.now }
{
    match rest {
        [] => true,
        [first, ..] => is_end(*first),
    }
}
