// Identifiers and keywords.

ghost use Rattle.std.specs.Prelude.{◌≡◌, ◌≢◌, ◌+◌, ◌<◌, ◌≤◌, ℕ, List, false, length, take, drop, slice_index, IfSome, IfNone, IsTrue};
ghost use Rattle.std.specs.Char.{is_ascii_alphabetic};
ghost use Rattle.pict_syntax.specs.declared.token.Keyword.{Keyword};
ghost use Rattle.pict_syntax.specs.Tokens.{keyword_text, is_word_byte, IsWord};

use pict_syntax::Keyword;

/// The keyword with this text.
pub fn keyword_of(word: &[u8]) -> Option<Keyword>
    ensures found { IfSome result (λ keyword. word.now ≡ keyword_text keyword) }
    ensures none { IfNone result ((keyword : Keyword) → word.now ≢ keyword_text keyword) }
{
    match word {
        b"and" => Some(Keyword::And),
        b"def" => Some(Keyword::Def),
        b"else" => Some(Keyword::Else),
        b"false" => Some(Keyword::False),
        b"if" => Some(Keyword::If),
        b"import" => Some(Keyword::Import),
        b"new" => Some(Keyword::New),
        b"rec" => Some(Keyword::Rec),
        b"run" => Some(Keyword::Run),
        b"then" => Some(Keyword::Then),
        b"true" => Some(Keyword::True),
        b"type" => Some(Keyword::TypeDefinition),
        b"val" => Some(Keyword::Val),
        b"Bool" => Some(Keyword::BoolType),
        b"Char" => Some(Keyword::CharType),
        b"Int" => Some(Keyword::IntType),
        b"String" => Some(Keyword::StringType),
        b"Top" => Some(Keyword::TopType),
        b"Type" => Some(Keyword::TypeKind),
        _ => None,
    }
}

/// Whether a byte may stand in an identifier behind its first letter.
fn is_word_byte(byte: u8) -> bool
    ensures { result ≡ is_word_byte byte }
{
    byte.is_ascii_alphanumeric() || byte == b'_' || byte == b'\''
}

/// How many bytes the word at the front has.
pub fn word_len(rest: &[u8]) -> usize
    requires some { 0 < length rest.now }
    requires letter { IsTrue (is_ascii_alphabetic (slice_index rest.now 0)) }
    ensures some { 0 < result }
    ensures within { result ≤ length rest.now }
    ensures word { IsWord (take result rest.now) }
    ensures longest { result < length rest.now → is_word_byte (slice_index rest.now result) ≡ false }
{
    let mut len = 1;
    while len < rest.len() && is_word_byte(rest[len]) {
        len += 1;
    }
    len
}
