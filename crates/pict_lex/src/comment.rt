// Comments, which nest.

ghost use Rattle.std.specs.Prelude.{◌≡◌, ◌≤◌, ℕ, List, false, true, length, take, IfSome, IfNone};
ghost use Rattle.pict_syntax.specs.Comments.{BeginsWith, opening, IsComment};
ghost use Rattle.pict_lex.specs.Bracket.{IsBracket};

/// What two bytes of a comment are.
#[derive(Clone, Copy)]
enum Bracket {
    Opening,
    Closing,
    None,
}

/// What these two bytes are.
fn bracket_of(first: u8, second: u8) -> Bracket
    ensures { IsBracket first second result }
{
    match (first, second) {
        (b'{', b'*') => Bracket::Opening,
        (b'*', b'}') => Bracket::Closing,
        _ => Bracket::None,
    }
}

/// How many bytes the comment at the front has, where it is closed.
pub(crate) fn comment_len(rest: &[u8]) -> Option<usize>
    requires { BeginsWith opening rest.now }
    ensures within { IfSome result (λ len. len ≤ length rest.now) }
    ensures found { IfSome result (λ len. IsComment (take len rest.now)) }
    ensures none { IfNone result ((bytes : List ℕ) → IsComment bytes → ¬ BeginsWith bytes rest.now) }
{
    let mut depth: usize = 1;
    let mut at = 2;
    'inside: while depth > 0 {
        if rest.len() - at < 2 {
            return None;
        }
        match bracket_of(rest[at], rest[at + 1]) {
            Bracket::Opening => {
                depth += 1;
                at += 2;
            }
            Bracket::Closing => {
                depth -= 1;
                at += 2;
            }
            Bracket::None => at += 1,
        }
    }
    Some(at)
}
