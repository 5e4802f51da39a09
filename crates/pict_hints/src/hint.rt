// What may be meant at a wrong token, row by row.

ghost use Rattle.std.specs.Prelude.{◌≤◌, length};
ghost use Rattle.pict_syntax.specs.declared.limits.TheConstants.{TEXT_LIMIT};

use crate::scene::Scene;
use crate::writing::put_place;
use pict_syntax::TEXT_LIMIT;
use std::alloc::AllocError;

/// A usual mistake.
#[derive(Clone, Copy, PartialEq, Eq, Debug)]
pub enum Row {
    And,
    Angle,
    Arrow,
    Assign,
    Awaits,
    Begin,
    BehindRun,
    Block,
    Call,
    CallOrSend,
    Comment,
    Compare,
    Differ,
    DoubleBar,
    Else,
    EmptyRecord,
    Equal,
    Function,
    ImportEnd,
    ImportFirst,
    ImportName,
    InPlace,
    Infix,
    InfixText,
    Label,
    Lambda,
    Let,
    Loop,
    Minus,
    NamedValue,
    NewType,
    NoPattern,
    NoRound,
    NoSquare,
    Nothing,
    OneRecord,
    OpenRound,
    OpenSquare,
    Operator,
    Or,
    Process,
    Receive,
    ResultType,
    Return,
    RunIt,
    Semicolon,
    SendShort,
    SideBySide,
    Small,
    Tuple,
    TypeAlone,
    ValRec,
}

/// A row that fits, and the number of the token of which it speaks.
#[derive(Clone, Copy, Debug)]
pub struct Hint {
    pub row: Row,
    pub token: usize,
}

/// What a row says. `%` stands for the token of which it speaks, `~` for this in small letters, and `@` for its place.
fn text_of(row: Row) -> &'static str {
    match row {
        Row::And => "`and` joins the parts of a `def`; both of a and b is `if a then b else false`",
        Row::Angle =>
            "a value is sent on c by `c!v`, a record by `c![v w]`; numbers are compared by `(<< a b)`",
        Row::Arrow => "behind a pattern stands `=`: `c?x = P`",
        Row::Assign => "`=` alone; nothing is written anew: a state is a message",
        Row::Awaits =>
            "what begins at @ is a value and lacks its `;`; a process stands behind `run`",
        Row::Begin =>
            "processes side by side stand in round brackets: `(P | Q)`; one after the other: `(pr \"a\"); ..`",
        Row::BehindRun => "behind `run` stands a process: `c!v`, `c?x = P`, `(P | Q)`",
        Row::Block => "a block ends with a value, as in `((pr \"x\"); [])`",
        Row::Call => "a function is called in round brackets: `(% ..)`",
        Row::CallOrSend =>
            "a value is sent to a process by `%![..]`; a function is called inside the brackets, `(% ..)`",
        Row::Comment => "a comment stands between `{*` and `*}`",
        Row::Compare =>
            "numbers are compared by `(<< a b)`, `(<= a b)`, `(>> a b)`, `(>= a b)`, `(== a b)`",
        Row::Differ => "a and b differ is `(not (== a b))`",
        Row::DoubleBar => "one `|` stands between two processes: `(P | Q)`",
        Row::Else => "an `if` has both branches: `if b then P else ()`",
        Row::EmptyRecord => "the empty record is `[]`; `()` is the process that does nothing",
        Row::Equal =>
            "numbers are compared by `(== a b)`: the operator stands first, in round brackets",
        Row::Function =>
            "a function is `def f (x:T):U = value`, a process with arguments `def f [x:T] = process`",
        Row::ImportEnd => "an import ends with the name of the text: no `;` stands behind it",
        Row::ImportFirst => "imports stand first in a text, before all declarations",
        Row::ImportName => "the name of a text stands in double quotes: `import \"%\"`",
        Row::InPlace => {
            "a value isn't received in place: `c?x = P` goes on as P; in sequence it is `val x = (recv c)`, with \
             `def recv [#X c:?X r:/X] = c?x = r!x`"
        }
        Row::Infix => "operators stand first, in round brackets: `(% a b)`",
        Row::InfixText =>
            "operators stand first, in round brackets; texts are joined by `(+$ a b)`",
        Row::Label =>
            "a label stands before `=`: `[x=Int]`, `[x=1]`; `:` stands behind the names of patterns",
        Row::Lambda =>
            "a function without a name is `\\(x:T) = value`, a process with an argument `\\x = process`",
        Row::Let => "a value gets a name by `val x = ..`, a channel by `new c:^T`",
        Row::Loop => {
            "there are no loops: a `def` calls itself, as in `def loop [n:Int] = if (>> n 0) then loop![(- n 1)] \
             else ()`"
        }
        Row::Minus => "`n-1` is two values, `n` and the number `-1`: subtract by `(- n 1)`",
        Row::NamedValue => {
            "to send and to receive are processes, no values: `run c!1`; a value is received by `c?x = P`, or in \
             sequence by `val x = (recv c)`, with `def recv [#X c:?X r:/X] = c?x = r!x`"
        }
        Row::NewType => "a channel's type is written: `new %:^T`",
        Row::NoPattern => "a `def` has a pattern: `def f [] = process`, `def f () = value`",
        Row::NoRound => "no round bracket is open here",
        Row::NoSquare => "no square bracket is open here",
        Row::Nothing => "something is sent, and be it the empty record: `c![]`",
        Row::OneRecord => "several values are sent as one record: `c![1 2]`",
        Row::OpenRound => "the round bracket at @ isn't closed",
        Row::OpenSquare => "the square bracket at @ isn't closed",
        Row::Operator =>
            "an operator with its parameters stands in round brackets: `type (% X) = ..`",
        Row::Or => "one of a and b is `if a then true else b`",
        Row::Process => {
            "a process stands behind a name or `[ ]`: `c?x = P`, `def f [x:T] = P`; behind this `=` stands a \
             value, as the fields before it are a function's, in `( )`"
        }
        Row::Receive => "`c!v` sends v on c, `c?x = P` receives x on c and goes on as P",
        Row::ResultType =>
            "`[..]` is a process and has no result type; a function is `def f (x:T):U = value`",
        Row::Return => "a function's value stands after its `=`, with no word before it",
        Row::RunIt => "a process stands behind `run`: `run %..`",
        Row::Semicolon => {
            "`;` stands behind a value that is waited for, as in `(pr \"a\");`; a process goes on in what it \
             receives, or stands beside others: `(P | Q)`"
        }
        Row::SendShort => {
            "a value is sent on % by `%!v`; a function is called in round brackets, where a value stands: `(% v)`"
        }
        Row::SideBySide => "bars stand in round brackets: `run (P | Q)`, or write a second `run`",
        Row::Small => "keywords are written with small letters: `~`",
        Row::Tuple => "a record is taken apart by square brackets: `[x y]`",
        Row::TypeAlone =>
            "round brackets apply an operator, as in `(List Int)`; a type alone stands without them",
        Row::ValRec => "a `def` may use its own name; a `val` can't",
    }
}

/// The hint of this row, about the token so many places before the wrong one.
pub fn says(scene: &Scene<'_>, row: Row, back: usize) -> Option<Hint> {
    Some(Hint {
        row,
        token: scene.at.saturating_sub(back),
    })
}

/// Writes what a hint says.
pub fn put_hint(out: &mut Vec<u8>, scene: &Scene<'_>, hint: Hint) -> Result<(), AllocError>
    requires short { length scene.now.text.now ≤ TEXT_LIMIT }
{
    out.extend_from_slice(b"  perhaps: ")?;
    let word = scene.spelled(hint.token);
    for byte in text_of(hint.row).as_bytes() {
        match *byte {
            b'%' => put_word(out, word)?,
            b'~' => put_small(out, word)?,
            b'@' => put_token_place(out, scene, hint.token)?,
            other => out.push(other)?,
        }
    }
    out.push(b'\n')?;
    Ok(())
}

/// Writes a token, or two dots for a long one.
fn put_word(out: &mut Vec<u8>, word: &[u8]) -> Result<(), AllocError> {
    if word.len() > 40 {
        out.extend_from_slice(b"..")
    } else {
        out.extend_from_slice(word)
    }
}

/// Writes a token in small letters.
fn put_small(out: &mut Vec<u8>, word: &[u8]) -> Result<(), AllocError> {
    for byte in word {
        out.push(byte.to_ascii_lowercase())?;
    }
    Ok(())
}

/// Writes the place of a token.
fn put_token_place(out: &mut Vec<u8>, scene: &Scene<'_>, token: usize) -> Result<(), AllocError>
    requires short { length scene.now.text.now ≤ TEXT_LIMIT }
{
    match scene.pieces.get(token) {
        None => Ok(()),
        Some(piece) => put_place(out, scene.text, piece.start),
    }
}
