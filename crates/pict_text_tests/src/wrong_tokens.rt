// What is told of wrong tokens: which could stand there, what is being read, and what may be meant.

use crate::answers::{compare, is_row, parts};
use pict_hints::explanation;
use pict_lex::lex;
use pict_parse::{ParseError, parse};
use pict_syntax::{Code, Names, Span, TEXT_LIMIT};
use std::alloc::{AllocError, Global};
use std::str::from_utf8;

/// The place of the first wrong token of a text, or its end, where it is refused there.
fn wrong_place(alloc: Global, text: &[u8]) -> Option<Span> {
    if text.len() as u64 > TEXT_LIMIT {
        return None;
    }
    let mut names = Names::new(alloc);
    match lex(alloc, &mut names, text, 1) {
        Err(_) => None,
        Ok(tokens) => match parse(alloc, &tokens, text.len() as u32) {
            Err(ParseError::Unexpected(span)) => Some(span),
            _ => None,
        },
    }
}

/// What is told of the first wrong token of a text, on the line that begins so.
fn told(alloc: Global, text: &[u8], beginning: &str) -> Result<String, AllocError> {
    let Some(place) = wrong_place(alloc, text) else {
        return format!(in alloc; "no wrong token");
    };
    if text.len() as u64 > TEXT_LIMIT {
        return Err(AllocError);
    }
    let bytes = explanation(alloc, Code::P1, place, text, true, &[])?;
    let Ok(lines) = from_utf8(&bytes) else {
        return format!(in alloc; "no text");
    };
    for line in lines.lines() {
        if let Some(rest) = line.strip_prefix(beginning) {
            return format!(in alloc; "{rest}");
        }
    }
    format!(in alloc; "nothing")
}

/// The rows `TOLD | TEXT` of a table where something else than TOLD stands on the line that begins so.
fn wrong_rows(alloc: Global, table: &str, beginning: &str) -> Result<String, AllocError> {
    let mut wrong = String::new(alloc);
    for row in table.lines() {
        if is_row(row) {
            let (wanted, text) = parts(row);
            let found = told(alloc, text.as_bytes(), beginning)?;
            compare(alloc, row, wanted, found.as_str(), &mut wrong)?;
        }
    }
    Ok(wrong)
}

/// What could stand at the first wrong token.
const COULD_STAND: &str = r#"
-- of the symbol names `+` and `-` alone are marks of kinds
`+`, `-` or `Type` | type T = [#F:(* Type -> Type)]
`+`, `-`, `Type` or `->` | type T = [#F:(Type * -> Type)]
`Type` | type T = [#F:(+ + -> Type)]
-- each of them begins a value and a process
a process | run )
a value | run c!)
-- imports stand before declarations
a value, a declaration, `import` or the end of the text | )
a value, a declaration, `import` or the end of the text | import "L" )
a value, a declaration or the end of the text | import "L" run () )
a value, a declaration or the end of the text | run () import "L"
-- an import is a name of a text
a string | import
a string | import run
a string | import L
-- declarations behind imports
`:` | import "L" import "M" new c run c!1
"#;

/// What is being read at the first wrong token.
const READING: &str = r#"
an `import`, from 1:1 on | import
an `import`, from 1:12 on | import "L" import
a `new`, from 1:12 on | import "L" new c run c!1
a value that ends with `;`, from 1:12 on | import "L" "M"
nothing | run () import "L"
"#;

/// What may be meant at the first wrong token.
const PERHAPS: &str = r#"
the name of a text stands in double quotes: `import "L"` | import L run ()
nothing | import 1
an import ends with the name of the text: no `;` stands behind it | import "L"; run ()
imports stand first in a text, before all declarations | run () import "L"
imports stand first in a text, before all declarations | new c:^Int run import "L"
nothing | import import "L"
nothing | type T = [#F:(* Type -> Type)]
"#;

#[test]
fn wrong_tokens(rt: HostRuntime) -> Result<(), AllocError> {
    let wrong = wrong_rows(rt.alloc(), COULD_STAND, "  could stand here: ")?;
    assert!(rt; wrong.is_empty(), "{wrong}");
    let wrong = wrong_rows(rt.alloc(), READING, "  this is read as part of ")?;
    assert!(rt; wrong.is_empty(), "{wrong}");
    let wrong = wrong_rows(rt.alloc(), PERHAPS, "  perhaps: ")?;
    assert!(rt; wrong.is_empty(), "{wrong}");
    Ok(())
}
