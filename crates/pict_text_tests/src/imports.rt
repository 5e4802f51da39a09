// What a file reaches by its imports, and where it is refused.
//
// A row of a table is `ANSWER | NAME = TEXT | NAME = TEXT ..`: the texts of a shelf, of which the first is the file. The answer
// is `Ok`, the number of declarations, and the names of the texts in the order in which their visits end; or the code of the
// refusal, the name of the text in which it stands, and its place: the first byte and the one after the last. A line that
// begins with `--` says what the rows below it are for.

use crate::answers::{compare, is_row, parts, text_of};
use pict_gather::{GatherError, Gathering, gather};
use pict_outside::{Entry, MemoryShelf};
use pict_syntax::{Bytes, Sources, Span, TEXT_LIMIT};
use std::alloc::{AllocError, Global};

const TEXTS: &str = r#"
Ok 2: L F | F = import "L" run printi!(twice 4) | L = def twice (n:Int):Int = (+ n n)
Ok 3: L M F | F = import "L" import "M" run print!"f" | L = run print!"l" | M = import "L" run print!"m"
I2 G 7..10 | F = import "G" | G = import "F"
I1 F 7..10 | F = import "Q"
I4 F 7..9 | F = import ""
P1 F 7..13 | F = run () import "L"
-- a text is visited once, where the first of its imports stands
Ok 4: D B C F | F = import "B" import "C" run () | B = import "D" run () | C = import "D" run () | D = run ()
Ok 1: L F | F = import "L" import "L" | L = run ()
Ok 3: B D C F | F = import "C" import "B" | B = run () | C = import "D" import "B" run () | D = import "B" run ()
-- a file that imports itself, under its own name and another
I2 F 7..10 | F = import "F"
I2 F 7..12 | ./F = import "F" | F = import "./F"
-- names are bytes: an escape is its byte, and two names are two texts
Ok 1: L F | F = import "\x4c" import "L" | L = run ()
Ok 2: L ./L F | F = import "L" import "./L" | L = run () | ./L = run ()
-- no text has the name of the prelude by itself
Ok 1: prelude F | F = import "prelude" | prelude = run ()
I1 F 7..16 | F = import "prelude"
-- bad names
I4 F 7..11 | F = import "-L" | -L = run ()
I4 F 7..13 | F = import "\x7f" | L = run ()
I4 F 7..14 | F = import "L\x0a" | L = run ()
Ok 1:  ~- F | F = import " ~-" |  ~- = run ()
-- each import is followed before the next is looked at, and a text is read before its imports
I1 F 7..10 | F = import "Q" import ""
I4 F 7..9 | F = import "" import "Q"
L1 F 10..11 | F = import "" @
P1 F 9..10 | F = import "")
P1 L 0..1 | F = import "L" import "" | L = )
L2 L 4..5 | F = import "L" | L = run "
"#;

/// The name of a text.
fn name_of(name: &Bytes) -> &str {
    match str::from_utf8(name.slice()) {
        Ok(name) => name,
        Err(_) => "?",
    }
}

/// The answer where all was gathered.
fn whole(alloc: Global, gathering: &Gathering) -> Result<String, AllocError> {
    let mut answer = format!(in alloc; "Ok {}:", gathering.decs.len())?;
    for name in &gathering.ended {
        answer.push_str(" ")?;
        answer.push_str(name_of(name))?;
    }
    Ok(answer)
}

/// What a file comes to, as a table has it.
fn answer(
    alloc: Global,
    prelude: &[u8],
    file: &str,
    shelf: &mut MemoryShelf,
) -> Result<String, AllocError> {
    let mut sources = Sources::new(alloc);
    let gathered = if prelude.is_empty() {
        gather(alloc, None, file, shelf, &mut sources)
    } else if prelude.len() as u64 <= TEXT_LIMIT {
        gather(alloc, Some(prelude), file, shelf, &mut sources)
    } else {
        return Err(AllocError);
    };
    match gathered {
        Ok(gathering) => whole(alloc, &gathering),
        Err(GatherError::Named(code, Span { text, start, end })) => {
            let name = match sources.list.get(text as usize) {
                Some(source) => name_of(&source.name),
                None => "no text",
            };
            format!(in alloc; "{code:?} {name} {start}..{end}")
        }
        Err(GatherError::Missing) => format!(in alloc; "Missing"),
        Err(GatherError::Failed) => {
            let name = match sources.list.last() {
                Some(source) => name_of(&source.name),
                None => "no text",
            };
            format!(in alloc; "Failed {name}")
        }
        Err(GatherError::Memory) => Err(AllocError),
    }
}

/// A text under a name.
fn entry_of(alloc: Global, name: &[u8], text: &[u8]) -> Result<Entry, AllocError> {
    let name = name.to_vec(alloc)?;
    let text = text.to_vec(alloc)?;
    Ok(Entry { name, text })
}

/// What the texts of a row come to.
fn found_of(alloc: Global, texts: &str) -> Result<String, AllocError> {
    let (file, _) = texts.split_once(" = ").unwrap_or((texts, ""));
    let mut entries = Vec::new(alloc);
    for text in texts.split(" | ") {
        let (name, text) = text.split_once(" = ").unwrap_or((text, ""));
        entries.push(entry_of(alloc, name.as_bytes(), text.as_bytes())?)?;
    }
    let mut shelf = MemoryShelf::new(entries, Vec::new(alloc));
    answer(alloc, b"", file, &mut shelf)
}

/// The rows of the table that come to something else.
fn wrong_rows(alloc: Global) -> Result<String, AllocError> {
    let mut wrong = String::new(alloc);
    for row in TEXTS.lines() {
        if is_row(row) {
            let (wanted, texts) = parts(row);
            compare(
                alloc,
                row,
                wanted,
                found_of(alloc, texts)?.as_str(),
                &mut wrong,
            )?;
        }
    }
    Ok(wrong)
}

#[test]
fn imports(rt: HostRuntime) -> Result<(), AllocError> {
    let wrong = wrong_rows(rt.alloc())?;
    assert!(rt; wrong.is_empty(), "{wrong}");
    Ok(())
}

/// What a file comes to that stands alone on a shelf.
fn alone(alloc: Global, text: &[u8]) -> Result<String, AllocError> {
    let mut entries = Vec::new(alloc);
    entries.push(entry_of(alloc, b"F", text)?)?;
    answer(
        alloc,
        b"",
        "F",
        &mut MemoryShelf::new(entries, Vec::new(alloc)),
    )
}

/// The nesting of a text is looked at before its imports.
fn is_nesting_first(alloc: Global) -> Result<bool, AllocError> {
    let text = text_of(alloc, "import \"\" run «( 201»")?;
    Ok(alone(alloc, &text)?.as_str() == "P2 F 214..215")
}

/// The text of this number in a chain of so many, each of which imports the next, and the last one no text.
fn link_of(alloc: Global, number: u32, count: u32) -> Result<Entry, AllocError> {
    let name = format!(in alloc; "{number}")?;
    let text = if number == count {
        format!(in alloc; "run ()")?
    } else {
        let next = number.saturating_add(1);
        format!(in alloc; "import \"{next}\" run ()")?
    };
    entry_of(alloc, name.as_bytes(), text.as_bytes())
}

/// What the first text of a chain of so many comes to, of which so many are there.
fn chain(alloc: Global, count: u32, there: u32) -> Result<String, AllocError> {
    let mut entries = Vec::new(alloc);
    for number in 1..=there {
        entries.push(link_of(alloc, number, count)?)?;
    }
    answer(
        alloc,
        b"",
        "1",
        &mut MemoryShelf::new(entries, Vec::new(alloc)),
    )
}

/// A chain of 64 texts is gathered. In one of 65 the last is one too many, also where it isn't there.
fn are_long_chains_refused(alloc: Global) -> Result<bool, AllocError> {
    Ok(
        chain(alloc, 64, 64)?.starts_with("Ok 64: 64 63 62 ")
            && chain(alloc, 65, 65)?.as_str() == "I3 64 7..11"
            && chain(alloc, 65, 64)?.as_str() == "I3 64 7..11",
    )
}

#[test]
fn nesting_and_long_chains(rt: HostRuntime) -> Result<(), AllocError> {
    assert!(rt; is_nesting_first(rt.alloc())?);
    assert!(rt; are_long_chains_refused(rt.alloc())?);
    Ok(())
}

/// A text under a name, of so many bytes, that begins with these and is blank behind them.
fn blank(alloc: Global, name: &[u8], front: &[u8], length: usize) -> Result<Entry, AllocError> {
    let mut text = front.to_vec(alloc)?;
    let more = length.saturating_sub(front.len());
    for _ in 0..more {
        text.push(b' ')?;
    }
    let name = name.to_vec(alloc)?;
    Ok(Entry { name, text })
}

/// Whether `F`, which imports `L` and then `M`, comes to this, by the lengths of the three.
fn has(
    alloc: Global,
    file: usize,
    first: usize,
    second: usize,
    wanted: &str,
) -> Result<bool, AllocError> {
    let mut entries = Vec::new(alloc);
    entries.push(blank(alloc, b"F", b"import \"L\" import \"M\"", file)?)?;
    entries.push(blank(alloc, b"L", b"", first)?)?;
    entries.push(blank(alloc, b"M", b"", second)?)?;
    let mut shelf = MemoryShelf::new(entries, Vec::new(alloc));
    Ok(answer(alloc, b"run ()", "F", &mut shelf)?.as_str() == wanted)
}

/// The bytes of a file and of the texts that it reaches are counted together, those of the prelude aren't, and the refusal
/// stands at the text that is one too many bytes long. An empty text has room where none is left.
#[test]
fn bytes_together(rt: HostRuntime) -> Result<(), AllocError> {
    let alloc = rt.alloc();
    assert!(rt; has(alloc, 524_288, 524_288, 0, "Ok 1: L M F")?);
    assert!(rt; has(alloc, 524_288, 524_289, 0, "B1 L 0..0")?);
    assert!(rt; has(alloc, 524_288, 524_288, 1, "B1 M 0..0")?);
    assert!(rt; has(alloc, 1_048_577, 0, 0, "B1 F 0..0")?);
    Ok(())
}

/// What a file of three comes to, behind a prelude, where this call of the shelf fails.
fn over_three(alloc: Global, fails: u64, prelude: &str, file: &str) -> Result<String, AllocError> {
    let mut entries = Vec::new(alloc);
    entries.push(entry_of(alloc, b"F", b"import \"L\" run ()")?)?;
    entries.push(entry_of(alloc, b"L", b"run ()")?)?;
    entries.push(entry_of(alloc, b"B", b"@")?)?;
    let mut shelf = MemoryShelf::new(entries, vec![in alloc; fails]?);
    answer(alloc, prelude.as_bytes(), file, &mut shelf)
}

/// Rows `ANSWER | CALL | FILE | PRELUDE`: what the file comes to behind the prelude where this call of the shelf fails, none where it is 0.
const SHELVES: &str = r#"
-- a shelf that fails, at the file and at an import
Failed F | 1 | F |
Failed L | 2 | F |
Ok 2: L F | 3 | F |
-- a file that isn't there
Missing | 0 | G |
-- the prelude is read behind the fetch of the file and before its visit, and its imports are passed over
Failed F | 1 | F | run print!
Missing | 0 | G | run print!
P1 prelude 10..10 | 0 | B | run print!
Ok 4: L F | 0 | F | import "" run () run ()
L1 B 0..1 | 0 | B | import "L" run ()
"#;

/// A column of a row.
fn column(row: &str, place: usize) -> &str {
    row.split('|').nth(place).unwrap_or("").trim()
}

/// The rows of the table that come to something else.
fn wrong_shelves(alloc: Global) -> Result<String, AllocError> {
    let mut wrong = String::new(alloc);
    for row in SHELVES.lines() {
        if is_row(row) {
            let fails = column(row, 1).parse().unwrap_or(0);
            let found = over_three(alloc, fails, column(row, 3), column(row, 2))?;
            compare(alloc, row, column(row, 0), found.as_str(), &mut wrong)?;
        }
    }
    Ok(wrong)
}

#[test]
fn shelves_and_preludes(rt: HostRuntime) -> Result<(), AllocError> {
    let wrong = wrong_shelves(rt.alloc())?;
    assert!(rt; wrong.is_empty(), "{wrong}");
    Ok(())
}
