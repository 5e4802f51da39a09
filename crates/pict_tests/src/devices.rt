// Calls of the command over devices of which some calls fail, as a table, and over a shelf of one text.
//
// A row of the table is `WORDS¦FILES¦FAILURES¦STATUS¦OUTPUT¦REPORT`: a call, and what it comes to. A file is `NAME TEXT`; where a row has none,
// the counter server stands under `F`. A failure is `shelf CALL`, or `output CALL BYTES` or `errors CALL BYTES`: which call fails, and
// after how many bytes. Files stand apart by `§`, failures by a comma, and rows by `¶`.

use pict_outside::{Entry, Fail, MemoryShelf, MemorySink};
use pict_top::{OneShelf, Status, pict};
use std::alloc::{AllocError, Global};

const SERVER: &str = "F val [get=get set=set] = (ref 0)\n\
    val [acquire=acquire release=release] = (lock)\n\
    val clients = (cons 1 (cons 2 (cons 3 (nil))))\n\
    new done:^[]\n\
    def client (n:Int):[] = (\n\
      (acquire);\n\
      val v = (get)\n\
      (set (+ v n));\n\
      (release);\n\
      [])\n\
    def start (u:[] n:Int):[] = (run ((client n); done![]) [])\n\
    (foldl start [] clients);\n\
    run done?[] = done?[] = done?[] = ((pr \"total \"); printi!(get))\n";

/// Writes of which one fails, or that of a report; a second printing of no bytes, so that there is no second write, which would fail; each of
/// the two writes of the counter server in turn. Writes of choices, of `trace` and of a trace's first line. Each call of a shelf in turn:
/// the text is named that it was asked for. Programs made from a number, for which the shelf is asked for nothing. Objects and replay files.
const ROWS: &str = "\
trace --bare F¦F new c:^Int run c!1 run c?n = printi!n¦output 2 3¦WriteFault¦5 c0 1\n7 p¦¶\
code --bare F¦F new c:^Int run c!1 run c?n = printi!n¦output 2 4¦WriteFault¦0 {} new s0 1\n1 {s¦¶\
run --bare F¦F run print!\"a\"run print!\"\"\n¦output 2 0¦Done¦a¦¶\
run --bare F¦F run print!\"ab\" run print!\"cd\"¦output 2 1¦WriteFault¦abc¦¶\
run --bare F¦F run print!\"hello\"¦shelf 1¦ReadFault¦¦F: cannot be read\n¶\
run --bare F¦F run print!\"hello\"¦shelf 1,errors 1 3¦WriteFault¦¦F: ¶\
run --bare F¦F run print!¦errors 1 3¦WriteFault¦¦F:1¶\
run --bare --fuel 2 F¦F run print!\"hello\"¦errors 1 4¦WriteFault¦hello¦fuel¶\
picked --bare 42 F¦F run (print!\"a\" | print!\"b\")¦output 2 2¦WriteFault¦0 0\n1 ¦¶\
picked --bare 42 F¦F run (print!\"a\" | print!\"b\")¦output 6 1¦WriteFault¦0 0\n1 0\n0 0\n1 0\n0 0\nt¦¶\
picked --bare 42 F¦F run (print!\"a\" | print!\"b\")¦output 7 0¦WriteFault¦0 0\n1 0\n0 0\n1 0\n0 0\ntrace\n¦¶\
picked --bare 42 F¦F run div![1 0 printi]¦shelf 1¦ReadFault¦¦F: cannot be read\n¶\
run F¦¦output 1 1¦WriteFault¦t¦¶\
run F¦¦output 2 1¦WriteFault¦total 6¦¶\
run F¦¦output 3 1¦Done¦total 6¦¶\
load 42¦F run print!\"hello\"¦shelf 1¦Done¦\
ring 183 13097\nring 124 19955\nring 155 11566\ntext 35553\nsteps 536830\ncommunications 133860\nprinted 3\nend done\n¦¶\
load 0¦F run print!\"hello\"¦shelf 1¦Done¦\
ring 151 13783\nring 194 19462\nring 135 18317\ntext 36975\nsteps 620212\ncommunications 154692\nprinted 3\nend done\n¦¶\
load 18446744073709551615¦F run print!\"hello\"¦shelf 1¦Done¦\
ring 131 15298\nring 126 12769\nring 108 14464\ntext 27890\nsteps 511495\ncommunications 127599\nprinted 3\nend done\n¦¶\
run --bare F¦F import \"L\" import \"M\"§L run print!\"l\"§M ¦shelf 1¦ReadFault¦¦F: cannot be read\n¶\
run --bare F¦F import \"L\" import \"M\"§L run print!\"l\"§M ¦shelf 2¦ReadFault¦¦L: cannot be read\n¶\
run --bare F¦F import \"L\" import \"M\"§L run print!\"l\"§M ¦shelf 3¦ReadFault¦¦M: cannot be read\n¶\
run --bare F¦F import \"L\" import \"M\"§L run print!\"l\"§M ¦shelf 4¦Done¦l¦¶\
exec O¦O PICT\x01\0\0\0\0\x01\x03\x16\0\x15\0\0\0\x05hello\0¦shelf 1¦ReadFault¦¦O: cannot be read\n¶\
exec O¦O PICT\x01\0\0\0\0\x01\x03\x16\0\x15\0\0\0\x05hello\0¦output 1 2¦WriteFault¦he¦¶\
build --bare F¦F run print!\"hello\"¦output 1 4¦WriteFault¦PICT¦¶\
replay --bare F T¦F run (print!\"a\" | print!\"b\")¦shelf 2¦ReadFault¦¦T: cannot be read\n¶\
replay --bare F T¦F run (print!\"a\" | print!\"b\")¦shelf 1¦ReadFault¦¦F: cannot be read\n¶\
replay --bare F T¦F run (print!\"a\" | print!\"b\")§T 0 0\n1 0\n0 0\n1 0\n0 0\ntrace\n4 print \"b\"\n5 print \"a\"\n¦output 1 2¦WriteFault¦ye¦¶\
sites --bare 2 42 F¦F run (print!\"ab\" | print!\"ab\")¦output 2 1¦WriteFault¦aba¦";

/// A sink that is full within the counter server's first write.
const FULL: &str = "run F¦¦¦WriteFault¦tot¦";

/// A column of a row.
fn column(row: &str, place: usize) -> &str {
    row.split('¦').nth(place).unwrap_or("")
}

/// A number in decimal.
fn number(digits: &str) -> u64 {
    digits.parse().unwrap_or(0)
}

/// Files.
fn entries_of(alloc: Global, files: &str) -> Result<Vec<Entry>, AllocError> {
    let files = if files.is_empty() { SERVER } else { files };
    let mut entries = Vec::new(alloc);
    for file in files.split('§') {
        let (name, text) = file.split_once(' ').unwrap_or((file, ""));
        let name = name.as_bytes().to_vec(alloc)?;
        let text = text.as_bytes().to_vec(alloc)?;
        entries.push(Entry { name, text })?;
    }
    Ok(entries)
}

/// The failures whose kind begins so.
fn fails_of(alloc: Global, failures: &str, kind: &str) -> Result<Vec<Fail>, AllocError> {
    let mut fails = Vec::new(alloc);
    for failure in failures.split(',') {
        if let Some(fail) = failure.strip_prefix(kind) {
            let (call, takes) = fail.split_once(' ').unwrap_or((fail, ""));
            fails.push(Fail {
                call: number(call),
                takes: number(takes),
            })?;
        }
    }
    Ok(fails)
}

/// A shelf with the files of a row, some of whose calls fail.
fn shelf_of(alloc: Global, row: &str) -> Result<MemoryShelf, AllocError> {
    let mut fails = Vec::new(alloc);
    for fail in &fails_of(alloc, column(row, 2), "shelf ")? {
        fails.push(fail.call)?;
    }
    Ok(MemoryShelf::new(entries_of(alloc, column(row, 1))?, fails))
}

/// The words of a row.
fn words_of<'a>(alloc: Global, row: &'a str) -> Result<Vec<&'a str>, AllocError> {
    let mut words = Vec::new(alloc);
    for word in column(row, 0).split(' ') {
        words.push(word)?;
    }
    Ok(words)
}

/// Whether the call of a row, with an output of this capacity, comes to what stands there.
fn comes_to(alloc: Global, row: &str, capacity: u64) -> Result<bool, AllocError> {
    let mut shelf = shelf_of(alloc, row)?;
    let mut out = MemorySink::new(alloc, capacity, fails_of(alloc, column(row, 2), "output ")?)?;
    let mut err = MemorySink::new(alloc, 1000, fails_of(alloc, column(row, 2), "errors ")?)?;
    let words = words_of(alloc, row)?;
    let status = pict(alloc, &words, &mut shelf, &mut out, &mut err);
    Ok(
        format!(in alloc; "{status:?}")?.as_str() == column(row, 3)
            && out.taken() == column(row, 4).as_bytes()
            && err.taken() == column(row, 5).as_bytes(),
    )
}

/// The first row that comes to something else.
fn wrong_row(alloc: Global) -> Result<Option<&'static str>, AllocError> {
    for row in ROWS.split('¶') {
        if !comes_to(alloc, row, 100_000)? {
            return Ok(Some(row));
        }
    }
    Ok(None)
}

#[test]
fn devices_fail(rt: HostRuntime) -> Result<(), AllocError> {
    if let Some(row) = wrong_row(rt.alloc())? {
        panic!(rt; "{row}");
    }
    assert!(rt; comes_to(rt.alloc(), FULL, 3)?);
    Ok(())
}

/// Whether a run over a shelf of one text, which is asked for others so often, ends so.
fn ends(
    alloc: Global,
    text: &[u8],
    misses: u64,
    wanted: Status,
    printed: &[u8],
    reported: &[u8],
) -> Result<bool, AllocError> {
    let mut shelf = OneShelf::new(alloc, "F", text.to_vec(alloc)?)?;
    let mut out = MemorySink::new(alloc, 100, Vec::new(alloc))?;
    let mut err = MemorySink::new(alloc, 100, Vec::new(alloc))?;
    let status = pict(
        alloc,
        &["run", "--bare", "F"],
        &mut shelf,
        &mut out,
        &mut err,
    );
    Ok(
        status == wanted
            && shelf.misses == misses
            && out.taken() == printed
            && err.taken() == reported,
    )
}

/// A shelf of one text has no other.
#[test]
fn one_text(rt: HostRuntime) -> Result<(), AllocError> {
    let alloc = rt.alloc();
    let refused = b"F:1:8: I1 no such text\n";
    assert!(rt; ends(alloc, b"import \"L\"", 1, Status::Refused, b"", refused)?);
    assert!(rt; ends(alloc, b"run print!\"f\"", 0, Status::Done, b"f", b"")?);
    Ok(())
}
