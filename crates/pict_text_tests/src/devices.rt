// Shelves and sinks in memory by a table, and the folder shelf and the stream sink over real files.
ghost use Rattle.std.specs.Prelude.{◌<◌, ◌≤◌, ◌^◌};

use pict_outside::{
    Entry, Fail, Fetched, FolderShelf, MemoryShelf, MemorySink, Shelf, ShelfError, Sink, StreamSink,
};
use std::alloc::{AllocError, Global};
use std::fs;
use std::test::Fail as Failure;

/// Whether this text was fetched.
fn is_text(fetched: Result<Fetched, ShelfError>, text: &[u8]) -> bool {
    match fetched {
        Ok(Fetched::Text(bytes)) => bytes.as_slice() == text,
        _ => false,
    }
}

/// Whether a shelf fails where this text is asked for.
fn fails<S: Shelf>(shelf: &mut S, alloc: Global, name: &str, limit: u64) -> bool
    requires { limit < 2 ^ 32 }
{
    shelf.fetch(alloc, name, limit) == Err(ShelfError::Failed)
}

/// Whether a shelf lacks this text.
fn lacks<S: Shelf>(shelf: &mut S, alloc: Global, name: &str, limit: u64) -> bool
    requires { limit < 2 ^ 32 }
{
    shelf.fetch(alloc, name, limit) == Ok(Fetched::Missing)
}

/// Whether a shelf gives this text where so many bytes are allowed, and says where fewer are how many it has.
fn gives<S: Shelf>(shelf: &mut S, alloc: Global, name: &str, text: &[u8], length: u64) -> bool
    requires some { 1 ≤ length }
    requires limit { length < 2 ^ 32 }
{
    is_text(shelf.fetch(alloc, name, length), text)
        && shelf.fetch(alloc, name, length - 1) == Ok(Fetched::TooLong(length))
}

/// Whether a sink takes a text line by line, and then a line of no bytes.
fn takes<S: Sink>(sink: &mut S, text: &[u8]) -> bool {
    for line in text.chunks(1024) {
        if sink.write(line).is_err() {
            return false;
        }
    }
    sink.write(b"").is_ok()
}

/// Whether a shelf fails where it was told.
fn does_shelf_fail(alloc: Global) -> Result<bool, AllocError> {
    let entry = Entry {
        name: b"F".to_vec(alloc)?,
        text: b"text".to_vec(alloc)?,
    };
    let mut shelf = MemoryShelf::new(vec![in alloc; entry]?, vec![in alloc; 2]?);
    Ok(
        is_text(shelf.fetch(alloc, "F", 4), b"text")
            && fails(&mut shelf, alloc, "F", 4)
            && shelf.fetch(alloc, "F", 3) == Ok(Fetched::TooLong(4))
            && lacks(&mut shelf, alloc, "G", 4),
    )
}

/// Whether a sink fails where it was told and where it is full.
fn does_sink_fail(alloc: Global) -> Result<bool, AllocError> {
    let fails = vec![in alloc; Fail { call: 2, takes: 1 }, Fail { call: 3, takes: 9 }]?;
    let mut sink = MemorySink::new(alloc, 7, fails)?;
    Ok(
        sink.write(b"ab").is_ok()
            && sink.write(b"cd").is_err()
            && sink.write(b"ef").is_err()
            && sink.write(b"gh").is_ok()
            && sink.taken() == b"abcefgh".as_slice()
            && sink.write(b"i").is_err()
            && sink.taken() == b"abcefgh".as_slice(),
    )
}

#[test]
fn devices_in_memory_fail_where_they_were_told(rt: HostRuntime) -> Result<(), AllocError> {
    assert!(rt; does_shelf_fail(rt.alloc())?);
    assert!(rt; does_sink_fail(rt.alloc())?);
    Ok(())
}

/// The bytes of a text at the limit that the top call asks for.
fn longest(alloc: Global) -> Result<Vec<u8>, AllocError> {
    vec![in alloc; b'x'; 1_048_576]
}

// The limit that the top call asks for, and a text of just so many bytes: it takes many reads.
#[test]
fn a_folder_shelf_reads_what_a_stream_sink_wrote(rt: HostRuntime) -> Result<(), Failure> {
    let alloc = rt.alloc();
    let whole = longest(alloc)?;
    let mut sink = StreamSink::new(fs::create(&rt, "long")?);
    assert!(rt; takes(&mut sink, &whole));
    let mut shelf = FolderShelf::new(&rt);
    assert!(rt; gives(&mut shelf, alloc, "long", &whole, 1_048_576));
    Ok(())
}

#[test]
fn a_folder_shelf_lacks_and_fails(rt: HostRuntime) -> Result<(), Failure> {
    let alloc = rt.alloc();
    fs::write(&rt, "long", "x")?;
    fs::create_dir(&rt, "folder")?;
    let mut shelf = FolderShelf::new(&rt);
    assert!(rt; fails(&mut shelf, alloc, "folder", 9));
    assert!(rt; fails(&mut shelf, alloc, "long/x", 9));
    assert!(rt; lacks(&mut shelf, alloc, "none", 9));
    assert!(rt; lacks(&mut shelf, alloc, "folder/none", 9));
    Ok(())
}

// A file that was opened to be read takes nothing.
#[test]
fn a_stream_sink_fails_where_its_stream_fails(rt: HostRuntime) -> Result<(), Failure> {
    fs::write(&rt, "closed", "ab")?;
    let mut sink = StreamSink::new(fs::open(&rt, "closed")?);
    assert!(rt; sink.write(b"cd").is_err());
    assert!(rt; fs::read_to_string(&rt, "closed")?.as_str() == "ab");
    Ok(())
}
