// Objects and what is nearly one, byte by byte.

use crate::answers::wrong_rows;
use std::alloc::AllocError;

/// Whole objects, their heads, and what stands behind them.
const WHOLE: &str = r#"
-- print!"hello" beside nothing; without its last byte; with a byte more
object | 50 49 43 54 01  00 00 00 00  01 03 16 00 15 00 00 00 05 68 65 6c 6c 6f 00
none | 50 49 43 54 01  00 00 00 00  01 03 16 00 15 00 00 00 05 68 65 6c 6c 6f
none | 50 49 43 54 01  00 00 00 00  01 03 16 00 15 00 00 00 05 68 65 6c 6c 6f 00 00
-- nothing; the beginning of a head; another version; another first byte
none | -
none | 50 49 43 54
none | 50 49 43 54 02  00 00 00 00  00
none | 51 49 43 54 01  00 00 00 00  00
"#;

/// Behind the five bytes with which each object begins: labels, and a process.
const BEHIND: &str = r#"
-- the empty process; no process; a form of process that there isn't
object | 00 00 00 00  00
none | 00 00 00 00
none | 00 00 00 00  07
-- counts with nothing behind them: of labels, of a label's bytes, of a string's, of values, of labelled values, and of patterns
none | ff ff ff ff
none | 00 00 00 01 ff ff ff ff
none | 00 00 00 00  03 16 00 15 ff ff ff ff
none | 00 00 00 00  03 16 00 17 ff ff ff ff
none | 00 00 00 00  03 16 00 17 00 00 00 00 ff ff ff ff
none | 00 00 00 00  04 16 00 22 ff ff ff ff
none | 00 00 00 00  04 16 00 22 00 00 00 00 ff ff ff ff
-- print![a=false]; with the label unused; without its label; with the place of a second label
object | 00 00 00 01 00 00 00 01 61  03 16 00 17 00 00 00 00 00 00 00 01 00 00 00 00 13
none | 00 00 00 01 00 00 00 01 61  03 16 00 13
none | 00 00 00 00  03 16 00 17 00 00 00 00 00 00 00 01 00 00 00 00 13
none | 00 00 00 01 00 00 00 01 61  03 16 00 17 00 00 00 00 00 00 00 01 00 00 00 01 13
-- labels that are no identifiers: an empty one, a symbol name, a number, the keywords `if` and `new`; and one that is
none | 00 00 00 01 00 00 00 00  03 16 00 17 00 00 00 00 00 00 00 01 00 00 00 00 13
none | 00 00 00 01 00 00 00 01 2b  03 16 00 17 00 00 00 00 00 00 00 01 00 00 00 00 13
none | 00 00 00 01 00 00 00 01 37  03 16 00 17 00 00 00 00 00 00 00 01 00 00 00 00 13
none | 00 00 00 01 00 00 00 02 69 66  03 16 00 17 00 00 00 00 00 00 00 01 00 00 00 00 13
none | 00 00 00 01 00 00 00 03 6e 65 77  03 16 00 17 00 00 00 00 00 00 00 01 00 00 00 00 13
object | 00 00 00 01 00 00 00 03 61 37 5f  03 16 00 17 00 00 00 00 00 00 00 01 00 00 00 00 13
-- print![a=false b=true]; labels in the other order; one twice; fields in the other order; a field twice
object | 00 00 00 02 00 00 00 01 61 00 00 00 01 62  03 16 00 17 00 00 00 00 00 00 00 02 00 00 00 00 13 00 00 00 01 14
none | 00 00 00 02 00 00 00 01 62 00 00 00 01 61  03 16 00 17 00 00 00 00 00 00 00 02 00 00 00 00 13 00 00 00 01 14
none | 00 00 00 02 00 00 00 01 61 00 00 00 01 61  03 16 00 17 00 00 00 00 00 00 00 02 00 00 00 00 13 00 00 00 01 14
none | 00 00 00 02 00 00 00 01 61 00 00 00 01 62  03 16 00 17 00 00 00 00 00 00 00 02 00 00 00 01 13 00 00 00 00 14
none | 00 00 00 01 00 00 00 01 61  03 16 00 17 00 00 00 00 00 00 00 02 00 00 00 00 13 00 00 00 00 14
-- the last primitive, and one behind it
object | 00 00 00 00  03 16 13 14
none | 00 00 00 00  03 16 14 14
-- new x x!'a'; with a level of no variable; without the channel; and a level at 2 to the power 32
object | 00 00 00 00  02 03 10 00 00 00 00 12 61
none | 00 00 00 00  02 03 10 00 00 00 01 12 61
none | 00 00 00 00  03 10 00 00 00 00 12 61
none | 00 00 00 00  02 03 10 ff ff ff ff 12 61
-- new x x?*[y _] = x!y, where y is in scope in the body alone; with a level of no variable; beside the reader
object | 00 00 00 00  02 05 10 00 00 00 00 22 00 00 00 02 20 21 00 00 00 00 03 10 00 00 00 00 10 00 00 00 01
none | 00 00 00 00  02 05 10 00 00 00 00 22 00 00 00 02 20 21 00 00 00 00 03 10 00 00 00 00 10 00 00 00 02
none | 00 00 00 00  02 01 05 10 00 00 00 00 22 00 00 00 02 20 21 00 00 00 00 00 03 10 00 00 00 00 10 00 00 00 01
-- new x x?[a=y] = 0, where the label stands in a pattern alone; with the label twice
object | 00 00 00 01 00 00 00 01 61  02 04 10 00 00 00 00 22 00 00 00 00 00 00 00 01 00 00 00 00 20 00
none | 00 00 00 01 00 00 00 01 61  02 04 10 00 00 00 00 22 00 00 00 00 00 00 00 02 00 00 00 00 20 00 00 00 00 20 00
-- if true printi!-1 printi!-2; without its second branch
object | 00 00 00 00  06 14 03 16 01 11 ff ff ff ff ff ff ff ff 03 16 01 11 ff ff ff ff ff ff ff fe
none | 00 00 00 00  06 14 03 16 01 11 ff ff ff ff ff ff ff ff
-- a value, a pattern and the tag of a channel that there isn't
none | 00 00 00 00  03 16 00 18
none | 00 00 00 00  04 16 00 23 00
none | 00 00 00 00  03 0f 00 00 00 00 13
-- parts cut short: a number, a level, a string by its count, a record by one value
none | 00 00 00 00  03 16 01 11 00 00 00 00 00 00 00
none | 00 00 00 00  02 03 10 00 00 00
none | 00 00 00 00  03 16 00 15 00 00 00 02 61
none | 00 00 00 00  03 16 00 17 00 00 00 02 13
"#;

#[test]
fn objects_and_others(rt: HostRuntime) -> Result<(), AllocError> {
    let wrong = wrong_rows(rt.alloc(), b"", WHOLE)?;
    assert!(rt; wrong.is_empty(), "{wrong}");
    let wrong = wrong_rows(rt.alloc(), b"PICT\x01", BEHIND)?;
    assert!(rt; wrong.is_empty(), "{wrong}");
    Ok(())
}
