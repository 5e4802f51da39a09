// Runs through the call.
use crate::{Cut, Lengths, pict_web_call, pict_web_orders, pict_web_reasons, pict_web_steps};
use std::alloc::Global;
use std::test::Fail;

// What a command prints of two texts, within these bytes.
fn answered<'a>(
    alloc: Global,
    command: u8,
    seed: u64,
    texts: &[u8],
    cuts: &[Cut],
    out: &'a mut [u8],
) -> (u8, &'a [u8]) {
    let mut err = [0u8; 100];
    let mut lengths = Lengths {
        printed: 0,
        reported: 0,
    };
    let status = pict_web_call(
        alloc,
        command,
        true,
        100,
        seed,
        2,
        texts,
        cuts,
        out,
        &mut err,
        &mut lengths,
    );
    (status, &out[..lengths.printed as usize])
}

#[test]
fn programs_are_run(rt: HostRuntime) -> Result<(), Fail> {
    let alloc = rt.alloc();
    let texts = b"main.piimport \"a\" run say![\"i\"]adef say [s:String] = print!(+$ \"h\" s)";
    let cuts = [Cut { name: 7, text: 24 }, Cut { name: 1, text: 100 }];
    let mut out = [0u8; 300];
    assert!(rt; answered(alloc, 0, 0, texts, &cuts, &mut out) == (0, b"hi".as_slice()));
    let texts = b"main.pirun (print!\"a\" | print!\"b\")";
    let cuts = [Cut { name: 7, text: 27 }];
    assert!(rt; answered(alloc, 0, 0, texts, &cuts, &mut out) == (0, b"ab".as_slice()));
    assert!(rt; answered(alloc, 3, 42, texts, &cuts, &mut out) == (0, b"ba".as_slice()));
    let (status, printed) = answered(alloc, 5, 42, texts, &cuts, &mut out);
    assert!(rt; status == 0 && printed.len() == 2);
    Ok(())
}

const LINES: &[u8] = b"come\t0\tready\tP | Q\t..1:5
step\t1\t0\tforks\t\t
come\t0\tready\tprint!\"hi\"\t1:5
come\t1\tready\t0\t
step\t2\t0\tprimitive_ends\t\tprints \"hi\"
step\t3\t1\tends\t\t
end\tfinished
";

#[test]
fn steps_are_told(rt: HostRuntime) -> Result<(), Fail> {
    let cuts = [Cut { name: 7, text: 14 }];
    let mut out = [0u8; 300];
    let mut lengths = Lengths {
        printed: 0,
        reported: 0,
    };
    let texts = b"main.pirun print!\"hi\"";
    let told = pict_web_steps(rt.alloc(), true, texts, &cuts, &mut out, &mut lengths);
    assert!(rt; told == 0 && lengths.reported == 0);
    assert!(rt; &out[..lengths.printed as usize] == LINES);
    Ok(())
}

const REFUSED: &[u8] = b"     1 | new c:Int
       |       ^
  perhaps: `^` makes a channel on which one may send and receive: `new c:^T`
";

const IN_VAIN: &[u8] = b"These messages were never received, and nobody ever read there:
";

#[test]
fn reasons_are_told(rt: HostRuntime) -> Result<(), Fail> {
    let cuts = [Cut { name: 7, text: 100 }];
    let mut out = [0u8; 300];
    let mut lengths = Lengths {
        printed: 0,
        reported: 0,
    };
    let texts = b"main.pinew c:Int\nrun c!1\n";
    let told = pict_web_reasons(rt.alloc(), true, texts, &cuts, &mut out, &mut lengths);
    assert!(rt; told == 1 && &out[..lengths.printed as usize] == REFUSED);
    let texts = b"main.pinew c:^Int\nrun c!1\n";
    let told = pict_web_reasons(rt.alloc(), true, texts, &cuts, &mut out, &mut lengths);
    assert!(rt; told == 0 && out[..lengths.printed as usize].starts_with(IN_VAIN));
    Ok(())
}

// What is told of all orders of a race.
fn ordered<'a>(alloc: Global, what: u8, outcome: u64, out: &'a mut [u8]) -> (u8, &'a [u8]) {
    let texts = b"main.pirun (print!\"a\" | print!\"b\")";
    let cuts = [Cut { name: 7, text: 100 }];
    let mut lengths = Lengths {
        printed: 0,
        reported: 0,
    };
    let told = pict_web_orders(
        alloc,
        what,
        true,
        100,
        outcome,
        texts,
        &cuts,
        out,
        &mut lengths,
    );
    (told, &out[..lengths.printed as usize])
}

#[test]
fn orders_are_told(rt: HostRuntime) -> Result<(), Fail> {
    let alloc = rt.alloc();
    let mut out = [0u8; 1000];
    let (status, told) = ordered(alloc, 0, 0, &mut out);
    assert!(rt; status == 0 && told.ends_with(b"nobody waits\n"));
    let (status, told) = ordered(alloc, 2, 0, &mut out);
    assert!(rt; status == 0 && told.starts_with(b"digraph {\n"));
    assert!(rt; ordered(alloc, 1, 3, &mut out) == (0, b"".as_slice()));
    let (status, told) = ordered(alloc, 1, 1, &mut out);
    assert!(rt; status == 0 && !told.is_empty());
    Ok(())
}
