//! The command for a host that isn't Rattle: one call over texts and two buffers in memory; and what is told beside it: the steps of a
//! run, the reasons of a refusal or of an end, and all orders.
#![tactic(auto)]

mod handing;
mod held;
mod orders;
mod reasons;
mod steps;
#[cfg(test)]
mod tests;

ghost use Rattle.std.specs.Prelude.{◌≡◌, ◌≤◌, IfOk, length, take, drop};
ghost use Rattle.std.specs.Fmt.{decimal};
ghost use Rattle.pict_outside.specs.Entries.{pairs_of};
ghost use Rattle.pict_outside.specs.Texts.{texts_of as held_texts};
ghost use Rattle.pict_words.specs.Plain.{texts_of};
ghost use Rattle.pict_web.specs.Asked.{words_for, texts_cut};
ghost use Rattle.pict_web.specs.Delivered.{IsDelivered, IsInBuffers, IsAnswered};

use held::{Bundle, Page};
use itoa::Buffer;
pub use orders::pict_web_orders;
use pict_outside::Entry;
use pict_top::{Status, pict};
pub use reasons::pict_web_reasons;
use std::alloc::{AllocError, Global};
pub use steps::pict_web_steps;

/// How many bytes at the beginning of each of the two buffers a call has written.
#[repr(C)]
#[derive(Clone, Copy, Debug)]
pub struct Lengths {
    pub printed: u64,
    pub reported: u64,
}

/// How many bytes the name of a text has, and how many the text itself.
#[repr(C)]
#[derive(Clone, Copy, Debug)]
pub struct Cut {
    pub name: u64,
    pub text: u64,
}

/// How the command ended, and the pages that it wrote on.
#[derive(Drop)]
struct Ended {
    status: Status,
    printed: Page,
    reported: Page,
}

/// Runs (0), traces (1), checks (2), picks (3), writes what is picked (4), runs on sites (5) or lists the code of (any other `command`)
/// the text `main.pi`, as the command of that word does with a file of this name, and answers the number of the status. `texts` has
/// the names and the texts that there are, one name and one text behind the other, and `cuts` how long each is; the first of a name
/// counts. What is written on the output goes to the beginning of `out`, what is reported to that of `err`. `fuel` counts where
/// the command runs the text, `seed` where it picks or runs on sites, and `sites` where it runs on as many. Where the output has more
/// bytes than `out`, the status is that of a sink that failed, and `out` has a beginning of them; that status comes only where `out` or
/// `err` is full. No status says that a reading failed.
#[tactic(auto, using(crate::proofs::Delivering::answered))]
#[unsafe(no_mangle)]
pub extern "C" fn pict_web_call(
    alloc: Global,
    command: u8,
    bare: bool,
    fuel: u64,
    seed: u64,
    sites: u64,
    texts: &[u8],
    cuts: &[Cut],
    out: &mut [u8],
    err: &mut [u8],
    lengths: &mut Lengths,
) -> u8
    ensures out_length { length out.new ≡ length out.old }
    ensures err_length { length err.new ≡ length err.old }
    ensures printed_fits { lengths.new.printed ≤ length out.new }
    ensures reported_fits { lengths.new.reported ≤ length err.new }
    ensures answered { IsAnswered (words_for command bare (decimal fuel) (decimal seed) (decimal sites)) (held_texts (texts_cut cuts.now texts.now))
        result out.new lengths.new.printed err.new lengths.new.reported }
{
    match call(
        alloc, command, bare, fuel, seed, sites, texts, cuts, out, err, lengths,
    ) {
        Ok(status) => status.number(),
        Err(AllocError) => {
            *lengths = Lengths {
                printed: 0,
                reported: 0,
            };
            Status::Memory.number()
        }
    }
}

/// The same but for the number of the status. The error is want of memory, and says nothing of the buffers.
#[tactic(auto, using(crate::proofs::Delivering::moved))]
fn call(
    alloc: Global,
    command: u8,
    bare: bool,
    fuel: u64,
    seed: u64,
    sites: u64,
    texts: &[u8],
    cuts: &[Cut],
    out: &mut [u8],
    err: &mut [u8],
    lengths: &mut Lengths,
) -> Result<Status, AllocError>
    ensures out_length { length out.new ≡ length out.old }
    ensures err_length { length err.new ≡ length err.old }
    ensures printed_fits { IfOk result (λ _. lengths.new.printed ≤ length out.new) }
    ensures reported_fits { IfOk result (λ _. lengths.new.reported ≤ length err.new) }
    ensures answered { IfOk result (λ status. IsInBuffers (words_for command bare (decimal fuel) (decimal seed) (decimal sites))
        (held_texts (texts_cut cuts.now texts.now)) status out.new lengths.new.printed err.new lengths.new.reported) }
{
    let room = out.len() as u64;
    let report_room = err.len() as u64;
    let ended = asked(
        alloc,
        command,
        bare,
        fuel,
        seed,
        sites,
        texts,
        cuts,
        room,
        report_room,
    )?;
    let printed = ended.printed.taken();
    let reported = ended.reported.taken();
    if out.len() < printed.len() || err.len() < reported.len() {
        return Err(AllocError);
    }
    put(printed, out);
    put(reported, err);
    *lengths = Lengths {
        printed: printed.len() as u64,
        reported: reported.len() as u64,
    };
    Ok(ended.status)
}

/// The command with its words over the texts, on two pages with so much room.
fn asked(
    alloc: Global,
    command: u8,
    bare: bool,
    fuel: u64,
    seed: u64,
    sites: u64,
    texts: &[u8],
    cuts: &[Cut],
    room: u64,
    report_room: u64,
) -> Result<Ended, AllocError>
    ensures { IfOk result (λ ended. IsDelivered (words_for command bare (decimal fuel) (decimal seed) (decimal sites))
        (held_texts (texts_cut cuts.now texts.now)) ended.status room ended.printed.taken report_room ended.reported.taken) }
{
    let mut digits = Buffer::new();
    let mut seed_digits = Buffer::new();
    let mut site_digits = Buffer::new();
    let fuel = digits.format(fuel);
    let seed = seed_digits.format(seed);
    let words = words_of(alloc, command, bare, fuel, seed, site_digits.format(sites))?;
    let entries = entries_of(alloc, texts, cuts)?;
    over(alloc, &words, entries, room, report_room)
}

/// The words of the command, with this number of steps, this seed and this number of sites.
fn words_of<'a>(
    alloc: Global,
    command: u8,
    bare: bool,
    fuel: &'a str,
    seed: &'a str,
    sites: &'a str,
) -> Result<Vec<&'a str>, AllocError>
    ensures { IfOk result (λ words. texts_of words.items ≡ words_for command bare fuel.now seed.now sites.now) }
{
    match (command, bare) {
        (0, true) => Ok(vec![in alloc; "run", "--bare", "--fuel", fuel, "main.pi"]?),
        (0, false) => Ok(vec![in alloc; "run", "--fuel", fuel, "main.pi"]?),
        (1, true) => Ok(vec![in alloc; "trace", "--bare", "--fuel", fuel, "main.pi"]?),
        (1, false) => Ok(vec![in alloc; "trace", "--fuel", fuel, "main.pi"]?),
        (2, true) => Ok(vec![in alloc; "check", "--bare", "main.pi"]?),
        (2, false) => Ok(vec![in alloc; "check", "main.pi"]?),
        (3, true) => Ok(vec![in alloc; "pick", "--bare", "--fuel", fuel, seed, "main.pi"]?),
        (3, false) => Ok(vec![in alloc; "pick", "--fuel", fuel, seed, "main.pi"]?),
        (4, true) => Ok(vec![in alloc; "picked", "--bare", "--fuel", fuel, seed, "main.pi"]?),
        (4, false) => Ok(vec![in alloc; "picked", "--fuel", fuel, seed, "main.pi"]?),
        (5, true) => Ok(vec![in alloc; "sites", "--bare", "--fuel", fuel, sites, seed, "main.pi"]?),
        (5, false) => Ok(vec![in alloc; "sites", "--fuel", fuel, sites, seed, "main.pi"]?),
        (_, true) => Ok(vec![in alloc; "code", "--bare", "main.pi"]?),
        (_, false) => Ok(vec![in alloc; "code", "main.pi"]?),
    }
}

/// The texts by their names, each as long as its cut says, or as far as there are bytes.
pub(crate) fn entries_of(
    alloc: Global,
    texts: &[u8],
    cuts: &[Cut],
) -> Result<Vec<Entry>, AllocError>
    ensures { IfOk result (λ entries. pairs_of entries.items ≡ texts_cut cuts.now texts.now) }
{
    let mut entries = Vec::new(alloc);
    let mut rest = texts;
    for cut in cuts {
        let (name, behind) = cut_off(rest, cut.name);
        let (text, left) = cut_off(behind, cut.text);
        entries.push(entry(alloc, name, text)?)?;
        rest = left;
    }
    Ok(entries)
}

/// A text under its name.
fn entry(alloc: Global, name: &[u8], text: &[u8]) -> Result<Entry, AllocError>
    ensures name { IfOk result (λ it. it.name.items ≡ name.now) }
    ensures text { IfOk result (λ it. it.text.items ≡ text.now) }
{
    Ok(Entry {
        name: Vec::from_slice(alloc, name)?,
        text: Vec::from_slice(alloc, text)?,
    })
}

/// The first bytes, so many, or all where there are fewer, and those behind.
fn cut_off(bytes: &[u8], count: u64) -> (&[u8], &[u8])
    ensures first { result.0.now ≡ take count bytes.now }
    ensures rest { result.1.now ≡ drop count bytes.now }
{
    if count < bytes.len() as u64 {
        bytes.split_at(count as usize)
    } else {
        (bytes, &[])
    }
}

/// The top call with these words over these texts, on two pages with so much room.
fn over(
    alloc: Global,
    words: &[&str],
    entries: Vec<Entry>,
    room: u64,
    report_room: u64,
) -> Result<Ended, AllocError>
    ensures { IfOk result (λ ended. IsDelivered (texts_of words.now) (held_texts (pairs_of entries.items))
        ended.status room ended.printed.taken report_room ended.reported.taken) }
{
    let mut shelf = Bundle::new(alloc, entries);
    let mut printed = Page::new(alloc, room)?;
    let mut reported = Page::new(alloc, report_room)?;
    let status = pict(alloc, words, &mut shelf, &mut printed, &mut reported);
    // (so far as the call says a sink may become any other)
    if !printed.has_room(room) {
        return Err(AllocError);
    }
    if !reported.has_room(report_room) {
        return Err(AllocError);
    }
    Ok(Ended {
        status,
        printed,
        reported,
    })
}

/// Copies the bytes to the beginning of `to`.
pub(crate) fn put(bytes: &[u8], to: &mut [u8])
    requires fits { length bytes.now ≤ length to.old }
    ensures length { length to.new ≡ length to.old }
    ensures copied { take (length bytes.now) to.new ≡ bytes.now }
{
    to[..bytes.len()].copy_from_slice(bytes);
}
