//! Runs each example of the folder `examples`, and writes its name, what it prints, what is reported and the number of its
//! status. Then builds the object of each, runs that, and writes how many come to what their programs come to; runs each on one
//! site, and on several, and writes how many come to the same there, and how many to an end that a run may have; and writes the
//! names of those whose code has other nodes than their texts tell.
#![tactic(auto)]

mod alike;
mod nodes;

use alike::{is_alike, is_right, is_same};
use anyhow::Error;
use nodes::have_places;
use pict_outside::{FolderShelf, StreamSink};
use pict_top::{pict, prelude};

/// The examples that stand alone, in the order of their index.
const EXAMPLES: [&str; 33] = [
    "hello.pi",
    "message.pi",
    "server.pi",
    "acknowledge.pi",
    "turns.pi",
    "forever.pi",
    "answer.pi",
    "handover.pi",
    "rights.pi",
    "session.pi",
    "account.pi",
    "lock.pi",
    "buffer.pi",
    "one_place.pi",
    "race.pi",
    "lost.pi",
    "deadlock.pi",
    "in_order.pi",
    "philosophers.pi",
    "table.pi",
    "future.pi",
    "fib.pi",
    "ring.pi",
    "chain.pi",
    "tree.pi",
    "sieve.pi",
    "truth.pi",
    "numerals.pi",
    "list.pi",
    "queue.pi",
    "lambda.pi",
    "package.pi",
    "source.pi",
];

/// The examples that use the prelude; the last four import modules of `lib`.
const WITH_PRELUDE: [&str; 6] = [
    "counter.pi",
    "broadcast.pi",
    "words.pi",
    "workers.pi",
    "bank.pi",
    "diamond.pi",
];

/// The example that runs without end.
const WITHOUT_END: &str = "forever.pi";

/// How many sites an example is run on, beside one.
const SITES: [&str; 3] = ["2", "5", "64"];

/// The seed by which the events of sites are chosen.
const SEED: &str = "42";

/// The fuel of an example that ends.
const MUCH: &str = "100000";

/// The fuel of an example.
fn fuel_of(name: &str) -> &'static str {
    if name == WITHOUT_END { "100" } else { MUCH }
}

fn run_example(rt: &HostRuntime, name: &str, words: &[&str]) -> Result<(), Error> {
    println!(rt; "{name}")?;
    let mut shelf = FolderShelf::new(rt);
    let mut out = StreamSink::new(rt.stdout());
    let mut err = StreamSink::new(rt.stdout());
    let status = pict(rt.alloc(), words, &mut shelf, &mut out, &mut err).number();
    println!(rt; "\nstatus {status}")?;
    Ok(())
}

/// Writes how many examples are run as objects as they are as programs, and the names of the others.
fn compare(rt: &HostRuntime) -> Result<(), Error> {
    let mut shelf = FolderShelf::new(rt);
    let mut alike: u64 = 0;
    for name in EXAMPLES {
        let fuel = fuel_of(name);
        let run = ["run", "--bare", "--fuel", fuel, name];
        let same = is_alike(
            rt.alloc(),
            &mut shelf,
            &run,
            &["build", "--bare", name],
            fuel,
        )?;
        alike = alike.saturating_add(told(rt, name, same, "as an object")?);
    }
    for name in WITH_PRELUDE {
        let run = ["run", "--fuel", MUCH, name];
        let same = is_alike(rt.alloc(), &mut shelf, &run, &["build", name], MUCH)?;
        alike = alike.saturating_add(told(rt, name, same, "as an object")?);
    }
    println!(rt; "{alike} objects run as their programs")?;
    Ok(())
}

/// Writes the name of an example that runs otherwise so. 1 where it runs alike.
fn told(rt: &HostRuntime, name: &str, same: bool, so: &str) -> Result<u64, Error> {
    if same {
        return Ok(1);
    }
    println!(rt; "{name} runs otherwise {so}")?;
    Ok(0)
}

/// The words of a run without the prelude on so many sites.
fn bare_on<'a>(sites: &'a str, fuel: &'a str, name: &'a str) -> [&'a str; 7] {
    ["sites", "--bare", "--fuel", fuel, sites, SEED, name]
}

/// The words of a run with the prelude on so many sites.
fn run_on<'a>(sites: &'a str, name: &'a str) -> [&'a str; 6] {
    ["sites", "--fuel", MUCH, sites, SEED, name]
}

/// Writes how many examples run on one site as `run` runs them, and the names of the others.
fn compare_on_one_site(rt: &HostRuntime) -> Result<(), Error> {
    let mut shelf = FolderShelf::new(rt);
    let mut alike: u64 = 0;
    for name in EXAMPLES {
        let fuel = fuel_of(name);
        let run = ["run", "--bare", "--fuel", fuel, name];
        let same = is_same(rt.alloc(), &mut shelf, &run, &bare_on("1", fuel, name))?;
        alike = alike.saturating_add(told(rt, name, same, "on one site")?);
    }
    for name in WITH_PRELUDE {
        let run = ["run", "--fuel", MUCH, name];
        let same = is_same(rt.alloc(), &mut shelf, &run, &run_on("1", name))?;
        alike = alike.saturating_add(told(rt, name, same, "on one site")?);
    }
    println!(rt; "{alike} programs run on one site as without sites")?;
    Ok(())
}

/// Writes how many runs of examples on several sites end as a run may, and the names of the others.
fn run_on_sites(rt: &HostRuntime) -> Result<(), Error> {
    let mut shelf = FolderShelf::new(rt);
    let mut right: u64 = 0;
    for sites in SITES {
        for name in EXAMPLES {
            let ends = is_right(rt.alloc(), &mut shelf, &bare_on(sites, fuel_of(name), name))?;
            right = right.saturating_add(told(rt, name, ends, "on sites")?);
        }
        for name in WITH_PRELUDE {
            let ends = is_right(rt.alloc(), &mut shelf, &run_on(sites, name))?;
            right = right.saturating_add(told(rt, name, ends, "on sites")?);
        }
    }
    println!(rt; "{right} runs on 2, 5 and 64 sites end as runs do")?;
    Ok(())
}

/// Writes the names of the examples whose code has other nodes than their texts tell.
fn compare_nodes(rt: &HostRuntime) -> Result<(), Error> {
    let mut shelf = FolderShelf::new(rt);
    for name in EXAMPLES {
        if !have_places(rt.alloc(), &mut shelf, None, name)? {
            println!(rt; "{name} has other nodes")?;
        }
    }
    for name in WITH_PRELUDE {
        if !have_places(rt.alloc(), &mut shelf, Some(prelude()), name)? {
            println!(rt; "{name} has other nodes")?;
        }
    }
    Ok(())
}

fn main(rt: HostRuntime) -> Result<(), Error> {
    for name in EXAMPLES {
        run_example(&rt, name, &["run", "--bare", "--fuel", fuel_of(name), name])?;
    }
    for name in WITH_PRELUDE {
        run_example(&rt, name, &["run", name])?;
    }
    compare(&rt)?;
    compare_on_one_site(&rt)?;
    run_on_sites(&rt)?;
    compare_nodes(&rt)
}
