// The text of the program that is made from a number.
ghost use Rattle.std.specs.Prelude.{◌≡◌, ◌≤◌, ◌<◌, ◌++◌, IfOk, OnOk, string_bytes, length};
ghost use Rattle.pict_syntax.specs.declared.limits.TheConstants.{TEXT_LIMIT};
ghost use Rattle.pict_load.specs.Text as texts;

use crate::rings::{Ring, rings_of};
use std::alloc::{AllocError, Global};

/// The text of the program that is made from a number, within the limit of a text.
pub fn load_text(alloc: Global, n: u64) -> Result<Vec<u8>, AllocError>
    ensures text { IfOk result (λ text. text.items ≡ texts.load_text n) }
    ensures short { IfOk result (λ text. length text.items ≤ TEXT_LIMIT) }
{
    let rings = rings_of(n);
    let mut text = Vec::new(alloc);
    for (number, ring) in rings.iter().enumerate() {
        add_ring(alloc, &mut text, number as u32, *ring)?;
    }
    Ok(text)
}

/// Adds the text of a ring.
fn add_ring(alloc: Global, text: &mut Vec<u8>, number: u32, ring: Ring) -> Result<(), AllocError>
    ensures { OnOk result (text.new.items ≡ text.old.items ++ texts.ring_text number ring) }
{
    add_channels(alloc, text, number, ring.size)?;
    add_servers(alloc, text, number, ring.size)?;
    let token = ring.token;
    let line = format!(in alloc; "run c{number}_0!{token}\n")?;
    text.extend_from_slice(line.as_bytes())?;
    Ok(())
}

/// Adds the lines of a ring's channels.
fn add_channels(alloc: Global, text: &mut Vec<u8>, number: u32, size: u32) -> Result<(), AllocError>
    ensures { OnOk result (text.new.items ≡ text.old.items ++ texts.channel_lines number size) }
{
    for place in 0..size {
        let line = channel_line(alloc, number, place)?;
        text.extend_from_slice(line.as_bytes())?;
    }
    Ok(())
}

/// Adds the lines of a ring's servers.
fn add_servers(alloc: Global, text: &mut Vec<u8>, number: u32, size: u32) -> Result<(), AllocError>
    ensures { OnOk result (text.new.items ≡ text.old.items ++ texts.server_lines number size) }
{
    for place in 0..size {
        let line = server_line(alloc, number, place, (place + 1) % size)?;
        text.extend_from_slice(line.as_bytes())?;
    }
    Ok(())
}

/// The line of the channel at a place of a ring.
fn channel_line(alloc: Global, ring: u32, place: u32) -> Result<String, AllocError>
    ensures { IfOk result (λ line. string_bytes line ≡ texts.channel_line ring place) }
{
    format!(in alloc; "new c{ring}_{place}:^Int\n")
}

/// The line of the server at a place of a ring, which sends on to the next place.
fn server_line(alloc: Global, ring: u32, place: u32, next: u32) -> Result<String, AllocError>
    ensures { IfOk result (λ line. string_bytes line ≡ texts.server_line ring place next) }
{
    format!(in alloc;
        "run c{ring}_{place}?*n = if (== n 0) then print!\".\" else c{ring}_{next}!(- n 1)\n"
    )
}
