// Where a command's texts come from.
ghost use Rattle.std.specs.Prelude.{◌≡◌, ◌≤◌, IfOk, IfSome, MatchOption, length};
ghost use Rattle.pict_syntax.specs.declared.limits.TheConstants.{TEXT_LIMIT};
ghost use Rattle.pict_gather.specs.Entry.{lent};
ghost use Rattle.pict_words.specs.Plain.{plain_command};
ghost use Rattle.pict_words.specs.Words as words;
ghost use Rattle.pict_top.specs.Origins as origins;
ghost use Rattle.pict_top.specs.Origins.{AsksShelf, IsOwn, TakesText, origin_of};

use pict_load::load_text;
use pict_report::prelude;
use pict_words::{Command, Options};
use std::alloc::{AllocError, Global};

/// The name of a command's file or object, or `load` for the text that stands for one. Takes no memory.
pub fn name_of<'a>(command: Command<'a>) -> &'a str
    ensures { result.now ≡ origins.name_of (origin_of (plain_command command.entry)) }
{
    match command {
        Command::Run(options) => options.file,
        Command::Trace(options) => options.file,
        Command::Check(options) => options.file,
        Command::Code(options) => options.file,
        Command::Load(_) => "load",
        Command::Pick(_, options) => options.file,
        Command::Picked(_, options) => options.file,
        Command::Replay(options, _) => options.file,
        Command::Build(options) => options.file,
        Command::Exec(_, object) => object,
        Command::Sites(_, _, options) => options.file,
    }
}

/// What stands before a command's file: the prelude, unless the file stands alone. Takes no memory.
pub fn prelude_of(command: Command<'_>) -> Option<&'static [u8]>
    ensures is { lent result ≡ origins.prelude_of (origin_of (plain_command command.entry)) }
    ensures short { IfSome result (λ bytes. length bytes.now ≤ TEXT_LIMIT) }
{
    match command {
        Command::Run(options) => prelude_unless_bare(options),
        Command::Trace(options) => prelude_unless_bare(options),
        Command::Check(options) => prelude_unless_bare(options),
        Command::Code(options) => prelude_unless_bare(options),
        Command::Load(_) => None,
        Command::Pick(_, options) => prelude_unless_bare(options),
        Command::Picked(_, options) => prelude_unless_bare(options),
        Command::Replay(options, _) => prelude_unless_bare(options),
        Command::Build(options) => prelude_unless_bare(options),
        Command::Exec(_, _) => None,
        Command::Sites(_, _, options) => prelude_unless_bare(options),
    }
}

/// The name of the replay file, where the command replays one over its program. Takes no memory.
pub fn trace_of<'a>(command: Command<'a>) -> Option<&'a str>
    ensures { lent result ≡ origins.trace_of (plain_command command.entry) }
{
    match command {
        Command::Replay(_, trace) => Some(trace),
        _ => None,
    }
}

/// The object that a command runs, and the greatest number of steps; none where the command takes the text of a program. Takes no
/// memory.
pub fn object_of<'a>(command: Command<'a>) -> Option<(&'a str, u64)>
    ensures { MatchOption result (TakesText (plain_command command.entry)) (λ run. plain_command command.entry ≡ words.Exec run.1 run.0.now) }
{
    match command {
        Command::Exec(fuel, object) => Some((object, fuel)),
        _ => None,
    }
}

/// Whether the command writes the object of its program. Takes no memory.
pub fn builds(command: Command<'_>) -> bool
    ensures { result ≡ origins.builds (plain_command command.entry) }
{
    match command {
        Command::Build(_) => true,
        _ => false,
    }
}

/// The prelude, unless a file stands alone.
fn prelude_unless_bare(options: Options<'_>) -> Option<&'static [u8]>
    ensures is { lent result ≡ origins.prelude_of (origins.File options.entry.bare options.entry.file.now) }
    ensures short { IfSome result (λ bytes. length bytes.now ≤ TEXT_LIMIT) }
{
    if options.bare { None } else { Some(prelude()) }
}

/// The text that a command makes itself; none where it reads a file or an object. The error is want of memory.
pub fn own_text(alloc: Global, command: Command<'_>) -> Result<Option<Vec<u8>>, AllocError>
    ensures { IfOk result (λ own. MatchOption own (AsksShelf (origin_of (plain_command command.entry)))
        (λ text. IsOwn (origin_of (plain_command command.entry)) text.items)) }
{
    match command {
        Command::Load(n) => Ok(Some(load_text(alloc, n)?)),
        _ => Ok(None),
    }
}
