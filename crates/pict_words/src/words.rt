// The words after the program's name.
ghost use Rattle.std.specs.Prelude.{◌≡◌, ◌≢◌, ◌↔◌, ◌≤◌, ◌<◌, ◌^◌, ℕ, List, [], ◌∷◌, None, IfOk, IfSome, OnErr, IsTrue};
ghost use Rattle.std.specs.Fmt.{decimal};
ghost use Rattle.pict_words.specs.Words as shapes;
ghost use Rattle.pict_words.specs.Words.{HasShape, HasNoShape, IsFileWord, AsksToLoad, AsksToReplay};
ghost use Rattle.pict_words.specs.Plain.{texts_of, plain_command, plain_options};
ghost use Rattle.pict_words.specs.Asked.{IsAsked, Found, HasWord, TakesNoSeed, IsSeeded, FoundSeed, HasSeedWord, TakesSeed, AsksNoSites};
ghost use Rattle.pict_words.specs.Laws.{OneCommand};

use crate::replaying::replay_command;
use crate::siting::sites_command;
use itoa::Buffer;
use pict_syntax::FUEL_LIMIT;

/// How a command takes its text.
#[derive(Clone, Copy, Debug)]
pub struct Options<'a> {
    /// Whether the text stands alone, without the prelude.
    pub bare: bool,
    /// The greatest number of steps.
    pub fuel: u64,
    /// The name of the file.
    pub file: &'a str,
}

/// What the words ask for.
#[derive(Clone, Copy, Debug)]
pub enum Command<'a> {
    /// `run`: checks and runs a program, and writes what it prints.
    Run(Options<'a>),
    /// `trace`: the same run, of which it writes a line for each communication and each printing.
    Trace(Options<'a>),
    /// `check`: checks a program, and writes nothing.
    Check(Options<'a>),
    /// `code`: checks a program, and writes the listing of its instructions.
    Code(Options<'a>),
    /// `load`: makes a program from a number, runs it, and writes a summary.
    Load(u64),
    /// `pick`: checks and runs a program with choices from a seed, and writes what it prints.
    Pick(u64, Options<'a>),
    /// `picked`: the same run, of which it writes the choices and the trace.
    Picked(u64, Options<'a>),
    /// `replay`: checks a program, and says whether a replay file, whose name is the second one, agrees with it.
    Replay(Options<'a>, &'a str),
    /// `build`: checks a program, and writes its core process as an object.
    Build(Options<'a>),
    /// `exec`: runs the object of this name for up to so many steps, and writes what it prints.
    Exec(u64, &'a str),
    /// `sites`: checks and runs a program on so many sites, whose events are chosen by a seed, and writes what it prints.
    Sites(u32, u64, Options<'a>),
}

/// The words have no listed shape.
#[derive(Clone, Copy, Debug, PartialEq, Eq)]
pub struct Usage;

/// The fuel of a run without `--fuel`.
pub const DEFAULT_FUEL: u64 = 1_000_000;

/// The greatest number of sites.
pub const SITE_LIMIT: u64 = 64;

/// The word for a command, how it is to take its text, and whether its fuel is written.
#[derive(Clone, Copy)]
struct Asked<'a> {
    word: &'a str,
    options: Options<'a>,
    fueled: bool,
}

/// The word for a command, its seed, and how it is to take its text.
#[derive(Clone, Copy)]
pub(crate) struct Seeded<'a> {
    pub(crate) word: &'a str,
    pub(crate) seed: u64,
    pub(crate) options: Options<'a>,
}

/// The command that the words ask for. The error comes exactly where they have no listed shape. Takes no memory.
pub fn words_of<'a>(words: &[&'a str]) -> Result<Command<'a>, Usage>
    ensures shape { IfOk result (λ command. HasShape (texts_of words.now) (plain_command command)) }
    ensures usage { OnErr result (HasNoShape (texts_of words.now)) }
{
    match file_command(words) {
        Some(command) => Ok(command),
        None => other_command(words),
    }
}

/// The command that the words ask for, where it isn't one over a file without a seed.
fn other_command<'a>(words: &[&'a str]) -> Result<Command<'a>, Usage>
    ensures shape { IfOk result (λ command. HasShape (texts_of words.now) (plain_command command)) }
    ensures usage { OnErr result ((command : shapes.Command) → (TakesNoSeed command → ⊥) → HasShape (texts_of words.now) command → ⊥) }
{
    match seed_command(words) {
        Some(command) => Ok(command),
        None => further_command(words),
    }
}

/// The command that the words ask for, where it is `sites`, `replay` or `load`.
fn further_command<'a>(words: &[&'a str]) -> Result<Command<'a>, Usage>
    ensures shape { IfOk result (λ command. HasShape (texts_of words.now) (plain_command command)) }
    ensures no_sites { OnErr result (AsksNoSites (texts_of words.now)) }
    ensures no_load { OnErr result ((n : ℕ) → AsksToLoad n (texts_of words.now) → ⊥) }
    ensures no_replay { OnErr result ((options : shapes.Options) (trace : List ℕ) → AsksToReplay options trace (texts_of words.now) → ⊥) }
{
    match sites_command(words) {
        Some(command) => Ok(command),
        None => last_command(words),
    }
}

/// The command that the words ask for, where it is `replay` or `load`.
fn last_command<'a>(words: &[&'a str]) -> Result<Command<'a>, Usage>
    ensures shape { IfOk result (λ command. HasShape (texts_of words.now) (plain_command command)) }
    ensures no_load { OnErr result ((n : ℕ) → AsksToLoad n (texts_of words.now) → ⊥) }
    ensures no_replay { OnErr result ((options : shapes.Options) (trace : List ℕ) → AsksToReplay options trace (texts_of words.now) → ⊥) }
{
    match replay_command(words) {
        Some(command) => Ok(command),
        None => load_command(words),
    }
}

/// The command over a file that the words ask for.
fn file_command<'a>(words: &[&'a str]) -> Option<Command<'a>>
    ensures some { IfSome result (λ command. HasShape (texts_of words.now) (plain_command command)) }
    ensures none { result ≡ None → (command : shapes.Command) → TakesNoSeed command → HasShape (texts_of words.now) command → ⊥ }
{
    match asked_by(words) {
        None => None,
        Some(asked) => command_of(asked),
    }
}

/// The command that these words ask for by its word.
fn command_of<'a>(asked: Asked<'a>) -> Option<Command<'a>>
    ensures some { IfSome result (λ command. HasWord asked.entry.word.now asked.entry.fueled (plain_options asked.entry.options) (plain_command command)) }
    ensures none { result ≡ None → (command : shapes.Command)
        → HasWord asked.entry.word.now asked.entry.fueled (plain_options asked.entry.options) command → ⊥ }
{
    match asked.word {
        "run" => Some(Command::Run(asked.options)),
        "trace" => Some(Command::Trace(asked.options)),
        "check" if !asked.fueled => Some(Command::Check(asked.options)),
        "code" if !asked.fueled => Some(Command::Code(asked.options)),
        "build" if !asked.fueled => Some(Command::Build(asked.options)),
        "exec" if !asked.options.bare => {
            Some(Command::Exec(asked.options.fuel, asked.options.file))
        }
        _ => None,
    }
}

/// What the words ask for, where they have the shape of a command over a file.
fn asked_by<'a>(words: &[&'a str]) -> Option<Asked<'a>>
    ensures some { IfSome result (λ asked. IsAsked asked.word.now asked.fueled (plain_options asked.options) (texts_of words.now)) }
    ensures none { result ≡ None → (word : List ℕ) → Found word (texts_of words.now) → ⊥ }
{
    if let [word, file] = words {
        return asked_by_two(word, file);
    }
    if let [word, bare, file] = words {
        return asked_by_three(word, bare, file);
    }
    if let [word, option, fuel, file] = words {
        return asked_by_four(word, option, fuel, file);
    }
    if let [word, bare, option, fuel, file] = words {
        return asked_by_five(word, bare, option, fuel, file);
    }
    None
}

/// The same of two words: the default fuel, behind the prelude.
fn asked_by_two<'a>(word: &'a str, file: &'a str) -> Option<Asked<'a>>
    ensures some { IfSome result (λ asked.
        IsAsked asked.word.now asked.fueled (plain_options asked.options) (word.entry.now ∷ file.entry.now ∷ [])) }
    ensures none { result ≡ None → (name : List ℕ) → Found name (word.entry.now ∷ file.entry.now ∷ []) → ⊥ }
{
    if !is_file_word(file) {
        return None;
    }
    let options = Options {
        bare: false,
        fuel: DEFAULT_FUEL,
        file,
    };
    Some(Asked {
        word,
        options,
        fueled: false,
    })
}

/// The same of three words: the default fuel, without the prelude.
fn asked_by_three<'a>(word: &'a str, bare: &str, file: &'a str) -> Option<Asked<'a>>
    ensures some { IfSome result (λ asked.
        IsAsked asked.word.now asked.fueled (plain_options asked.options) (word.entry.now ∷ bare.now ∷ file.entry.now ∷ [])) }
    ensures none { result ≡ None → (name : List ℕ) → Found name (word.entry.now ∷ bare.now ∷ file.entry.now ∷ []) → ⊥ }
{
    if bare != "--bare" || !is_file_word(file) {
        return None;
    }
    let options = Options {
        bare: true,
        fuel: DEFAULT_FUEL,
        file,
    };
    Some(Asked {
        word,
        options,
        fueled: false,
    })
}

/// The same of four words: a written fuel, behind the prelude.
fn asked_by_four<'a>(word: &'a str, option: &str, fuel: &str, file: &'a str) -> Option<Asked<'a>>
    ensures some { IfSome result (λ asked.
        IsAsked asked.word.now asked.fueled (plain_options asked.options) (word.entry.now ∷ option.now ∷ fuel.now ∷ file.entry.now ∷ [])) }
    ensures none { result ≡ None → (name : List ℕ) → Found name (word.entry.now ∷ option.now ∷ fuel.now ∷ file.entry.now ∷ []) → ⊥ }
{
    if option != "--fuel" || !is_file_word(file) {
        return None;
    }
    let fuel = fuel_of(fuel)?;
    let options = Options {
        bare: false,
        fuel,
        file,
    };
    Some(Asked {
        word,
        options,
        fueled: true,
    })
}

/// The same of five words: a written fuel, without the prelude.
fn asked_by_five<'a>(
    word: &'a str,
    bare: &str,
    option: &str,
    fuel: &str,
    file: &'a str,
) -> Option<Asked<'a>>
    ensures some { IfSome result (λ asked.
        IsAsked asked.word.now asked.fueled (plain_options asked.options) (word.entry.now ∷ bare.now ∷ option.now ∷ fuel.now ∷ file.entry.now ∷ [])) }
    ensures none { result ≡ None → (name : List ℕ) → Found name (word.entry.now ∷ bare.now ∷ option.now ∷ fuel.now ∷ file.entry.now ∷ []) → ⊥ }
{
    if bare != "--bare" || option != "--fuel" || !is_file_word(file) {
        return None;
    }
    let fuel = fuel_of(fuel)?;
    let options = Options {
        bare: true,
        fuel,
        file,
    };
    Some(Asked {
        word,
        options,
        fueled: true,
    })
}

/// The command with choices from a seed that the words ask for.
fn seed_command<'a>(words: &[&'a str]) -> Option<Command<'a>>
    ensures some { IfSome result (λ command. HasShape (texts_of words.now) (plain_command command)) }
    ensures none { result ≡ None → (command : shapes.Command) → TakesSeed command → HasShape (texts_of words.now) command → ⊥ }
{
    match seeded_by(words) {
        None => None,
        Some(seeded) => picking_of(seeded),
    }
}

/// The command with choices from a seed that these words ask for by its word.
fn picking_of<'a>(seeded: Seeded<'a>) -> Option<Command<'a>>
    ensures some { IfSome result (λ command.
        HasSeedWord seeded.entry.word.now seeded.entry.seed (plain_options seeded.entry.options) (plain_command command)) }
    ensures none { result ≡ None → (command : shapes.Command)
        → HasSeedWord seeded.entry.word.now seeded.entry.seed (plain_options seeded.entry.options) command → ⊥ }
{
    match seeded.word {
        "pick" => Some(Command::Pick(seeded.seed, seeded.options)),
        "picked" => Some(Command::Picked(seeded.seed, seeded.options)),
        _ => None,
    }
}

/// What the words ask for, where they have the shape of a command with a seed.
fn seeded_by<'a>(words: &[&'a str]) -> Option<Seeded<'a>>
    ensures some { IfSome result (λ s. IsSeeded s.word.now s.seed (plain_options s.options) (texts_of words.now)) }
    ensures none { result ≡ None → (word : List ℕ) → FoundSeed word (texts_of words.now) → ⊥ }
{
    if let [word, seed, file] = words {
        return seeded_by_three(word, seed, file);
    }
    if let [word, bare, seed, file] = words {
        return seeded_by_four(word, bare, seed, file);
    }
    if let [word, option, fuel, seed, file] = words {
        return seeded_by_five(word, option, fuel, seed, file);
    }
    if let [word, bare, option, fuel, seed, file] = words {
        return seeded_by_six(word, bare, option, fuel, seed, file);
    }
    None
}

/// The same of three words: the default fuel, behind the prelude.
pub(crate) fn seeded_by_three<'a>(word: &'a str, seed: &str, file: &'a str) -> Option<Seeded<'a>>
    ensures some { IfSome result (λ s.
        IsSeeded s.word.now s.seed (plain_options s.options) (word.entry.now ∷ seed.now ∷ file.entry.now ∷ [])) }
    ensures none { result ≡ None → (name : List ℕ) → FoundSeed name (word.entry.now ∷ seed.now ∷ file.entry.now ∷ []) → ⊥ }
{
    match asked_by_two(word, file) {
        None => None,
        Some(asked) => with_seed(asked, seed),
    }
}

/// The same of four words: the default fuel, without the prelude.
pub(crate) fn seeded_by_four<'a>(
    word: &'a str,
    bare: &str,
    seed: &str,
    file: &'a str,
) -> Option<Seeded<'a>>
    ensures some { IfSome result (λ s.
        IsSeeded s.word.now s.seed (plain_options s.options) (word.entry.now ∷ bare.now ∷ seed.now ∷ file.entry.now ∷ [])) }
    ensures none { result ≡ None → (name : List ℕ) → FoundSeed name (word.entry.now ∷ bare.now ∷ seed.now ∷ file.entry.now ∷ []) → ⊥ }
{
    match asked_by_three(word, bare, file) {
        None => None,
        Some(asked) => with_seed(asked, seed),
    }
}

/// The same of five words: a written fuel, behind the prelude.
pub(crate) fn seeded_by_five<'a>(
    word: &'a str,
    option: &str,
    fuel: &str,
    seed: &str,
    file: &'a str,
) -> Option<Seeded<'a>>
    ensures some { IfSome result (λ s.
        IsSeeded s.word.now s.seed (plain_options s.options) (word.entry.now ∷ option.now ∷ fuel.now ∷ seed.now ∷ file.entry.now ∷ [])) }
    ensures none { result ≡ None → (name : List ℕ)
        → FoundSeed name (word.entry.now ∷ option.now ∷ fuel.now ∷ seed.now ∷ file.entry.now ∷ []) → ⊥ }
{
    match asked_by_four(word, option, fuel, file) {
        None => None,
        Some(asked) => with_seed(asked, seed),
    }
}

/// The same of six words: a written fuel, without the prelude.
pub(crate) fn seeded_by_six<'a>(
    word: &'a str,
    bare: &str,
    option: &str,
    fuel: &str,
    seed: &str,
    file: &'a str,
) -> Option<Seeded<'a>>
    ensures some { IfSome result (λ s. IsSeeded s.word.now s.seed (plain_options s.options)
        (word.entry.now ∷ bare.now ∷ option.now ∷ fuel.now ∷ seed.now ∷ file.entry.now ∷ [])) }
    ensures none { result ≡ None → (name : List ℕ)
        → FoundSeed name (word.entry.now ∷ bare.now ∷ option.now ∷ fuel.now ∷ seed.now ∷ file.entry.now ∷ []) → ⊥ }
{
    match asked_by_five(word, bare, option, fuel, file) {
        None => None,
        Some(asked) => with_seed(asked, seed),
    }
}

/// What is asked for, with the seed that a word writes.
fn with_seed<'a>(asked: Asked<'a>, seed: &str) -> Option<Seeded<'a>>
    ensures some { IfSome result (λ s. (s.word.now ≡ asked.entry.word.now) × (s.options ≡ asked.entry.options)
        × (seed.now ≡ decimal s.seed) × (s.seed < 2 ^ 64)) }
    ensures none { result ≡ None → (n : ℕ) → n < 2 ^ 64 → seed.now ≢ decimal n }
{
    match number_of(seed) {
        None => None,
        Some(seed) => Some(Seeded {
            word: asked.word,
            seed,
            options: asked.options,
        }),
    }
}

/// The command `load` that the words ask for.
fn load_command<'a>(words: &[&'a str]) -> Result<Command<'a>, Usage>
    ensures shape { IfOk result (λ command. HasShape (texts_of words.now) (plain_command command)) }
    ensures usage { OnErr result ((n : ℕ) → AsksToLoad n (texts_of words.now) → ⊥) }
{
    if let [word, number] = words {
        return load_of(word, number);
    }
    Err(Usage)
}

/// The same of two words.
fn load_of<'a>(word: &str, number: &str) -> Result<Command<'a>, Usage>
    ensures shape { IfOk result (λ command. HasShape (word.now ∷ number.now ∷ []) (plain_command command)) }
    ensures usage { OnErr result ((n : ℕ) → AsksToLoad n (word.now ∷ number.now ∷ []) → ⊥) }
{
    if word != "load" {
        return Err(Usage);
    }
    match number_of(number) {
        None => Err(Usage),
        Some(n) => Ok(Command::Load(n)),
    }
}

/// The fuel that a word writes, up to the greatest fuel.
fn fuel_of(word: &str) -> Option<u64>
    ensures some { IfSome result (λ fuel. (word.now ≡ decimal fuel) × (fuel ≤ FUEL_LIMIT)) }
    ensures none { result ≡ None → (fuel : ℕ) → fuel ≤ FUEL_LIMIT → word.now ≢ decimal fuel }
{
    match number_of(word) {
        None => None,
        Some(fuel) => {
            if fuel > FUEL_LIMIT {
                return None;
            }
            Some(fuel)
        }
    }
}

/// The number that a word writes, in decimal, without a sign and without a leading zero.
pub(crate) fn number_of(word: &str) -> Option<u64>
    ensures some { IfSome result (λ n. word.now ≡ decimal n) }
    ensures none { result ≡ None → (n : ℕ) → n < 2 ^ 64 → word.now ≢ decimal n }
{
    match word.parse::<u64>() {
        Err(_) => None,
        Ok(n) => {
            if Buffer::new().format(n) != word {
                return None;
            }
            Some(n)
        }
    }
}

/// Whether the word may name a file.
pub(crate) fn is_file_word(word: &str) -> bool
    ensures { IsTrue result ↔ IsFileWord word.now }
{
    match word.as_bytes().first() {
        None => false,
        Some(first) => *first != b'-',
    }
}

/// Words have the shape of one command and of no other, or they have no listed shape.
pub fn law_one_command()
    ensures { OneCommand }
{}
