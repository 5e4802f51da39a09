// The words of `replay`.
ghost use Rattle.std.specs.Prelude.{◌≡◌, ℕ, List, [], ◌∷◌, None, IfSome};
ghost use Rattle.pict_words.specs.Words as shapes;
ghost use Rattle.pict_words.specs.Words.{HasShape, IsFileWord, AsksToReplay};
ghost use Rattle.pict_words.specs.Plain.{texts_of, plain_command};
ghost use Rattle.pict_words.specs.Asked.{IsReplayOf};

use crate::words::{Command, DEFAULT_FUEL, Options, is_file_word};

/// The command `replay` that the words ask for.
pub(crate) fn replay_command<'a>(words: &[&'a str]) -> Option<Command<'a>>
    ensures some { IfSome result (λ command. HasShape (texts_of words.now) (plain_command command)) }
    ensures none { result ≡ None → (options : shapes.Options) (name : List ℕ) → AsksToReplay options name (texts_of words.now) → ⊥ }
{
    if let [word, file, trace] = words {
        return replay_three(word, file, trace);
    }
    if let [word, bare, file, trace] = words {
        return replay_four(word, bare, file, trace);
    }
    None
}

/// The same of three words: behind the prelude.
fn replay_three<'a>(word: &str, file: &'a str, trace: &'a str) -> Option<Command<'a>>
    ensures some { IfSome result (λ command. HasShape (word.now ∷ file.entry.now ∷ trace.entry.now ∷ []) (plain_command command)) }
    ensures none { result ≡ None → (options : shapes.Options) (name : List ℕ)
        → AsksToReplay options name (word.now ∷ file.entry.now ∷ trace.entry.now ∷ []) → ⊥ }
{
    if word != "replay" {
        return None;
    }
    replay_of(false, file, trace)
}

/// The same of four words: without the prelude.
fn replay_four<'a>(word: &str, bare: &str, file: &'a str, trace: &'a str) -> Option<Command<'a>>
    ensures some { IfSome result (λ command. HasShape (word.now ∷ bare.now ∷ file.entry.now ∷ trace.entry.now ∷ []) (plain_command command)) }
    ensures none { result ≡ None → (options : shapes.Options) (name : List ℕ)
        → AsksToReplay options name (word.now ∷ bare.now ∷ file.entry.now ∷ trace.entry.now ∷ []) → ⊥ }
{
    if word != "replay" || bare != "--bare" {
        return None;
    }
    replay_of(true, file, trace)
}

/// The command over these two files, where their words may name files.
fn replay_of<'a>(bare: bool, file: &'a str, trace: &'a str) -> Option<Command<'a>>
    ensures some { IfSome result (λ command. IsReplayOf bare file.entry.now trace.entry.now (plain_command command)) }
    ensures none { result ≡ None → IsFileWord file.entry.now → IsFileWord trace.entry.now → ⊥ }
{
    if !is_file_word(file) || !is_file_word(trace) {
        return None;
    }
    let options = Options {
        bare,
        fuel: DEFAULT_FUEL,
        file,
    };
    Some(Command::Replay(options, trace))
}
