// The words of `sites`.
ghost use Rattle.std.specs.Prelude.{◌≡◌, ℕ, List, [], ◌∷◌, None, IfSome, codes};
ghost use Rattle.pict_words.specs.Words.{HasShape};
ghost use Rattle.pict_words.specs.Plain.{texts_of, plain_command, plain_options};
ghost use Rattle.pict_words.specs.Asked.{IsSitesOf, AsksNoSites, WritesSites};

use crate::words::{
    Command, SITE_LIMIT, Seeded, number_of, seeded_by_five, seeded_by_four, seeded_by_six,
    seeded_by_three,
};

/// The command `sites` that the words ask for.
pub(crate) fn sites_command<'a>(words: &[&'a str]) -> Option<Command<'a>>
    ensures some { IfSome result (λ command. HasShape (texts_of words.now) (plain_command command)) }
    ensures none { result ≡ None → AsksNoSites (texts_of words.now) }
{
    if let [word, sites, seed, file] = words {
        return sites_four(word, sites, seed, file);
    }
    if let [word, bare, sites, seed, file] = words {
        return sites_five(word, bare, sites, seed, file);
    }
    if let [word, option, fuel, sites, seed, file] = words {
        return sites_six(word, option, fuel, sites, seed, file);
    }
    if let [word, bare, option, fuel, sites, seed, file] = words {
        return sites_seven(word, bare, option, fuel, sites, seed, file);
    }
    None
}

/// The same of four words: the default fuel, behind the prelude.
fn sites_four<'a>(word: &'a str, sites: &str, seed: &str, file: &'a str) -> Option<Command<'a>>
    ensures some { IfSome result (λ command.
        HasShape (word.entry.now ∷ sites.now ∷ seed.now ∷ file.entry.now ∷ []) (plain_command command)) }
    ensures none { result ≡ None → AsksNoSites (word.entry.now ∷ sites.now ∷ seed.now ∷ file.entry.now ∷ []) }
{
    match seeded_by_three(word, seed, file) {
        None => None,
        Some(seeded) => sites_of(seeded, sites),
    }
}

/// The same of five words: the default fuel, without the prelude.
fn sites_five<'a>(
    word: &'a str,
    bare: &str,
    sites: &str,
    seed: &str,
    file: &'a str,
) -> Option<Command<'a>>
    ensures some { IfSome result (λ command.
        HasShape (word.entry.now ∷ bare.now ∷ sites.now ∷ seed.now ∷ file.entry.now ∷ []) (plain_command command)) }
    ensures none { result ≡ None → AsksNoSites (word.entry.now ∷ bare.now ∷ sites.now ∷ seed.now ∷ file.entry.now ∷ []) }
{
    match seeded_by_four(word, bare, seed, file) {
        None => None,
        Some(seeded) => sites_of(seeded, sites),
    }
}

/// The same of six words: a written fuel, behind the prelude.
fn sites_six<'a>(
    word: &'a str,
    option: &str,
    fuel: &str,
    sites: &str,
    seed: &str,
    file: &'a str,
) -> Option<Command<'a>>
    ensures some { IfSome result (λ command.
        HasShape (word.entry.now ∷ option.now ∷ fuel.now ∷ sites.now ∷ seed.now ∷ file.entry.now ∷ []) (plain_command command)) }
    ensures none { result ≡ None → AsksNoSites (word.entry.now ∷ option.now ∷ fuel.now ∷ sites.now ∷ seed.now ∷ file.entry.now ∷ []) }
{
    match seeded_by_five(word, option, fuel, seed, file) {
        None => None,
        Some(seeded) => sites_of(seeded, sites),
    }
}

/// The same of seven words: a written fuel, without the prelude.
fn sites_seven<'a>(
    word: &'a str,
    bare: &str,
    option: &str,
    fuel: &str,
    sites: &str,
    seed: &str,
    file: &'a str,
) -> Option<Command<'a>>
    ensures some { IfSome result (λ command.
        HasShape (word.entry.now ∷ bare.now ∷ option.now ∷ fuel.now ∷ sites.now ∷ seed.now ∷ file.entry.now ∷ []) (plain_command command)) }
    ensures none { result ≡ None
        → AsksNoSites (word.entry.now ∷ bare.now ∷ option.now ∷ fuel.now ∷ sites.now ∷ seed.now ∷ file.entry.now ∷ []) }
{
    match seeded_by_six(word, bare, option, fuel, seed, file) {
        None => None,
        Some(seeded) => sites_of(seeded, sites),
    }
}

/// The command on as many sites as a word writes, where the word for the command is `sites`.
fn sites_of<'a>(seeded: Seeded<'a>, sites: &str) -> Option<Command<'a>>
    ensures some { IfSome result (λ command.
        IsSitesOf sites.now seeded.entry.word.now seeded.entry.seed (plain_options seeded.entry.options) (plain_command command)) }
    ensures none { result ≡ None → seeded.entry.word.now ≡ codes "sites" → (n : ℕ) → WritesSites sites.now n → ⊥ }
{
    if seeded.word != "sites" {
        return None;
    }
    match site_count(sites) {
        None => None,
        Some(count) => Some(Command::Sites(count, seeded.seed, seeded.options)),
    }
}

/// The number of sites that a word writes, from 1 up to the greatest number.
fn site_count(word: &str) -> Option<u32>
    ensures some { IfSome result (λ count. WritesSites word.now count) }
    ensures none { result ≡ None → (n : ℕ) → WritesSites word.now n → ⊥ }
{
    match number_of(word) {
        None => None,
        Some(count) => {
            if count == 0 {
                return None;
            }
            if count > SITE_LIMIT {
                return None;
            }
            Some(count as u32)
        }
    }
}
