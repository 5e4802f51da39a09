// What a message binds.
ghost use Rattle.std.specs.Prelude.{◌≡◌, ◌<◌, length, map, IsSome};
ghost use Rattle.std.specs.List.{AllByRecursion};
ghost use Rattle.pict_core.specs.Matching.{match_value};
ghost use Rattle.pict_code.specs.Levels.{Rises};
ghost use Rattle.pict_code.specs.Plain.{plain_pat, pats_of};
ghost use Rattle.pict_code.specs.ReadBack.{unleveled, unleveled_all};
ghost use Rattle.pict_desk.specs.Binding.{levels_of, levels_of_all, Binds, BindsPattern};
ghost use Rattle.pict_desk.specs.Known.{value_in};
ghost use Rattle.pict_desk.specs.Pairs.{IsPair, ArePairs};
ghost use Rattle.pict_desk.specs.Parts.{positional_found};
ghost use Rattle.pict_meetings.specs.Sent.{record_of_pairs, sent_value, IsSent, TakesWhole, CanTake};

use crate::sent::Sent;
use pict_code::CodePat;
use pict_desk::{bind, word_at};
use pict_turns::Store;

// Does what `bind_levels` does, for any pattern.
#[inline(never)]
fn bind_fields(store: &mut Store, pattern: &CodePat, message: (u64, u64))
    requires pair { IsPair store.old.desk.heap message }
    requires fits { IsSome (match_value (unleveled (plain_pat pattern.now)) (value_in store.old.desk.heap message.0 message.1)) }
    requires inside { AllByRecursion (λ level. level < length store.old.desk.values.items) (levels_of (plain_pat pattern.now)) }
    requires rising { Rises 0 (levels_of (plain_pat pattern.now)) }
    requires pairs { ArePairs store.old.desk.heap store.old.desk.values.items }
    ensures binds { BindsPattern store.old.desk.heap (plain_pat pattern.now) (value_in store.old.desk.heap message.0 message.1)
        store.old.desk.values.items store.new.desk.values.items }
    ensures levels { length store.new.desk.values.items ≡ length store.old.desk.values.items }
    ensures pairs { ArePairs store.old.desk.heap store.new.desk.values.items }
    ensures rest { store.new ≡ record store.old { desk = record store.old.desk { values = store.new.desk.values } } }
{
    bind(
        &store.desk.heap,
        pattern,
        word_at(message),
        &mut store.desk.values,
    );
}

// The levels of the pattern, which fits the value of these two words, get what it binds. Nothing else changes.
#[inline(always)]
pub(crate) fn bind_levels(store: &mut Store, pattern: &CodePat, message: (u64, u64))
    requires pair { IsPair store.old.desk.heap message }
    requires fits { IsSome (match_value (unleveled (plain_pat pattern.now)) (value_in store.old.desk.heap message.0 message.1)) }
    requires inside { AllByRecursion (λ level. level < length store.old.desk.values.items) (levels_of (plain_pat pattern.now)) }
    requires rising { Rises 0 (levels_of (plain_pat pattern.now)) }
    requires pairs { ArePairs store.old.desk.heap store.old.desk.values.items }
    ensures binds { BindsPattern store.old.desk.heap (plain_pat pattern.now) (value_in store.old.desk.heap message.0 message.1)
        store.old.desk.values.items store.new.desk.values.items }
    ensures levels { length store.new.desk.values.items ≡ length store.old.desk.values.items }
    ensures pairs { ArePairs store.old.desk.heap store.new.desk.values.items }
    ensures rest { store.new ≡ record store.old { desk = record store.old.desk { values = store.new.desk.values } } }
{
    match pattern {
        CodePat::Bind(level) => store.desk.values[*level as usize] = message,
        _ => bind_fields(store, pattern, message),
    }
}

// Binds the fields of a record that isn't made, two words each, by the patterns of its fields.
#[inline(always)]
fn bind_each(store: &mut Store, patterns: &[CodePat], fields: &[(u64, u64)])
    requires are { AllByRecursion (IsPair store.old.desk.heap) fields.now }
    requires fits { IsSome (positional_found (unleveled_all (pats_of (map plain_pat patterns.now))) (record_of_pairs store.old.desk.heap fields.now)) }
    requires inside { AllByRecursion (λ level. level < length store.old.desk.values.items) (levels_of_all (pats_of (map plain_pat patterns.now))) }
    requires rising { Rises 0 (levels_of_all (pats_of (map plain_pat patterns.now))) }
    requires pairs { ArePairs store.old.desk.heap store.old.desk.values.items }
    ensures binds { Binds store.old.desk.heap (levels_of_all (pats_of (map plain_pat patterns.now)))
        (positional_found (unleveled_all (pats_of (map plain_pat patterns.now))) (record_of_pairs store.old.desk.heap fields.now))
        store.old.desk.values.items store.new.desk.values.items }
    ensures levels { length store.new.desk.values.items ≡ length store.old.desk.values.items }
    ensures pairs { ArePairs store.old.desk.heap store.new.desk.values.items }
    ensures rest { store.new ≡ record store.old { desk = record store.old.desk { values = store.new.desk.values } } }
{
    for i in 0..patterns.len() {
        bind_levels(store, &patterns[i], fields[i]);
    }
}

// Does what `bind_sent` does, for a record that isn't made, of these fields, two words each.
#[inline(always)]
fn bind_unmade(store: &mut Store, pattern: &CodePat, fields: &[(u64, u64)])
    requires are { AllByRecursion (IsPair store.old.desk.heap) fields.now }
    requires fits { IsSome (match_value (unleveled (plain_pat pattern.now)) (record_of_pairs store.old.desk.heap fields.now)) }
    requires apart { ¬ TakesWhole (plain_pat pattern.now) }
    requires inside { AllByRecursion (λ level. level < length store.old.desk.values.items) (levels_of (plain_pat pattern.now)) }
    requires rising { Rises 0 (levels_of (plain_pat pattern.now)) }
    requires pairs { ArePairs store.old.desk.heap store.old.desk.values.items }
    ensures binds { BindsPattern store.old.desk.heap (plain_pat pattern.now) (record_of_pairs store.old.desk.heap fields.now)
        store.old.desk.values.items store.new.desk.values.items }
    ensures levels { length store.new.desk.values.items ≡ length store.old.desk.values.items }
    ensures pairs { ArePairs store.old.desk.heap store.new.desk.values.items }
    ensures rest { store.new ≡ record store.old { desk = record store.old.desk { values = store.new.desk.values } } }
{
    match pattern {
        CodePat::Fields { positional, .. } => bind_each(store, positional, fields),
        CodePat::Any => {}
        CodePat::Bind(_) => unreachable!(),
    }
}

// The levels of the pattern, which fits what is sent, get what it binds. Nothing else changes.
#[inline(always)]
pub(crate) fn bind_sent(store: &mut Store, pattern: &CodePat, sent: Sent)
    requires sent { IsSent store.old.desk.heap sent }
    requires fits { IsSome (match_value (unleveled (plain_pat pattern.now)) (sent_value store.old.desk.heap sent)) }
    requires can { CanTake (plain_pat pattern.now) sent }
    requires inside { AllByRecursion (λ level. level < length store.old.desk.values.items) (levels_of (plain_pat pattern.now)) }
    requires rising { Rises 0 (levels_of (plain_pat pattern.now)) }
    requires pairs { ArePairs store.old.desk.heap store.old.desk.values.items }
    ensures binds { BindsPattern store.old.desk.heap (plain_pat pattern.now) (sent_value store.old.desk.heap sent)
        store.old.desk.values.items store.new.desk.values.items }
    ensures levels { length store.new.desk.values.items ≡ length store.old.desk.values.items }
    ensures pairs { ArePairs store.old.desk.heap store.new.desk.values.items }
    ensures rest { store.new ≡ record store.old { desk = record store.old.desk { values = store.new.desk.values } } }
{
    match sent {
        Sent::Whole(message) => bind_levels(store, pattern, message),
        Sent::Two(a, b) => bind_unmade(store, pattern, &[a, b]),
        Sent::Three(a, b, c) => bind_unmade(store, pattern, &[a, b, c]),
    }
}
