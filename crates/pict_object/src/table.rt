// The labels at the head of an object.

ghost use Rattle.std.specs.Prelude.{◌≡◌, ◌≢◌, ◌++◌, ℕ, List, [], false, IsTrue, IfOk, IfSome, None, Err};
ghost use Rattle.std.specs.Ordering.{nat_cmp};
ghost use Rattle.std.specs.Cmp.Lexicographic.{slice_cmp};
ghost use Rattle.std.specs.declared.cmp.Ordering.TheVariants.{Less};
ghost use Rattle.pict_object.specs.declared.error.DecodeError.TheVariants.{NotObject};
ghost use Rattle.pict_object.specs.Cores.{IsLabelText};
ghost use Rattle.pict_object.specs.Reading.{GivesReading, text_at, counted_at};
ghost use Rattle.pict_object.specs.Heads.{lent, AreLabelTexts, IsHead};

use crate::error::DecodeError;
use crate::front::{read_count, read_text};
use pict_lex::{keyword_of, word_len};
use std::alloc::Global;
use std::cmp::Ordering;

/// The labels at the head of an object, and what is behind them.
pub(crate) fn read_table(alloc: Global, bytes: &[u8]) -> Result<(Vec<&[u8]>, &[u8]), DecodeError>
    ensures head { IfOk result (λ x. IsHead bytes.now (lent x.0.items) x.1.now) }
    ensures refused { result ≡ Err NotObject → (table : List (List ℕ)) (rest : List ℕ) → ¬ IsHead bytes.now table rest }
{
    match behind(b"PICT\x01", bytes) {
        None => Err(DecodeError::NotObject),
        Some(labels) => {
            let (table, rest) = read_texts(alloc, labels)?;
            if are_labels(&table) {
                Ok((table, rest))
            } else {
                Err(DecodeError::NotObject)
            }
        }
    }
}

// What is behind these bytes, where they stand at the front.
fn behind<'a>(front: &[u8], bytes: &'a [u8]) -> Option<&'a [u8]>
    ensures some { IfSome result (λ rest. bytes.now ≡ front.now ++ rest.now) }
    ensures none { result ≡ None → (rest : List ℕ) → bytes.now ≢ front.now ++ rest }
{
    bytes.strip_prefix(front)
}

// Texts behind their count.
fn read_texts(alloc: Global, bytes: &[u8]) -> Result<(Vec<&[u8]>, &[u8]), DecodeError>
    ensures { GivesReading (λ x. (lent x.0.items, x.1.now)) result (counted_at text_at bytes.now) }
{
    let (count, first) = read_count(bytes)?;
    let mut texts = Vec::new(alloc);
    let mut rest = first;
    for _ in 0..count {
        let (text, after) = read_text(rest)?;
        texts.push(text)?;
        rest = after;
    }
    Ok((texts, rest))
}

// Whether these are identifiers, each after the one before it.
fn are_labels(table: &[&[u8]]) -> bool
    ensures yes { IsTrue result → AreLabelTexts [] (lent table.now) }
    ensures no { result ≡ false → ¬ AreLabelTexts [] (lent table.now) }
{
    let mut before: &[u8] = &[];
    for text in table {
        if !is_label(*text) || !comes_after(before, *text) {
            return false;
        }
        before = *text;
    }
    true
}

fn comes_after(before: &[u8], text: &[u8]) -> bool
    ensures yes { IsTrue result → slice_cmp nat_cmp before.now text.now ≡ Less }
    ensures no { result ≡ false → slice_cmp nat_cmp before.now text.now ≢ Less }
{
    match before.cmp(text) {
        Ordering::Less => true,
        Ordering::Equal | Ordering::Greater => false,
    }
}

// Whether the text is an identifier.
fn is_label(text: &[u8]) -> bool
    ensures yes { IsTrue result → IsLabelText text.now }
    ensures no { result ≡ false → ¬ IsLabelText text.now }
{
    if text.is_empty() || !text[0].is_ascii_alphabetic() {
        return false;
    }
    if word_len(text) < text.len() {
        return false;
    }
    match keyword_of(text) {
        None => true,
        Some(_) => false,
    }
}
