// The heap: texts and records, which never change.
ghost use Rattle.std.specs.Prelude.{◌≡◌, ◌+◌, ◌-◌, ◌^◌, ◌<◌, ◌≤◌, ◌++◌, ℕ, [], eqb, map, length, All, IfSome, IsSome, slice_get, slice_range, take, drop, OnOk, OnErr, vec_len};
ghost use Rattle.std.specs.Vec.{vec_capacity};
ghost use Rattle.std.specs.List.{IsDistinct};
ghost use Rattle.std.specs.List.Sorted.{IsPermutation, IsNonDecreasingBy};
ghost use Rattle.std.specs.Option.{option_map};
ghost use Rattle.pict_core.specs.Term as term;
ghost use Rattle.pict_heap.specs.HeapState.{value_of, word_with_label, text_of, IsWord, KeepsWords, UsesRoom, GrowsBy, record_of};
ghost use Rattle.pict_heap.specs.Layout.{IsWithin, slice_of_word, AreRising, label_of};
ghost use Rattle.pict_heap.specs.Fields.{positional_field, labelled_field, labelled_field_at, positional_count, text_bytes};

use crate::word::Word;
use pict_syntax::Name;
use std::alloc::{AllocError, Global};
use std::marker::Model;

/// A slice of a list, from `start` to before `end`.
#[derive(Clone, Copy)]
struct Slice {
    start: usize,
    end: usize,
}

/// A record: a slice of the words, and a slice of the labelled words.
#[derive(Clone, Copy)]
struct Record {
    positional: Slice,
    labelled: Slice,
}

/// Texts and records, which never change. Contracts see, for each word, the value that it stands for, how many
/// texts, bytes of texts, records and fields of records there are, and the room for more.
#[derive(Drop)]
pub struct Heap {
    bytes: Vec<u8>,
    texts: Vec<Slice>,
    words: Vec<Word>,
    labelled: Vec<(Name, Word)>,
    sorted: Vec<(Name, Word)>,
    records: Vec<Record>,
}

impl Model for Heap {
    ghost use Rattle.pict_heap.specs.HeapState.{HeapState};

    ghost Value = { HeapState };

    ghost use Rattle.pict_heap.specs.Layout.{heap_state, IsHeapSound};

    ghost view = { heap_state };

    ghost invariant = { IsHeapSound };
}

impl Heap {
    /// A heap with no text and no record. Takes no memory.
    pub fn new(alloc: Global) -> Heap
        ensures texts { result.texts ≡ [] }
        ensures records { result.records ≡ [] }
    {
        Heap {
            bytes: Vec::new(alloc),
            texts: Vec::new(alloc),
            words: Vec::new(alloc),
            labelled: Vec::new(alloc),
            sorted: Vec::new(alloc),
            records: Vec::new(alloc),
        }
    }

    /// Makes room for at least so many records, fields of records, texts, and bytes of texts. Nothing is added. Where memory
    /// is wanting, some of the room may have been made.
    pub fn reserve(
        &mut self,
        records: u64,
        fields: u64,
        texts: u64,
        bytes: u64,
    ) -> Result<(), AllocError>
        ensures records { OnOk result (records ≤ self.new.room.records) }
        ensures fields { OnOk result (fields ≤ self.new.room.fields) }
        ensures texts { OnOk result (texts ≤ self.new.room.texts) }
        ensures bytes { OnOk result (bytes ≤ self.new.room.bytes) }
        ensures rest { self.new ≡ record self.old { room = self.new.room } }
        ensures room { UsesRoom self.old.room self.new.room 0 0 0 0 }
        ensures grows { GrowsBy self.old.room self.new.room 0 0 0 0 }
    {
        self.records.reserve(records as usize)?;
        self.words.reserve(fields as usize)?;
        self.labelled.reserve(fields as usize)?;
        self.sorted.reserve(fields as usize)?;
        self.texts.reserve(texts as usize)?;
        self.bytes.reserve(bytes as usize)
    }

    /// A new record of these fields. Its labels stand in the order given. Nothing else is added. Takes no memory.
    pub fn add_record(&mut self, positional: &[Word], labelled: &[(Name, Word)]) -> Word
        requires room { 1 ≤ self.old.room.records }
        requires fields { length positional.now + length labelled.now ≤ self.old.room.fields }
        requires countable { length positional.now < 2 ^ 32 }
        requires words { All (IsWord self.old) positional.now }
        requires labelled_words { All (λ field. IsWord self.old field.1) labelled.now }
        requires distinct { IsDistinct eqb (map (λ field. field.0.0) labelled.now) }
        ensures word { IsWord self.new result }
        ensures value { value_of self.new result ≡ record_of self.old positional.now labelled.now }
        ensures keeps { KeepsWords self.old self.new }
        ensures room { UsesRoom self.old.room self.new.room 1 (length positional.now + length labelled.now) 0 0 }
        ensures grows { GrowsBy self.old.room self.new.room 1 (length positional.now + length labelled.now) 0 0 }
    {
        let number = self.records.len() as u64;
        let positional = append(&mut self.words, positional);
        let by_label = append(&mut self.sorted, labelled);
        sort_from(&mut self.sorted, by_label.start);
        let labelled = append(&mut self.labelled, labelled);
        self.records.push_reserved(Record {
            positional,
            labelled,
        });
        Word::Fields(number)
    }

    /// A new text of these bytes. Nothing else is added. Takes no memory.
    pub fn add_text(&mut self, bytes: &[u8]) -> Word
        requires room { 1 ≤ self.old.room.texts }
        requires bytes { length bytes.now ≤ self.old.room.bytes }
        ensures word { IsWord self.new result }
        ensures value { value_of self.new result ≡ term.Text bytes.now }
        ensures keeps { KeepsWords self.old self.new }
        ensures room { UsesRoom self.old.room self.new.room 0 0 1 (length bytes.now) }
        ensures grows { GrowsBy self.old.room self.new.room 0 0 1 (length bytes.now) }
    {
        let number = self.texts.len() as u64;
        let text = append(&mut self.bytes, bytes);
        self.texts.push_reserved(text);
        Word::Text(number)
    }

    /// The text of the bytes of `a` followed by those of `b`, which is added. Takes no memory.
    pub fn join_texts(&mut self, a: Word, b: Word) -> Word
        requires room { 1 ≤ self.old.room.texts }
        requires words { IsWord self.old a × IsWord self.old b }
        requires first { IsSome (text_bytes (value_of self.old a)) }
        requires second { IsSome (text_bytes (value_of self.old b)) }
        requires bytes { length (text_of self.old a) + length (text_of self.old b) ≤ self.old.room.bytes }
        ensures word { IsWord self.new result }
        ensures value { value_of self.new result ≡ term.Text (text_of self.old a ++ text_of self.old b) }
        ensures keeps { KeepsWords self.old self.new }
        ensures room { UsesRoom self.old.room self.new.room 0 0 1 (length (text_of self.old a) + length (text_of self.old b)) }
        ensures grows { GrowsBy self.old.room self.new.room 0 0 1 (length (text_of self.old a) + length (text_of self.old b)) }
    {
        let number = self.texts.len() as u64;
        let first = slice_of(&self.texts, a);
        let second = slice_of(&self.texts, b);
        let text = append_slices(&mut self.bytes, first, second);
        self.texts.push_reserved(text);
        Word::Text(number)
    }

    /// The positional field at index `i`, from 0, of a record, or None exactly where the value has no such field. Takes
    /// no memory.
    pub fn positional(&self, w: Word, i: u32) -> Option<Word>
        requires { IsWord self.now w }
        ensures value { option_map (value_of self.now) result ≡ positional_field (value_of self.now w) i }
        ensures word { IfSome result (IsWord self.now) }
    {
        match w {
            Word::Fields(number) => {
                let slice = self.records[number as usize].positional;
                item(&self.words[slice.start..slice.end], i)
            }
            _ => None,
        }
    }

    /// The field with this label of a record, or None exactly where the value has no such field. Takes no memory.
    pub fn labelled(&self, w: Word, l: Name) -> Option<Word>
        requires { IsWord self.now w }
        ensures value { option_map (value_of self.now) result ≡ labelled_field (value_of self.now w) l.0 }
        ensures word { IfSome result (IsWord self.now) }
    {
        match w {
            Word::Fields(number) => {
                let slice = self.records[number as usize].labelled;
                with_label(&self.sorted[slice.start..slice.end], l)
            }
            _ => None,
        }
    }

    /// The labelled field at index `i`, from 0, of a record, in the record's own order, or None exactly where the value has
    /// no such field. Takes no memory.
    pub fn label_at(&self, w: Word, i: u32) -> Option<(Name, Word)>
        requires { IsWord self.now w }
        ensures value { option_map (λ field. (field.0.0, value_of self.now field.1)) result ≡ labelled_field_at (value_of self.now w) i }
        ensures word { IfSome result (λ field. IsWord self.now field.1) }
    {
        match w {
            Word::Fields(number) => {
                let slice = self.records[number as usize].labelled;
                item(&self.labelled[slice.start..slice.end], i)
            }
            _ => None,
        }
    }

    /// The number of positional fields of a record, or None exactly where the value is no record. Takes no memory.
    pub fn count(&self, w: Word) -> Option<u32>
        requires { IsWord self.now w }
        ensures { result ≡ positional_count (value_of self.now w) }
    {
        match w {
            Word::Fields(number) => {
                let slice = self.records[number as usize].positional;
                Some((slice.end - slice.start) as u32)
            }
            _ => None,
        }
    }

    /// The bytes of a text, or None exactly where the value is no text. Takes no memory.
    pub fn bytes(&self, w: Word) -> Option<&[u8]>
        requires { IsWord self.now w }
        ensures { option_map (λ bytes. bytes.now) result ≡ text_bytes (value_of self.now w) }
    {
        match w {
            Word::Text(number) => {
                let slice = self.texts[number as usize];
                Some(&self.bytes[slice.start..slice.end])
            }
            _ => None,
        }
    }
}

// The slice of the bytes that a text is, and an empty slice for any other word.
fn slice_of(texts: &[Slice], w: Word) -> Slice
    requires { (number : ℕ) → w ≡ Word.Text number → number < length texts.now }
    ensures { result ≡ slice_of_word texts.now w }
{
    match w {
        Word::Text(number) => texts[number as usize],
        _ => Slice { start: 0, end: 0 },
    }
}

// Appends two slices of a list that has room for them, and answers the slice that they are.
fn append_slices(list: &mut Vec<u8>, first: Slice, second: Slice) -> Slice
    requires first { IsWithin (vec_len list.old) first }
    requires second { IsWithin (vec_len list.old) second }
    requires room { vec_len list.old + (first.end - first.start) + (second.end - second.start) ≤ vec_capacity list.old }
    ensures items { list.new.items
        ≡ list.old.items ++ (slice_range list.old.items first.start first.end ++ slice_range list.old.items second.start second.end) }
    ensures len { vec_len list.new ≡ vec_len list.old + (first.end - first.start) + (second.end - second.start) }
    ensures capacity { vec_capacity list.old ≤ vec_capacity list.new }
    ensures slice { result ≡ record { start = vec_len list.old; end = vec_len list.new } }
{
    let start = list.len();
    let _ = list.extend_from_within(first.start..first.end);
    let _ = list.extend_from_within(second.start..second.end);
    Slice {
        start,
        end: list.len(),
    }
}

// The item at an index, if there is one.
fn item<T: Copy>(items: &[T], i: u32) -> Option<T>
    ensures { result ≡ slice_get items.now i }
{
    if (i as usize) < items.len() {
        Some(items[i as usize])
    } else {
        None
    }
}

// The word with a label, among fields whose labels rise.
fn with_label(fields: &[(Name, Word)], label: Name) -> Option<Word>
    requires { AreRising fields.now }
    ensures { result ≡ word_with_label label.0 fields.now }
{
    match fields.binary_search_by_key(&label.0, |field| field.0.0) {
        Ok(place) => Some(fields[place].1),
        Err(_) => None,
    }
}

// Sorts a list by label, from an index on.
fn sort_from(list: &mut Vec<(Name, Word)>, start: usize)
    requires { start ≤ vec_len list.old }
    ensures before { take start list.new.items ≡ take start list.old.items }
    ensures after { IsPermutation (drop start list.old.items) (drop start list.new.items) }
    ensures sorted { IsNonDecreasingBy label_of (drop start list.new.items) }
    ensures len { vec_len list.new ≡ vec_len list.old }
    ensures capacity { vec_capacity list.new ≡ vec_capacity list.old }
{
    sort_fields(&mut list[start..]);
}

// Sorts fields by label.
fn sort_fields(fields: &mut [(Name, Word)])
    ensures permutation { IsPermutation fields.old fields.new }
    ensures sorted { IsNonDecreasingBy label_of fields.new }
    ensures len { length fields.new ≡ length fields.old }
{
    fields.sort_unstable_by_key(|field| field.0.0);
}

// Appends items to a list that has room for them, and answers the slice that they are.
fn append<T: Copy>(list: &mut Vec<T>, items: &[T]) -> Slice
    requires { vec_len list.old + length items.now ≤ vec_capacity list.old }
    ensures items { list.new.items ≡ list.old.items ++ items.now }
    ensures len { vec_len list.new ≡ vec_len list.old + length items.now }
    ensures capacity { vec_capacity list.old ≤ vec_capacity list.new }
    ensures slice { result ≡ record { start = vec_len list.old; end = vec_len list.old + length items.now } }
{
    let start = list.len();
    let _ = list.extend_from_slice(items);
    Slice {
        start,
        end: start + items.len(),
    }
}
