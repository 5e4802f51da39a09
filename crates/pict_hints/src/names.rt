// What is told of a name that isn't bound.

ghost use Rattle.std.specs.Prelude.{◌≤◌, IfOk, length};
ghost use Rattle.pict_syntax.specs.declared.limits.TheConstants.{TEXT_LIMIT};

use crate::distance::is_near;
use crate::piece::{Piece, kind_at, pieces_of};
use crate::writing::{part, put_perhaps, put_place};
use pict_follow::Class;
use pict_lex::{LexError, lex};
use pict_report::prelude;
use pict_syntax::{Keyword, Names, Primitive, Sign, TEXT_LIMIT};
use std::alloc::{AllocError, Global};

/// How many near names are told.
const NEAR: usize = 3;

/// The names of the base types.
const BASES: [&str; 5] = ["Int", "Char", "String", "Bool", "Top"];

/// What kind of name is looked for.
#[derive(Clone, Copy, PartialEq, Eq, Debug)]
pub enum Sort {
    Values,
    Types,
}

/// A text with its tokens.
#[derive(Drop)]
struct Source<'a> {
    text: &'a [u8],
    pieces: Vec<Piece>,
}

/// The tokens of a text; none where it has none.
fn source_of(alloc: Global, text: &[u8]) -> Result<Source<'_>, AllocError>
    requires short { length text.now ≤ TEXT_LIMIT }
    ensures { IfOk result (λ source. length source.text.now ≤ TEXT_LIMIT) }
{
    let mut names = Names::new(alloc);
    match lex(alloc, &mut names, text, 1) {
        Err(LexError::Memory) => Err(AllocError),
        Err(LexError::Named(_, _)) => Ok(Source {
            text,
            pieces: Vec::new(alloc),
        }),
        Ok(tokens) => Ok(Source {
            text,
            pieces: pieces_of(alloc, &tokens)?,
        }),
    }
}

/// Whether the token before a piece is of a kind that binds a name behind it.
fn binds_behind(class: Class, sort: Sort) -> bool {
    match (sort, class) {
        (Sort::Values, Class::Key(Keyword::New | Keyword::Def | Keyword::And | Keyword::Val)) =>
            true,
        (Sort::Values, Class::Mark(Sign::Question | Sign::QuestionStar | Sign::Backslash)) => true,
        (Sort::Types, Class::Key(Keyword::TypeDefinition)) => true,
        (Sort::Types, Class::Mark(Sign::Hash)) => true,
        _ => false,
    }
}

/// Whether the piece with this number is a name that is bound there, as far as its neighbours say so.
fn is_binder(pieces: &[Piece], index: usize, sort: Sort) -> bool {
    if !matches!(kind_at(pieces, index), Some(Class::Word)) || index == 0 {
        return false;
    }
    let before = kind_at(pieces, index.saturating_sub(1));
    if let Some(class) = before {
        if binds_behind(class, sort) {
            return true;
        }
    }
    match sort {
        Sort::Values => matches!(
            kind_at(pieces, index.saturating_add(1)),
            Some(Class::Mark(Sign::Colon))
        ),
        Sort::Types => {
            let operator = kind_at(pieces, index.saturating_sub(2));
            matches!(before, Some(Class::Mark(Sign::OpenParen)))
                && matches!(operator, Some(Class::Key(Keyword::TypeDefinition)))
        }
    }
}

impl Source<'_> {
    /// The bytes of a piece.
    fn bytes(&self, piece: &Piece) -> &[u8] {
        part(self.text, piece.start as usize, piece.end as usize)
    }

    /// Where this name is bound first from this byte on.
    fn bound_from(&self, name: &[u8], from: u32, sort: Sort) -> Option<u32> {
        for (index, piece) in self.pieces.iter().enumerate() {
            let here = piece.start >= from && self.bytes(piece) == name;
            if here && is_binder(&self.pieces, index, sort) {
                return Some(piece.start);
            }
        }
        None
    }
}

/// Names that are near another one.
#[derive(Drop)]
struct Nearest {
    found: Vec<Vec<u8>>,
}

impl Nearest {
    /// Adds a name, if it is near, isn't there yet and few are there.
    fn try_name(&mut self, alloc: Global, name: &[u8], other: &[u8]) -> Result<(), AllocError> {
        if self.found.len() >= NEAR || !is_near(alloc, name, other)? {
            return Ok(());
        }
        for have in &self.found {
            if have.as_slice() == other {
                return Ok(());
            }
        }
        self.found.push(Vec::from_slice(alloc, other)?)?;
        Ok(())
    }

    /// Tries the names that a text binds before this byte.
    fn try_source(
        &mut self,
        alloc: Global,
        name: &[u8],
        source: &Source<'_>,
        until: u32,
        sort: Sort,
    ) -> Result<(), AllocError> {
        for (index, piece) in source.pieces.iter().enumerate() {
            if piece.start < until && is_binder(&source.pieces, index, sort) {
                self.try_name(alloc, name, source.bytes(piece))?;
            }
        }
        Ok(())
    }

    /// Tries the name of the primitive with this number, if there is one, and its name is a word.
    fn try_primitive(&mut self, alloc: Global, name: &[u8], number: u8) -> Result<(), AllocError> {
        match Primitive::numbered(u64::from(number)) {
            Some(primitive) => match primitive.name() {
                [b'a'..=b'z', ..] => self.try_name(alloc, name, primitive.name()),
                _ => Ok(()),
            },
            None => Ok(()),
        }
    }

    /// Writes the names, if there are any.
    fn put(&self, out: &mut Vec<u8>) -> Result<(), AllocError> {
        if self.found.is_empty() {
            return Ok(());
        }
        out.extend_from_slice(b"  names near it: ")?;
        for (index, name) in self.found.iter().enumerate() {
            if index > 0 {
                out.extend_from_slice(b", ")?;
            }
            out.push(b'`')?;
            out.extend_from_slice(name)?;
            out.push(b'`')?;
        }
        out.push(b'\n')?;
        Ok(())
    }
}

/// Writes what may be meant by a name that isn't bound.
pub fn put_unbound(
    alloc: Global,
    out: &mut Vec<u8>,
    text: &[u8],
    start: u32,
    end: u32,
    bare: bool,
    sort: Sort,
) -> Result<(), AllocError>
    requires short { length text.now ≤ TEXT_LIMIT }
{
    let name = part(text, start as usize, end as usize);
    let own = source_of(alloc, text)?;
    let given = source_of(alloc, prelude())?;
    if bare && given.bound_from(name, 0, sort).is_some() {
        return put_bare(out, name);
    }
    if sort == Sort::Values {
        put_later(out, &own, name, end)?;
    }
    let mut nearest = Nearest {
        found: Vec::new(alloc),
    };
    nearest.try_source(alloc, name, &own, start, sort)?;
    if !bare {
        nearest.try_source(alloc, name, &given, u32::MAX, sort)?;
    }
    try_given(alloc, &mut nearest, name, sort)?;
    match other_name(name, sort) {
        Some(hint) => put_perhaps(out, hint.as_bytes()),
        None => nearest.put(out),
    }
}

/// Tries the names of primitives or of base types.
fn try_given(
    alloc: Global,
    nearest: &mut Nearest,
    name: &[u8],
    sort: Sort,
) -> Result<(), AllocError> {
    match sort {
        Sort::Values => {
            for number in 0..=u8::MAX {
                nearest.try_primitive(alloc, name, number)?;
            }
        }
        Sort::Types => {
            for other in BASES {
                nearest.try_name(alloc, name, other.as_bytes())?;
            }
        }
    }
    Ok(())
}

/// Writes that the prelude has the name.
fn put_bare(out: &mut Vec<u8>, name: &[u8]) -> Result<(), AllocError> {
    out.extend_from_slice(b"  the prelude has `")?;
    out.extend_from_slice(name)?;
    out.extend_from_slice(b"`, and `--bare` leaves the prelude out\n")
}

/// Writes where the name is bound later, if it is.
fn put_later(out: &mut Vec<u8>, own: &Source<'_>, name: &[u8], end: u32) -> Result<(), AllocError>
    requires short { length own.now.text.now ≤ TEXT_LIMIT }
{
    match own.bound_from(name, end, Sort::Values) {
        None => Ok(()),
        Some(place) => {
            out.extend_from_slice(b"  `")?;
            out.extend_from_slice(name)?;
            out.extend_from_slice(b"` is bound later, at ")?;
            put_place(out, own.text, place)?;
            out.extend_from_slice(b"; two that use each other are one `def .. and ..`\n")
        }
    }
}

/// What a name of another language is called here.
fn other_name(name: &[u8], sort: Sort) -> Option<&'static str> {
    match sort {
        Sort::Values => other_value(name),
        Sort::Types => other_type(name),
    }
}

fn other_value(name: &[u8]) -> Option<&'static str> {
    match name {
        b"println" | b"printf" | b"putStrLn" | b"echo" | b"write" | b"puts" => {
            Some("`print!\"..\"` prints a string, `printi!n` a number")
        }
        b"or" | b"xor" => Some("one of a and b is `if a then true else b`"),
        b"null" | b"None" | b"unit" => Some("the empty record is `[]`"),
        b"True" => Some("`true`"),
        b"False" => Some("`false`"),
        _ => None,
    }
}

fn other_type(name: &[u8]) -> Option<&'static str> {
    match name {
        b"int" | b"integer" | b"Integer" | b"Number" | b"Nat" => Some("`Int`"),
        b"string" | b"str" | b"Text" => Some("`String`"),
        b"bool" | b"boolean" | b"Boolean" => Some("`Bool`"),
        b"char" => Some("`Char`"),
        b"unit" | b"Unit" | b"void" => Some("the type of the empty record, `[]`"),
        b"any" | b"Any" => Some("`Top`"),
        b"Chan" | b"Channel" | b"chan" => Some("a channel for values of T has the type `^T`"),
        _ => None,
    }
}
