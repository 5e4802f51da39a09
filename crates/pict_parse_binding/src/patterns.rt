// What each token leads to where a pattern is read.
// A token that fits nothing that is open gives `Fault::Unexpected`, want of memory `Fault::Memory`.

ghost use Rattle.std.specs.Prelude.{◌≡◌, None};
ghost use Rattle.pict_syntax.specs.PlainTrees.{annotation_of, pat_of, field_pats_of};
ghost use Rattle.pict_automaton.specs.Machine.{begin_pattern, put_pattern, step_pattern_open, step_pattern_rec, step_pattern_folded, close_patterns, step_patterns, step_pattern_labels, step_pattern_label, step_binders, step_let_pattern, step_abstraction_pattern, step_pattern, step_bind, step_any, step_pattern_name};
ghost use Rattle.pict_parse_states.specs.View.{binders_in, pats_in, labelled_pats_in, GivesState, declaration_place_of, abstraction_place_of, pattern_place_of, patterns_place_of};

use pict_parse_states::{
    AbstractionPlace, BinderPlace, DeclarationPlace, Fault, FieldPatternsPlace, PatternPlace,
    Place, ProcessPlace, State, TypePlace, ValuePlace,
};
use pict_syntax::{
    FieldPats, Id, Keyword, LabelledPat, Pat, RType, Sign, Span, TokenKind, TypeBinder, join,
};
use std::alloc::Global;

/// A token that begins a pattern: an identifier, `_`, `[` or `(`.
#[tactic(auto, using(pict_syntax::proofs::PatternLists::pattern_lists))]
pub fn begin_pattern(
    alloc: Global,
    kind: &TokenKind,
    at: Span,
    place: Box<PatternPlace>,
) -> Result<State, Fault>
    ensures { GivesState result (begin_pattern kind.now at (pattern_place_of place.value)) }
{
    match kind {
        TokenKind::Identifier(name) => Ok(State::HaveBind(
            Id {
                name: *name,
                span: at,
            },
            place,
        )),
        TokenKind::Sign(Sign::Underscore) => Ok(State::HaveAny(at, place)),
        TokenKind::Sign(Sign::OpenBracket) => {
            let place = Box::new(alloc, FieldPatternsPlace::Record(at, place))?;
            Ok(State::AfterBinders(place, Vec::new(alloc)))
        }
        TokenKind::Sign(Sign::OpenParen) => Ok(State::PatternOpen(at, place)),
        _ => Err(Fault::Unexpected),
    }
}

/// A whole pattern is put where it stands.
#[tactic(auto, using(pict_syntax::proofs::PatternLists::pattern_lists))]
pub fn put_pattern(pat: Pat, place: Box<PatternPlace>) -> Result<State, Fault>
    ensures { GivesState result (put_pattern (pat_of pat) (pattern_place_of place.value)) }
{
    match Box::into_inner(place) {
        PatternPlace::Let(from, place) => Ok(State::LetPattern(from, pat, place)),
        PatternPlace::Abstraction(place) => Ok(State::AbstractionPattern(pat, place)),
        PatternPlace::Fold(opened, annotation, place) => Ok(State::PatternFolded(
            opened, annotation, pat, place,
        )),
        PatternPlace::Field(place, binders, mut pats) => {
            pats.push(pat)?;
            Ok(State::AfterPatterns(place, binders, pats))
        }
        PatternPlace::Label(place, binders, pats, mut labelled, label) => {
            labelled.push(LabelledPat { label, pat })?;
            Ok(State::AfterPatternLabels(place, binders, pats, labelled))
        }
    }
}

/// Behind the `(` of a pattern: `rec` begins a fold pattern.
pub fn step_pattern_open(
    kind: &TokenKind,
    _at: Span,
    opened: Span,
    place: Box<PatternPlace>,
) -> Result<State, Fault>
    ensures { GivesState result (step_pattern_open kind.now _at opened (pattern_place_of place.value)) }
{
    match kind {
        TokenKind::Keyword(Keyword::Rec) => Ok(State::PatternRec(opened, place)),
        _ => Err(Fault::Unexpected),
    }
}

/// Behind the `(rec` of a fold pattern: `:` leads to its annotation, any other token must begin the pattern in it.
pub fn step_pattern_rec(
    alloc: Global,
    kind: &TokenKind,
    at: Span,
    opened: Span,
    place: Box<PatternPlace>,
) -> Result<State, Fault>
    ensures { GivesState result (step_pattern_rec kind.now at opened (pattern_place_of place.value)) }
{
    match kind {
        TokenKind::Sign(Sign::Colon) => Ok(State::NeedType(Box::new(
            alloc,
            TypePlace::PatternFold(opened, place),
        )?)),
        _ => {
            let place = Box::new(alloc, PatternPlace::Fold(opened, RType { of: None }, place))?;
            begin_pattern(alloc, kind, at, place)
        }
    }
}

/// Behind the pattern in a fold pattern: `)` ends the fold pattern.
#[tactic(auto, using(pict_syntax::proofs::PatternLists::pattern_lists), unfolding(pict_syntax::specs::PlainTrees::pat_of))]
pub fn step_pattern_folded(
    alloc: Global,
    kind: &TokenKind,
    at: Span,
    opened: Span,
    annotation: RType,
    pat: Pat,
    place: Box<PatternPlace>,
) -> Result<State, Fault>
    ensures { GivesState result (step_pattern_folded kind.now at opened (annotation_of annotation) (pat_of pat) (pattern_place_of place.value)) }
{
    match kind {
        TokenKind::Sign(Sign::CloseParen) => {
            let pat = Box::new(alloc, pat)?;
            put_pattern(Pat::Fold(join(opened, at), annotation, pat), place)
        }
        _ => Err(Fault::Unexpected),
    }
}

// The patterns of fields end with this sign.
#[tactic(auto, using(pict_syntax::proofs::PatternLists::pattern_lists), unfolding(pict_syntax::specs::PlainTrees::pat_of))]
fn close_patterns(
    alloc: Global,
    sign: Sign,
    at: Span,
    place: Box<FieldPatternsPlace>,
    fields: FieldPats,
) -> Result<State, Fault>
    ensures { GivesState result (close_patterns sign at (patterns_place_of place.value) (field_pats_of fields)) }
{
    match (sign, Box::into_inner(place)) {
        (Sign::CloseBracket, FieldPatternsPlace::Record(opened, place)) => {
            let fields = Box::new(alloc, fields)?;
            put_pattern(Pat::Fields(join(opened, at), fields), place)
        }
        (Sign::CloseParen, FieldPatternsPlace::Parameters(opened, place)) => Ok(
            State::AbstractionParameters(opened, fields, place),
        ),
        _ => Err(Fault::Unexpected),
    }
}

/// Behind the positional patterns so far: `]` or `)` ends the fields, a name is a pattern or a label, any other token must begin a pattern.
#[tactic(auto, using(pict_syntax::proofs::PatternLists::pattern_lists))]
pub fn step_patterns(
    alloc: Global,
    kind: &TokenKind,
    at: Span,
    place: Box<FieldPatternsPlace>,
    binders: Vec<TypeBinder>,
    pats: Vec<Pat>,
) -> Result<State, Fault>
    ensures { GivesState result (step_patterns kind.now at (patterns_place_of place.value) (binders_in binders) (pats_in pats)) }
{
    match kind {
        TokenKind::Sign(Sign::CloseBracket) => {
            close_patterns(
                alloc,
                Sign::CloseBracket,
                at,
                place,
                FieldPats {
                    binders,
                    positional: pats,
                    labelled: Vec::new(alloc),
                },
            )
        }
        TokenKind::Sign(Sign::CloseParen) => {
            close_patterns(
                alloc,
                Sign::CloseParen,
                at,
                place,
                FieldPats {
                    binders,
                    positional: pats,
                    labelled: Vec::new(alloc),
                },
            )
        }
        TokenKind::Identifier(name) => Ok(State::PatternName(
            place,
            binders,
            pats,
            Id {
                name: *name,
                span: at,
            },
        )),
        _ => {
            let place = Box::new(alloc, PatternPlace::Field(place, binders, pats))?;
            begin_pattern(alloc, kind, at, place)
        }
    }
}

/// Behind the labelled patterns so far: `]` or `)` ends the fields, a name is the next label.
#[tactic(auto, using(pict_syntax::proofs::PatternLists::pattern_lists))]
pub fn step_pattern_labels(
    alloc: Global,
    kind: &TokenKind,
    at: Span,
    place: Box<FieldPatternsPlace>,
    binders: Vec<TypeBinder>,
    pats: Vec<Pat>,
    labelled: Vec<LabelledPat>,
) -> Result<State, Fault>
    ensures { GivesState result
        (step_pattern_labels kind.now at (patterns_place_of place.value) (binders_in binders) (pats_in pats) (labelled_pats_in labelled)) }
{
    match kind {
        TokenKind::Sign(Sign::CloseBracket) => {
            close_patterns(
                alloc,
                Sign::CloseBracket,
                at,
                place,
                FieldPats {
                    binders,
                    positional: pats,
                    labelled,
                },
            )
        }
        TokenKind::Sign(Sign::CloseParen) => {
            close_patterns(
                alloc,
                Sign::CloseParen,
                at,
                place,
                FieldPats {
                    binders,
                    positional: pats,
                    labelled,
                },
            )
        }
        TokenKind::Identifier(name) => Ok(State::PatternLabel(
            place,
            binders,
            pats,
            labelled,
            Id {
                name: *name,
                span: at,
            },
        )),
        _ => Err(Fault::Unexpected),
    }
}

/// Behind a label: `=` leads to its pattern.
pub fn step_pattern_label(
    alloc: Global,
    kind: &TokenKind,
    _at: Span,
    place: Box<FieldPatternsPlace>,
    binders: Vec<TypeBinder>,
    pats: Vec<Pat>,
    labelled: Vec<LabelledPat>,
    label: Id,
) -> Result<State, Fault>
    ensures { GivesState result (step_pattern_label kind.now _at (patterns_place_of place.value)
        (binders_in binders) (pats_in pats) (labelled_pats_in labelled) label) }
{
    match kind {
        TokenKind::Sign(Sign::Equals) => {
            let place = PatternPlace::Label(place, binders, pats, labelled, label);
            Ok(State::NeedPattern(Box::new(alloc, place)?))
        }
        _ => Err(Fault::Unexpected),
    }
}

/// Behind the type binders so far: `#` begins one more, any other token is read among the patterns.
#[tactic(auto, using(pict_syntax::proofs::PatternLists::pattern_lists))]
pub fn step_binders(
    alloc: Global,
    kind: &TokenKind,
    at: Span,
    place: Box<FieldPatternsPlace>,
    binders: Vec<TypeBinder>,
) -> Result<State, Fault>
    ensures { GivesState result (step_binders kind.now at (patterns_place_of place.value) (binders_in binders)) }
{
    match kind {
        TokenKind::Sign(Sign::Hash) => Ok(State::BinderHash(
            at,
            Box::new(alloc, BinderPlace::Patterns(place, binders))?,
        )),
        _ => step_patterns(alloc, kind, at, place, binders, Vec::new(alloc)),
    }
}

/// Behind the pattern of a `val`: `=` leads to its value.
pub fn step_let_pattern(
    alloc: Global,
    kind: &TokenKind,
    _at: Span,
    from: Span,
    pat: Pat,
    place: DeclarationPlace,
) -> Result<State, Fault>
    ensures { GivesState result (step_let_pattern kind.now _at from (pat_of pat) (declaration_place_of place)) }
{
    match kind {
        TokenKind::Sign(Sign::Equals) => {
            let place = Box::new(alloc, ValuePlace::Let(from, pat, place))?;
            Ok(State::Need(Place::Value(place)))
        }
        _ => Err(Fault::Unexpected),
    }
}

/// Behind the pattern of a process abstraction: `=` leads to its process.
pub fn step_abstraction_pattern(
    alloc: Global,
    kind: &TokenKind,
    _at: Span,
    pat: Pat,
    place: Box<AbstractionPlace>,
) -> Result<State, Fault>
    ensures { GivesState result (step_abstraction_pattern kind.now _at (pat_of pat) (abstraction_place_of place.value)) }
{
    match kind {
        TokenKind::Sign(Sign::Equals) => {
            let place = Box::new(alloc, ProcessPlace::Process(pat, place))?;
            Ok(State::Need(Place::Process(place)))
        }
        _ => Err(Fault::Unexpected),
    }
}

// The token behind a whole pattern.
#[tactic(auto, using(pict_syntax::proofs::PatternLists::pattern_lists))]
fn step_pattern(
    alloc: Global,
    kind: &TokenKind,
    at: Span,
    pat: Pat,
    place: Box<PatternPlace>,
) -> Result<State, Fault>
    ensures { GivesState result (step_pattern kind.now at (pat_of pat) (pattern_place_of place.value)) }
{
    match Box::into_inner(place) {
        PatternPlace::Let(from, place) => step_let_pattern(alloc, kind, at, from, pat, place),
        PatternPlace::Abstraction(place) => step_abstraction_pattern(alloc, kind, at, pat, place),
        PatternPlace::Fold(opened, annotation, place) => {
            step_pattern_folded(alloc, kind, at, opened, annotation, pat, place)
        }
        PatternPlace::Field(place, binders, mut pats) => {
            pats.push(pat)?;
            step_patterns(alloc, kind, at, place, binders, pats)
        }
        PatternPlace::Label(place, binders, pats, mut labelled, label) => {
            labelled.push(LabelledPat { label, pat })?;
            step_pattern_labels(alloc, kind, at, place, binders, pats, labelled)
        }
    }
}

/// Behind a name that is a pattern: `:` leads to its annotation, any other token is read behind the whole pattern.
#[tactic(auto, using(pict_syntax::proofs::PatternLists::pattern_lists))]
pub fn step_bind(
    alloc: Global,
    kind: &TokenKind,
    at: Span,
    name: Id,
    place: Box<PatternPlace>,
) -> Result<State, Fault>
    ensures { GivesState result (step_bind kind.now at name (pattern_place_of place.value)) }
{
    match kind {
        TokenKind::Sign(Sign::Colon) => Ok(State::NeedType(Box::new(
            alloc,
            TypePlace::Bind(name, place),
        )?)),
        _ => step_pattern(
            alloc,
            kind,
            at,
            Pat::Bind(name.span, name, RType { of: None }),
            place,
        ),
    }
}

/// Behind a `_`: `:` leads to its annotation, any other token is read behind the whole pattern.
#[tactic(auto, using(pict_syntax::proofs::PatternLists::pattern_lists))]
pub fn step_any(
    alloc: Global,
    kind: &TokenKind,
    at: Span,
    from: Span,
    place: Box<PatternPlace>,
) -> Result<State, Fault>
    ensures { GivesState result (step_any kind.now at from (pattern_place_of place.value)) }
{
    match kind {
        TokenKind::Sign(Sign::Colon) => Ok(State::NeedType(Box::new(
            alloc,
            TypePlace::Any(from, place),
        )?)),
        _ => step_pattern(alloc, kind, at, Pat::Any(from, RType { of: None }), place),
    }
}

/// Behind a name among positional patterns: `=` makes it the first label, any other token is read behind the name as a pattern.
#[tactic(auto, using(pict_syntax::proofs::PatternLists::pattern_lists))]
pub fn step_pattern_name(
    alloc: Global,
    kind: &TokenKind,
    at: Span,
    place: Box<FieldPatternsPlace>,
    binders: Vec<TypeBinder>,
    pats: Vec<Pat>,
    name: Id,
) -> Result<State, Fault>
    ensures { GivesState result (step_pattern_name kind.now at (patterns_place_of place.value) (binders_in binders) (pats_in pats) name) }
{
    match kind {
        TokenKind::Sign(Sign::Equals) => {
            let place = PatternPlace::Label(place, binders, pats, Vec::new(alloc), name);
            Ok(State::NeedPattern(Box::new(alloc, place)?))
        }
        _ => {
            let place = Box::new(alloc, PatternPlace::Field(place, binders, pats))?;
            step_bind(alloc, kind, at, name, place)
        }
    }
}
