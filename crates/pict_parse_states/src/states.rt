// The states of the parser, and why it stops.

use crate::places::{
    AbstractionPlace, BinderPlace, DeclarationPlace, EitherPlace, FieldPatternsPlace, FieldsPlace,
    PatternPlace, Place, ProcessPlaces, Side, TypePlace, Wait,
};
use pict_syntax::{
    Abs, Chan, Dec, Definition, FieldPats, Id, KindTree, LabelledPat, LabelledType, LabelledVal,
    Mark, Pat, Proc, RType, Span, TypeBinder, TypeTree, Val,
};
use std::alloc::{AllocError, AllocFailed};

/// What has been read, and what is awaited. Each state is named for what was read last, or for what is needed. With it
/// stand the lines of the grammar that it is in the middle of: a dot parts what has been read from what is to come.
#[derive(Drop)]
pub enum State {
    /// `. Val`, `. Proc`, `. Dec`
    Need(Place),
    /// `( Name . > Val Val+ )`, `( Name . < Val Val+ )`
    FreshName(Span, Id, Place),
    /// `( Name > Val* . Val* )`, `( Name < Val* . Val* )`
    Arguments(Side, Span, Id, Vec<Val>, Place),
    /// `Chan . ! Val`, `Chan . ? Abs`, `Chan . ?* Abs`
    HaveChannel(Chan, ProcessPlaces),
    /// `Val . ;`, `if Val . then`, `if Val then Val . else Val`, `( Val . FieldVals )`, `( Dec+ Val . )`
    HaveValue(Val, Wait),
    /// `Val . ;`, `if Val then Val . else Val`, `( Val . FieldVals )`, `( Dec+ Val . )`
    HaveEither(Val, Box<EitherPlace>),
    /// `if Val then Proc . else Proc`
    HaveProcess(Proc, Span, Val, ProcessPlaces),
    /// `( Dec* Proc ( | Proc )* . ( | Proc )* )`
    HaveProcesses(Span, Vec<Dec>, Vec<Proc>, Proc, ProcessPlaces),
    /// `new . Id : Type`
    NewKeyword(Span, DeclarationPlace),
    /// `new Id . : Type`
    NewName(Span, Id, DeclarationPlace),
    /// `val Pat . = Val`
    LetPattern(Span, Pat, DeclarationPlace),
    /// `def ( Id Abs and )* . Id Abs ( and Id Abs )*`
    DefinitionKeyword(Span, Vec<Definition>, DeclarationPlace),
    /// `def Id Abs ( and Id Abs )* . ( and Id Abs )*`
    HaveDefinition(Span, Vec<Definition>, Id, Abs, DeclarationPlace),
    /// `type . Id = Type`, `type . ( Id Id+ ) = Type`
    TypeKeyword(Span, DeclarationPlace),
    /// `type Id . = Type`
    AliasName(Span, Id, DeclarationPlace),
    /// `type ( . Id Id+ ) = Type`
    OperatorOpen(Span, DeclarationPlace),
    /// `type ( Id Id* . Id* ) = Type`
    OperatorParameters(Span, Id, Vec<Id>, DeclarationPlace),
    /// `type ( Id Id+ ) . = Type`
    OperatorClosed(Span, Id, Vec<Id>, DeclarationPlace),
    /// `. Abs`
    NeedAbstraction(Box<AbstractionPlace>),
    /// `( . FieldPats ) RType = Val`, `( . rec RType Pat ) = Proc`
    AbstractionOpen(Span, Box<AbstractionPlace>),
    /// `Pat . = Proc`
    AbstractionPattern(Pat, Box<AbstractionPlace>),
    /// `( FieldPats ) . RType = Val`
    AbstractionParameters(Span, FieldPats, Box<AbstractionPlace>),
    /// `( FieldPats ) : Type . = Val`
    AbstractionResult(Span, FieldPats, TypeTree, Box<AbstractionPlace>),
    /// `. Pat`
    NeedPattern(Box<PatternPlace>),
    /// `( . rec RType Pat )`
    PatternOpen(Span, Box<PatternPlace>),
    /// `( rec . RType Pat )`
    PatternRec(Span, Box<PatternPlace>),
    /// `( rec RType Pat . )`
    PatternFolded(Span, RType, Pat, Box<PatternPlace>),
    /// `Id . RType`
    HaveBind(Id, Box<PatternPlace>),
    /// `_ . RType`
    HaveAny(Span, Box<PatternPlace>),
    /// `TypeBinder* . TypeBinder* Pat* ( Id = Pat )*`
    AfterBinders(Box<FieldPatternsPlace>, Vec<TypeBinder>),
    /// `TypeBinder* Pat* . Pat* ( Id = Pat )*`
    AfterPatterns(Box<FieldPatternsPlace>, Vec<TypeBinder>, Vec<Pat>),
    /// `TypeBinder* Pat* Id . = Pat ( Id = Pat )*`, `TypeBinder* Pat* Id . RType Pat* ( Id = Pat )*`
    PatternName(Box<FieldPatternsPlace>, Vec<TypeBinder>, Vec<Pat>, Id),
    /// `TypeBinder* Pat* ( Id = Pat )* . ( Id = Pat )*`
    AfterPatternLabels(Box<FieldPatternsPlace>, Vec<TypeBinder>, Vec<Pat>, Vec<LabelledPat>),
    /// `TypeBinder* Pat* ( Id = Pat )* Id . = Pat ( Id = Pat )*`
    PatternLabel(Box<FieldPatternsPlace>, Vec<TypeBinder>, Vec<Pat>, Vec<LabelledPat>, Id),
    /// `# . Id : Kind < Type`
    BinderHash(Span, Box<BinderPlace>),
    /// `# Id . : Kind < Type`, `# Id . < Type`
    BinderName(Span, Id, Box<BinderPlace>),
    /// `# Id : . Kind < Type`
    NeedKind(Span, Id, Box<BinderPlace>),
    /// `( Mark* . Mark* -> Type )`
    KindArguments(Span, Id, Vec<Mark>, Box<BinderPlace>),
    /// `( Mark* + . Type Mark* -> Type )`, `( Mark* - . Type Mark* -> Type )`
    KindMark(Span, Id, Vec<Mark>, Mark, Box<BinderPlace>),
    /// `( Mark+ -> . Type )`
    KindArrow(Span, Id, Vec<Mark>, Box<BinderPlace>),
    /// `( Mark+ -> Type . )`
    KindResult(Span, Id, Vec<Mark>, Box<BinderPlace>),
    /// `# Id : Kind . < Type`
    BinderKind(Span, Id, KindTree, Span, Box<BinderPlace>),
    /// `. Type`
    NeedType(Box<TypePlace>),
    /// `( . Id Type+ )`, `( . rec Id = Type )`
    TypeOpen(Span, Box<TypePlace>),
    /// `( rec . Id = Type )`
    RecKeyword(Span, Box<TypePlace>),
    /// `( rec Id . = Type )`
    RecName(Span, Id, Box<TypePlace>),
    /// `( rec Id = Type . )`
    RecBody(Span, Id, TypeTree, Box<TypePlace>),
    /// `( Id Type* . Type* )`
    OperatorArguments(Span, Id, Vec<TypeTree>, Box<TypePlace>),
    /// `[ TypeBinder* . TypeBinder* Type* ( Id = Type )* ]`
    AfterTypeBinders(Span, Vec<TypeBinder>, Box<TypePlace>),
    /// `[ TypeBinder* Type* . Type* ( Id = Type )* ]`
    AfterTypes(Span, Vec<TypeBinder>, Vec<TypeTree>, Box<TypePlace>),
    /// `[ TypeBinder* Type* Id . = Type ( Id = Type )* ]`, `[ TypeBinder* Type* Id . Type* ( Id = Type )* ]`
    TypeName(Span, Vec<TypeBinder>, Vec<TypeTree>, Id, Box<TypePlace>),
    /// `[ TypeBinder* Type* ( Id = Type )* . ( Id = Type )* ]`
    AfterTypeLabels(Span, Vec<TypeBinder>, Vec<TypeTree>, Vec<LabelledType>, Box<TypePlace>),
    /// `[ TypeBinder* Type* ( Id = Type )* Id . = Type ( Id = Type )* ]`
    TypeLabel(Span, Vec<TypeBinder>, Vec<TypeTree>, Vec<LabelledType>, Id, Box<TypePlace>),
    /// `( rec . RType Val )`
    FoldKeyword(Span, Place),
    /// `( rec RType Val . )`
    FoldBody(Span, RType, Val, Place),
    /// `( # Type )* . ( # Type )* Val* ( Id = Val )*`
    AfterArguments(Box<FieldsPlace>, Vec<TypeTree>),
    /// `( # Type )* Val* . Val* ( Id = Val )*`
    AfterValues(Box<FieldsPlace>, Vec<TypeTree>, Vec<Val>),
    /// `( # Type )* Val* Id . = Val ( Id = Val )*`, `( # Type )* Val* Id . Val* ( Id = Val )*`
    ValueName(Box<FieldsPlace>, Vec<TypeTree>, Vec<Val>, Id),
    /// `( # Type )* Val* ( Id = Val )* . ( Id = Val )*`
    AfterLabels(Box<FieldsPlace>, Vec<TypeTree>, Vec<Val>, Vec<LabelledVal>),
    /// `( # Type )* Val* ( Id = Val )* Id . = Val ( Id = Val )*`
    ValueLabel(Box<FieldsPlace>, Vec<TypeTree>, Vec<Val>, Vec<LabelledVal>, Id),
}

/// Why reading stops.
#[derive(Debug, Drop)]
pub enum Fault {
    /// The token fits nothing that is open.
    Unexpected,
    /// Want of memory.
    Memory,
}

impl From<AllocError> for Fault {
    ghost use Rattle.std.specs.Prelude.{◌≡◌};
    ghost use Rattle.pict_parse_states.specs.declared.states.Fault.TheVariants.{Memory};

    ghost from_gives = { λ _ e. e ≡ Memory };

    fn from(_e: AllocError) -> Fault {
        Fault::Memory
    }
}

impl<T: Drop> From<AllocFailed<T>> for Fault {
    ghost use Rattle.std.specs.Prelude.{◌≡◌};
    ghost use Rattle.pict_parse_states.specs.declared.states.Fault.TheVariants.{Memory};

    ghost from_gives = { λ _ e. e ≡ Memory };

    fn from(_e: AllocFailed<T>) -> Fault {
        Fault::Memory
    }
}
