// The constructs that are open while a text is read, as places where a phrase is to come. With each place stand the lines
// of the grammar that it is in the middle of: a dot parts what has been read from what is to come.

use pict_syntax::{
    Chan, Dec, Definition, FieldPats, Id, KindTree, LabelledPat, LabelledType, LabelledVal, Pat,
    Proc, RType, Span, TypeBinder, TypeTree, Val,
};

/// The sign behind the name of `( Name > .. )` and `( Name < .. )`.
#[derive(Clone, Copy, PartialEq, Eq, Debug)]
pub enum Side {
    Rightward,
    Leftward,
}

/// The sign before an abstraction that receives: `?` or `?*`.
#[derive(Clone, Copy, PartialEq, Eq, Debug)]
pub enum Ask {
    Once,
    Always,
}

/// The sign before a channel's content: `^`, `?`, `!` or `/`.
#[derive(Clone, Copy, PartialEq, Eq, Debug)]
pub enum Prefix {
    Both,
    Read,
    Write,
    Respond,
}

/// Where a value is to come, and no process may.
#[derive(Drop)]
#[cycle(place)]
pub enum ValuePlace {
    /// `val Pat = . Val`
    Let(Span, Pat, DeclarationPlace),
    /// `( FieldPats ) RType = . Val`
    Function(Span, FieldPats, RType, Box<AbstractionPlace>),
    /// `Chan ! . Val`
    Send(Chan, ProcessPlaces),
    /// `( Name > Val* . Val Val* )`, `( Name < Val* . Val Val* )`
    Side(Side, Span, Id, Vec<Val>, Place),
    /// `( # Type )* Val* . Val Val* ( Id = Val )*`
    Field(Box<FieldsPlace>, Vec<TypeTree>, Vec<Val>),
    /// `( # Type )* Val* ( Id = Val )* Id = . Val ( Id = Val )*`
    Label(Box<FieldsPlace>, Vec<TypeTree>, Vec<Val>, Vec<LabelledVal>, Id),
    /// `( rec RType . Val )`
    Fold(Span, RType, Place),
    /// `if Val then Val else . Val`
    Else(Span, Val, Val, ValuePlaces),
    Waiting(Wait),
}

/// Where the token behind a value says what the value is for.
#[derive(Drop)]
#[cycle(place)]
pub enum Wait {
    /// `Dec* . Val ;`
    Top(Vec<Dec>),
    /// `if . Val then`
    Test(Span, Place),
    /// `if Val then . Val else Val`
    Then(Span, Val, Box<ValuePlace>),
    /// `( Dec* . Val`
    Paren(Span, Vec<Dec>, Box<ValuePlace>),
}

/// Where a process is to come, and no value may.
#[derive(Drop)]
#[cycle(place)]
pub enum ProcessPlace {
    /// `run . Proc`
    Run(Span, DeclarationPlace),
    /// `Pat = . Proc`
    Process(Pat, Box<AbstractionPlace>),
    /// `if Val then Proc else . Proc`
    Else(Span, Val, Proc, ProcessPlaces),
    /// `( Dec* ( Proc | )* . Proc`
    Bar(Span, Vec<Dec>, Vec<Proc>, ProcessPlaces),
    /// `if Val then . Proc else Proc`
    Then(Span, Val, Box<ProcessPlace>),
}

/// Where a value or a process is to come.
#[derive(Drop)]
#[cycle(place)]
pub enum EitherPlace {
    /// `( Dec* . Val`, `( Dec* ( Proc | )* . Proc`
    Paren(Span, Vec<Dec>, ProcessPlaces),
    /// `if Val then . Val else Val`, `if Val then . Proc else Proc`
    Then(Span, Val, Box<EitherPlace>),
}

/// Where a process may come.
#[derive(Drop)]
#[cycle(place)]
pub enum ProcessPlaces {
    Only(Box<ProcessPlace>),
    Either(Box<EitherPlace>),
}

/// Where a value may come.
#[derive(Drop)]
#[cycle(place)]
pub enum ValuePlaces {
    Only(Box<ValuePlace>),
    Either(Box<EitherPlace>),
}

/// Where a value, a process or either may come.
#[derive(Drop)]
#[cycle(place)]
pub enum Place {
    Value(Box<ValuePlace>),
    Process(Box<ProcessPlace>),
    Either(Box<EitherPlace>),
}

/// Where a declaration stands.
#[derive(Drop)]
#[cycle(place)]
pub enum DeclarationPlace {
    /// `Dec* . Dec`
    Top(Vec<Dec>),
    /// `( Dec* . Dec`
    Paren(Span, Vec<Dec>, Place),
}

/// Where an abstraction stands.
#[derive(Drop)]
#[cycle(place)]
pub enum AbstractionPlace {
    /// `def ( Id Abs and )* Id . Abs`
    Definition(Span, Vec<Definition>, Id, DeclarationPlace),
    /// `\ . Abs`
    Lambda(Span, ValuePlaces),
    /// `Chan ? . Abs`, `Chan ?* . Abs`
    Input(Ask, Chan, ProcessPlaces),
}

/// Where the fields of a record or of an application stand.
#[derive(Drop)]
#[cycle(place)]
pub enum FieldsPlace {
    /// `[ . FieldVals ]`
    Record(Span, ValuePlaces),
    /// `( Val . FieldVals )`
    Apply(Span, Val, Place),
}

// The places where a pattern or a type stands have the other places that they stand in as parameters: what such a place
// reaches is asked where it is used, and only once there, however many of its lines lead to it.

/// Where a pattern stands, over where a declaration and an abstraction stand.
#[derive(Drop)]
#[cycle(pat_place)]
pub enum PatternPlaceIn<Declaration, Abstraction> {
    /// `val . Pat = Val`
    Let(Span, Declaration),
    /// `. Pat = Proc`
    Abstraction(Box<Abstraction>),
    /// `( rec RType . Pat )`
    Fold(Span, RType, Box<PatternPlaceIn<Declaration, Abstraction>>),
    /// `TypeBinder* Pat* . Pat Pat* ( Id = Pat )*`
    Field(Box<FieldPatternsPlaceIn<Declaration, Abstraction>>, Vec<TypeBinder>, Vec<Pat>),
    /// `TypeBinder* Pat* ( Id = Pat )* Id = . Pat ( Id = Pat )*`
    Label(
        Box<FieldPatternsPlaceIn<Declaration, Abstraction>>,
        Vec<TypeBinder>,
        Vec<Pat>,
        Vec<LabelledPat>,
        Id,
    ),
}

/// Where the patterns of the fields of a record or of a function stand, over where a declaration and an abstraction stand.
#[derive(Drop)]
#[cycle(pat_place)]
pub enum FieldPatternsPlaceIn<Declaration, Abstraction> {
    /// `[ . FieldPats ]`
    Record(Span, Box<PatternPlaceIn<Declaration, Abstraction>>),
    /// `( . FieldPats ) RType = Val`
    Parameters(Span, Box<Abstraction>),
}

/// Where a pattern stands.
pub type PatternPlace = PatternPlaceIn<DeclarationPlace, AbstractionPlace>;

/// Where the patterns of the fields of a record or of a function stand.
pub type FieldPatternsPlace = FieldPatternsPlaceIn<DeclarationPlace, AbstractionPlace>;

/// Where a type stands, over where a value or a process, a declaration, an abstraction and fields stand.
#[derive(Drop)]
#[cycle(type_place)]
pub enum TypePlaceIn<Phrase, Declaration, Abstraction, Fields> {
    /// `new Id : . Type`
    New(Span, Id, Declaration),
    /// `type Id = . Type`
    Alias(Span, Id, Declaration),
    /// `type ( Id Id+ ) = . Type`
    Operator(Span, Id, Vec<Id>, Declaration),
    /// `Id : . Type`
    Bind(Id, Box<PatternPlaceIn<Declaration, Abstraction>>),
    /// `_ : . Type`
    Any(Span, Box<PatternPlaceIn<Declaration, Abstraction>>),
    /// `( FieldPats ) : . Type = Val`
    Result(Span, FieldPats, Box<Abstraction>),
    /// `( rec : . Type Pat )`
    PatternFold(Span, Box<PatternPlaceIn<Declaration, Abstraction>>),
    /// `( rec : . Type Val )`
    Fold(Span, Phrase),
    /// `# Id : Kind < . Type`, `# Id < . Type`
    Bound(Span, Id, Option<KindTree>, Box<BinderPlaceIn<Phrase, Declaration, Abstraction, Fields>>),
    /// `^ . Type`, `? . Type`, `! . Type`, `/ . Type`
    Prefix(Prefix, Span, Box<TypePlaceIn<Phrase, Declaration, Abstraction, Fields>>),
    /// `[ TypeBinder* Type* . Type Type* ( Id = Type )* ]`
    Field(
        Span,
        Vec<TypeBinder>,
        Vec<TypeTree>,
        Box<TypePlaceIn<Phrase, Declaration, Abstraction, Fields>>,
    ),
    /// `[ TypeBinder* Type* ( Id = Type )* Id = . Type ( Id = Type )* ]`
    Label(
        Span,
        Vec<TypeBinder>,
        Vec<TypeTree>,
        Vec<LabelledType>,
        Id,
        Box<TypePlaceIn<Phrase, Declaration, Abstraction, Fields>>,
    ),
    /// `( Id Type* . Type Type* )`
    Apply(Span, Id, Vec<TypeTree>, Box<TypePlaceIn<Phrase, Declaration, Abstraction, Fields>>),
    /// `( rec Id = . Type )`
    Rec(Span, Id, Box<TypePlaceIn<Phrase, Declaration, Abstraction, Fields>>),
    /// `( # Type )* # . Type ( # Type )*`
    Argument(Box<Fields>, Vec<TypeTree>),
}

/// Where a type binder stands, over where a value or a process, a declaration, an abstraction and fields stand.
#[derive(Drop)]
#[cycle(type_place)]
pub enum BinderPlaceIn<Phrase, Declaration, Abstraction, Fields> {
    /// `TypeBinder* . TypeBinder TypeBinder* Pat* ( Id = Pat )*`
    Patterns(Box<FieldPatternsPlaceIn<Declaration, Abstraction>>, Vec<TypeBinder>),
    /// `[ TypeBinder* . TypeBinder TypeBinder* Type* ( Id = Type )* ]`
    Types(Span, Vec<TypeBinder>, Box<TypePlaceIn<Phrase, Declaration, Abstraction, Fields>>),
}

/// Where a type stands.
pub type TypePlace = TypePlaceIn<Place, DeclarationPlace, AbstractionPlace, FieldsPlace>;

/// Where a type binder stands.
pub type BinderPlace = BinderPlaceIn<Place, DeclarationPlace, AbstractionPlace, FieldsPlace>;
