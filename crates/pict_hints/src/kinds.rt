// The kinds of tokens that are tried, and what they are called.

use pict_follow::Class;
use pict_syntax::{Keyword, Sign, SymbolName};

/// All kinds of tokens.
pub const KINDS: [Class; 51] = [
    Class::Word,
    Class::Symbol(SymbolName::Plus),
    Class::Symbol(SymbolName::Minus),
    Class::Symbol(SymbolName::Star),
    Class::Symbol(SymbolName::PlusDollar),
    Class::Symbol(SymbolName::EqualsEquals),
    Class::Symbol(SymbolName::LessLess),
    Class::Symbol(SymbolName::LessEquals),
    Class::Symbol(SymbolName::GreaterGreater),
    Class::Symbol(SymbolName::GreaterEquals),
    Class::Digits,
    Class::Letter,
    Class::Text,
    Class::Key(Keyword::And),
    Class::Key(Keyword::Def),
    Class::Key(Keyword::Else),
    Class::Key(Keyword::False),
    Class::Key(Keyword::If),
    Class::Key(Keyword::Import),
    Class::Key(Keyword::New),
    Class::Key(Keyword::Rec),
    Class::Key(Keyword::Run),
    Class::Key(Keyword::Then),
    Class::Key(Keyword::True),
    Class::Key(Keyword::TypeDefinition),
    Class::Key(Keyword::Val),
    Class::Key(Keyword::BoolType),
    Class::Key(Keyword::CharType),
    Class::Key(Keyword::IntType),
    Class::Key(Keyword::StringType),
    Class::Key(Keyword::TopType),
    Class::Key(Keyword::TypeKind),
    Class::Mark(Sign::Bang),
    Class::Mark(Sign::Question),
    Class::Mark(Sign::QuestionStar),
    Class::Mark(Sign::Equals),
    Class::Mark(Sign::Bar),
    Class::Mark(Sign::OpenParen),
    Class::Mark(Sign::CloseParen),
    Class::Mark(Sign::OpenBracket),
    Class::Mark(Sign::CloseBracket),
    Class::Mark(Sign::Colon),
    Class::Mark(Sign::Semicolon),
    Class::Mark(Sign::Less),
    Class::Mark(Sign::Greater),
    Class::Mark(Sign::Backslash),
    Class::Mark(Sign::Caret),
    Class::Mark(Sign::Slash),
    Class::Mark(Sign::Hash),
    Class::Mark(Sign::Underscore),
    Class::Mark(Sign::Arrow),
];

/// The symbol names.
pub const SYMBOLS: [Class; 9] = [
    Class::Symbol(SymbolName::Plus),
    Class::Symbol(SymbolName::Minus),
    Class::Symbol(SymbolName::Star),
    Class::Symbol(SymbolName::PlusDollar),
    Class::Symbol(SymbolName::EqualsEquals),
    Class::Symbol(SymbolName::LessLess),
    Class::Symbol(SymbolName::LessEquals),
    Class::Symbol(SymbolName::GreaterGreater),
    Class::Symbol(SymbolName::GreaterEquals),
];

/// With what a value begins, beside a symbol name.
pub const VALUE: [Class; 10] = [
    Class::Word,
    Class::Digits,
    Class::Letter,
    Class::Text,
    Class::Key(Keyword::True),
    Class::Key(Keyword::False),
    Class::Key(Keyword::If),
    Class::Mark(Sign::OpenParen),
    Class::Mark(Sign::OpenBracket),
    Class::Mark(Sign::Backslash),
];

/// With what a process begins, beside a symbol name.
pub const PROCESS: [Class; 3] = [
    Class::Word,
    Class::Key(Keyword::If),
    Class::Mark(Sign::OpenParen),
];

/// With what a type begins, where no channel goes before it.
pub const TYPE: [Class; 10] = [
    Class::Key(Keyword::TopType),
    Class::Key(Keyword::IntType),
    Class::Key(Keyword::CharType),
    Class::Key(Keyword::StringType),
    Class::Key(Keyword::BoolType),
    Class::Word,
    Class::Mark(Sign::Caret),
    Class::Mark(Sign::Slash),
    Class::Mark(Sign::OpenBracket),
    Class::Mark(Sign::OpenParen),
];

/// The signs with which a type begins too, and which go on behind a channel.
pub const RIGHTS: [Class; 2] = [Class::Mark(Sign::Bang), Class::Mark(Sign::Question)];

/// With what a pattern begins.
pub const PATTERN: [Class; 4] = [
    Class::Word,
    Class::Mark(Sign::Underscore),
    Class::Mark(Sign::OpenBracket),
    Class::Mark(Sign::OpenParen),
];

/// With what a declaration begins that isn't a value.
pub const DECLARATION: [Class; 5] = [
    Class::Key(Keyword::New),
    Class::Key(Keyword::Run),
    Class::Key(Keyword::Val),
    Class::Key(Keyword::Def),
    Class::Key(Keyword::TypeDefinition),
];

/// Whether all of these are among those.
pub fn holds_all(those: &[Class], these: &[Class]) -> bool {
    for class in these {
        if !those.contains(class) {
            return false;
        }
    }
    true
}

/// Whether every symbol name is among those.
pub fn holds_symbols(those: &[Class]) -> bool {
    holds_all(those, &SYMBOLS)
}

/// What a kind is called: a symbol name, a keyword and a sign by themselves.
pub fn name_of(class: Class) -> &'static str {
    match class {
        Class::Word => "a name",
        Class::Symbol(symbol) => name_of_symbol(symbol),
        Class::Digits => "a number",
        Class::Letter => "a character",
        Class::Text => "a string",
        Class::Key(keyword) => name_of_keyword(keyword),
        Class::Mark(sign) => name_of_sign(sign),
    }
}

fn name_of_symbol(symbol: SymbolName) -> &'static str {
    match symbol {
        SymbolName::Plus => "`+`",
        SymbolName::Minus => "`-`",
        SymbolName::Star => "`*`",
        SymbolName::PlusDollar => "`+$`",
        SymbolName::EqualsEquals => "`==`",
        SymbolName::LessLess => "`<<`",
        SymbolName::LessEquals => "`<=`",
        SymbolName::GreaterGreater => "`>>`",
        SymbolName::GreaterEquals => "`>=`",
    }
}

fn name_of_keyword(keyword: Keyword) -> &'static str {
    match keyword {
        Keyword::And => "`and`",
        Keyword::Def => "`def`",
        Keyword::Else => "`else`",
        Keyword::False => "`false`",
        Keyword::If => "`if`",
        Keyword::Import => "`import`",
        Keyword::New => "`new`",
        Keyword::Rec => "`rec`",
        Keyword::Run => "`run`",
        Keyword::Then => "`then`",
        Keyword::True => "`true`",
        Keyword::TypeDefinition => "`type`",
        Keyword::Val => "`val`",
        Keyword::BoolType => "`Bool`",
        Keyword::CharType => "`Char`",
        Keyword::IntType => "`Int`",
        Keyword::StringType => "`String`",
        Keyword::TopType => "`Top`",
        Keyword::TypeKind => "`Type`",
    }
}

fn name_of_sign(sign: Sign) -> &'static str {
    match sign {
        Sign::Bang => "`!`",
        Sign::Question => "`?`",
        Sign::QuestionStar => "`?*`",
        Sign::Equals => "`=`",
        Sign::Bar => "`|`",
        Sign::OpenParen => "`(`",
        Sign::CloseParen => "`)`",
        Sign::OpenBracket => "`[`",
        Sign::CloseBracket => "`]`",
        Sign::Colon => "`:`",
        Sign::Semicolon => "`;`",
        Sign::Less => "`<`",
        Sign::Greater => "`>`",
        Sign::Backslash => "`\\`",
        Sign::Caret => "`^`",
        Sign::Slash => "`/`",
        Sign::Hash => "`#`",
        Sign::Underscore => "`_`",
        Sign::Arrow => "`->`",
    }
}
