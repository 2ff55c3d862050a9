//! Kinds of tokens: what a place of the grammar takes.

ghost use Rattle.std.specs.Prelude.{◌≡◌, ◌≤◌};
ghost use Rattle.clc_tree.specs.Kinds.{is, takes, mark_rank, class_of};

use clc_lexer::{Mark, Tok, Token, Word};

/// What a place of the grammar takes.
#[derive(Clone, Copy, Debug, PartialEq, Eq)]
pub enum Kind {
    /// `(`.
    LeftParen,
    /// `)`.
    RightParen,
    /// `[`.
    LeftBracket,
    /// `]`.
    RightBracket,
    /// `{`.
    LeftBrace,
    /// `}`.
    RightBrace,
    /// `;`.
    Semicolon,
    /// `,`.
    Comma,
    /// `?`.
    Question,
    /// `:`.
    Colon,
    /// The `=` of an initialiser.
    Equals,
    /// The `*` of a pointer.
    Star,
    /// `++` or `--`.
    Step,
    /// A prefix operator that takes a cast.
    Prefix,
    /// An assignment operator.
    Assignment,
    /// What goes on with a primary expression.
    PostStep,
    /// A name.
    Name,
    /// A number.
    Number,
    /// `const`.
    Const,
    /// `restrict`.
    Restrict,
    /// `void`.
    Void,
    /// `if`.
    If,
    /// `else`.
    Else,
    /// `while`.
    While,
    /// `do`.
    Do,
    /// `for`.
    For,
    /// `break`.
    Break,
    /// `continue`.
    Continue,
    /// `return`.
    Return,
    /// `kernel`, `__kernel` or `inline`.
    Lead,
    /// An address space.
    Space,
    /// A word that is a type of numbers alone.
    PlainWord,
    /// `unsigned` or `signed`.
    SignWord,
    /// A word that may stand after `unsigned` or `signed`.
    BaseWord,
    /// What a type of numbers begins with.
    ScalarWord,
    /// What an expression begins with.
    ExprStart,
    /// What a declaration or a parameter begins with.
    DeclareStart,
    /// What a statement begins with.
    StmtStart,
    /// What a part of a block begins with.
    PartStart,
    /// What a function begins with.
    FunctionStart,
    /// A binary operator of this rank: rank 0 has `*`, `/` and `%`, rank 9 has `||`.
    Rank(u8),
}

/// How many levels of binary operators there are.
pub const RANKS: u8 = 10;

/// How tightly a binary operator binds: 0 for `*`, `/` and `%` up to 9 for `||`; 10 for other marks.
pub fn rank(mark: Mark) -> u8
    ensures value { result ≡ mark_rank mark }
    ensures most { result ≤ 10 }
{
    match mark {
        Mark::Star | Mark::Slash | Mark::Percent => 0,
        Mark::Plus | Mark::Minus => 1,
        Mark::ShiftLeft | Mark::ShiftRight => 2,
        Mark::Less | Mark::Greater | Mark::LessEqual | Mark::GreaterEqual => 3,
        Mark::EqualEqual | Mark::BangEqual => 4,
        Mark::Ampersand => 5,
        Mark::Caret => 6,
        Mark::Bar => 7,
        Mark::AndAnd => 8,
        Mark::OrOr => 9,
        _ => RANKS,
    }
}

/// The rank of a token as a binary operator, 10 where it is none.
pub fn operator_rank(token: &Token) -> u8
    ensures value { result ≡ Rattle.clc_tree.specs.Kinds.rank token.now }
    ensures most { result ≤ 10 }
{
    match &token.kind {
        Tok::Mark(mark) => rank(*mark),
        _ => RANKS,
    }
}

impl Kind {
    /// Whether the token is of the kind.
    pub fn takes(self, token: &Token) -> bool
        ensures { result ≡ is self token.now }
    {
        match &token.kind {
            Tok::Mark(mark) => self.takes_mark(*mark),
            Tok::Word(word) => self.takes_word(*word),
            Tok::Name(_) => self.takes_name(),
            Tok::Number { .. } => self.takes_number(),
        }
    }

    fn takes_name(self) -> bool
        ensures { result ≡ takes self Rattle.clc_tree.specs.Kinds.Name }
    {
        match self {
            Kind::Name | Kind::ExprStart | Kind::StmtStart | Kind::PartStart => true,
            Kind::Rank(rank) => rank == 10,
            _ => false,
        }
    }

    fn takes_number(self) -> bool
        ensures { result ≡ takes self Rattle.clc_tree.specs.Kinds.Number }
    {
        match self {
            Kind::Number | Kind::ExprStart | Kind::StmtStart | Kind::PartStart => true,
            Kind::Rank(rank) => rank == 10,
            _ => false,
        }
    }

    fn takes_mark(self, mark: Mark) -> bool
        ensures { result ≡ takes self (Rattle.clc_tree.specs.Kinds.Mark mark) }
    {
        match self {
            Kind::LeftParen => matches!(mark, Mark::LeftParen),
            Kind::RightParen => matches!(mark, Mark::RightParen),
            Kind::LeftBracket => matches!(mark, Mark::LeftBracket),
            Kind::RightBracket => matches!(mark, Mark::RightBracket),
            Kind::LeftBrace => matches!(mark, Mark::LeftBrace),
            Kind::RightBrace => matches!(mark, Mark::RightBrace),
            Kind::Semicolon => matches!(mark, Mark::Semicolon),
            Kind::Comma => matches!(mark, Mark::Comma),
            Kind::Question => matches!(mark, Mark::Question),
            Kind::Colon => matches!(mark, Mark::Colon),
            Kind::Equals => matches!(mark, Mark::Assign),
            Kind::Star => matches!(mark, Mark::Star),
            Kind::Step => matches!(mark, Mark::PlusPlus | Mark::MinusMinus),
            Kind::Prefix => matches!(
                mark,
                Mark::Plus | Mark::Minus | Mark::Tilde | Mark::Bang | Mark::Star
            ),
            Kind::Assignment => matches!(
                mark,
                Mark::Assign
                    | Mark::PlusAssign
                    | Mark::MinusAssign
                    | Mark::StarAssign
                    | Mark::SlashAssign
                    | Mark::PercentAssign
                    | Mark::ShiftLeftAssign
                    | Mark::ShiftRightAssign
                    | Mark::AndAssign
                    | Mark::OrAssign
                    | Mark::XorAssign
            ),
            Kind::PostStep => matches!(mark, Mark::LeftBracket | Mark::PlusPlus | Mark::MinusMinus),
            Kind::ExprStart => matches!(
                mark,
                Mark::LeftParen
                    | Mark::PlusPlus
                    | Mark::MinusMinus
                    | Mark::Plus
                    | Mark::Minus
                    | Mark::Tilde
                    | Mark::Bang
                    | Mark::Star
            ),
            Kind::StmtStart => matches!(
                mark,
                Mark::LeftParen
                    | Mark::PlusPlus
                    | Mark::MinusMinus
                    | Mark::Plus
                    | Mark::Minus
                    | Mark::Tilde
                    | Mark::Bang
                    | Mark::Star
                    | Mark::LeftBrace
                    | Mark::Semicolon
            ),
            Kind::PartStart => matches!(
                mark,
                Mark::LeftParen
                    | Mark::PlusPlus
                    | Mark::MinusMinus
                    | Mark::Plus
                    | Mark::Minus
                    | Mark::Tilde
                    | Mark::Bang
                    | Mark::Star
                    | Mark::LeftBrace
                    | Mark::Semicolon
            ),
            Kind::Rank(wanted) => rank(mark) == wanted,
            _ => false,
        }
    }

    fn takes_word(self, word: Word) -> bool
        ensures { result ≡ takes self (Rattle.clc_tree.specs.Kinds.Word word) }
    {
        match self {
            Kind::Const => matches!(word, Word::Const),
            Kind::Restrict => matches!(word, Word::Restrict),
            Kind::Void => matches!(word, Word::Void),
            Kind::If => matches!(word, Word::If),
            Kind::Else => matches!(word, Word::Else),
            Kind::While => matches!(word, Word::While),
            Kind::Do => matches!(word, Word::Do),
            Kind::For => matches!(word, Word::For),
            Kind::Break => matches!(word, Word::Break),
            Kind::Continue => matches!(word, Word::Continue),
            Kind::Return => matches!(word, Word::Return),
            Kind::Lead => matches!(word, Word::Kernel | Word::UnderscoreKernel | Word::Inline),
            Kind::Space => matches!(
                word,
                Word::Global | Word::UnderscoreGlobal | Word::Constant | Word::UnderscoreConstant
            ),
            Kind::PlainWord => matches!(
                word,
                Word::Char
                    | Word::Uchar
                    | Word::Short
                    | Word::Ushort
                    | Word::Int
                    | Word::Uint
                    | Word::SizeT
            ),
            Kind::SignWord => matches!(word, Word::Unsigned | Word::Signed),
            Kind::BaseWord => matches!(word, Word::Char | Word::Short | Word::Int),
            Kind::ScalarWord => matches!(
                word,
                Word::Char
                    | Word::Uchar
                    | Word::Short
                    | Word::Ushort
                    | Word::Int
                    | Word::Uint
                    | Word::SizeT
                    | Word::Unsigned
                    | Word::Signed
            ),
            Kind::DeclareStart => matches!(
                word,
                Word::Const
                    | Word::Global
                    | Word::UnderscoreGlobal
                    | Word::Constant
                    | Word::UnderscoreConstant
                    | Word::Char
                    | Word::Uchar
                    | Word::Short
                    | Word::Ushort
                    | Word::Int
                    | Word::Uint
                    | Word::SizeT
                    | Word::Unsigned
                    | Word::Signed
            ),
            Kind::StmtStart => matches!(
                word,
                Word::If
                    | Word::While
                    | Word::Do
                    | Word::For
                    | Word::Break
                    | Word::Continue
                    | Word::Return
            ),
            Kind::PartStart => matches!(
                word,
                Word::Const
                    | Word::Global
                    | Word::UnderscoreGlobal
                    | Word::Constant
                    | Word::UnderscoreConstant
                    | Word::Char
                    | Word::Uchar
                    | Word::Short
                    | Word::Ushort
                    | Word::Int
                    | Word::Uint
                    | Word::SizeT
                    | Word::Unsigned
                    | Word::Signed
                    | Word::If
                    | Word::While
                    | Word::Do
                    | Word::For
                    | Word::Break
                    | Word::Continue
                    | Word::Return
            ),
            Kind::FunctionStart => matches!(
                word,
                Word::Kernel
                    | Word::UnderscoreKernel
                    | Word::Inline
                    | Word::Void
                    | Word::Char
                    | Word::Uchar
                    | Word::Short
                    | Word::Ushort
                    | Word::Int
                    | Word::Uint
                    | Word::SizeT
                    | Word::Unsigned
                    | Word::Signed
            ),
            Kind::Rank(rank) => rank == 10,
            _ => false,
        }
    }
}
