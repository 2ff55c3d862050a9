//! Marks: the operators and punctuators of the language.

ghost use Rattle.std.specs.Prelude.{◌≡◌};
ghost use Rattle.clc_lexer.specs.Tables.{mark_spelling, all_marks};
ghost use Rattle.clc_lexer.specs.Reading.{spelled};

/// A mark (C99, 6.4.6). Each is named after its characters, since one mark may be several operators.
#[derive(Clone, Copy, Debug, PartialEq, Eq)]
pub enum Mark {
    ShiftLeftAssign,
    ShiftRightAssign,
    PlusPlus,
    MinusMinus,
    ShiftLeft,
    ShiftRight,
    LessEqual,
    GreaterEqual,
    EqualEqual,
    BangEqual,
    AndAnd,
    OrOr,
    PlusAssign,
    MinusAssign,
    StarAssign,
    SlashAssign,
    PercentAssign,
    AndAssign,
    OrAssign,
    XorAssign,
    LeftParen,
    RightParen,
    LeftBrace,
    RightBrace,
    LeftBracket,
    RightBracket,
    Semicolon,
    Comma,
    Question,
    Colon,
    Plus,
    Minus,
    Star,
    Slash,
    Percent,
    Ampersand,
    Bar,
    Caret,
    Tilde,
    Bang,
    Less,
    Greater,
    Assign,
}

impl Mark {
    /// All marks, longer ones before shorter ones.
    pub const ALL: [Mark; 43] = [
        Mark::ShiftLeftAssign,
        Mark::ShiftRightAssign,
        Mark::PlusPlus,
        Mark::MinusMinus,
        Mark::ShiftLeft,
        Mark::ShiftRight,
        Mark::LessEqual,
        Mark::GreaterEqual,
        Mark::EqualEqual,
        Mark::BangEqual,
        Mark::AndAnd,
        Mark::OrOr,
        Mark::PlusAssign,
        Mark::MinusAssign,
        Mark::StarAssign,
        Mark::SlashAssign,
        Mark::PercentAssign,
        Mark::AndAssign,
        Mark::OrAssign,
        Mark::XorAssign,
        Mark::LeftParen,
        Mark::RightParen,
        Mark::LeftBrace,
        Mark::RightBrace,
        Mark::LeftBracket,
        Mark::RightBracket,
        Mark::Semicolon,
        Mark::Comma,
        Mark::Question,
        Mark::Colon,
        Mark::Plus,
        Mark::Minus,
        Mark::Star,
        Mark::Slash,
        Mark::Percent,
        Mark::Ampersand,
        Mark::Bar,
        Mark::Caret,
        Mark::Tilde,
        Mark::Bang,
        Mark::Less,
        Mark::Greater,
        Mark::Assign,
    ];

    /// The bytes of the mark.
    pub fn spelling(self) -> &'static [u8]
        ensures { result.now ≡ mark_spelling self }
    {
        match self {
            Mark::ShiftLeftAssign => b"<<=",
            Mark::ShiftRightAssign => b">>=",
            Mark::PlusPlus => b"++",
            Mark::MinusMinus => b"--",
            Mark::ShiftLeft => b"<<",
            Mark::ShiftRight => b">>",
            Mark::LessEqual => b"<=",
            Mark::GreaterEqual => b">=",
            Mark::EqualEqual => b"==",
            Mark::BangEqual => b"!=",
            Mark::AndAnd => b"&&",
            Mark::OrOr => b"||",
            Mark::PlusAssign => b"+=",
            Mark::MinusAssign => b"-=",
            Mark::StarAssign => b"*=",
            Mark::SlashAssign => b"/=",
            Mark::PercentAssign => b"%=",
            Mark::AndAssign => b"&=",
            Mark::OrAssign => b"|=",
            Mark::XorAssign => b"^=",
            Mark::LeftParen => b"(",
            Mark::RightParen => b")",
            Mark::LeftBrace => b"{",
            Mark::RightBrace => b"}",
            Mark::LeftBracket => b"[",
            Mark::RightBracket => b"]",
            Mark::Semicolon => b";",
            Mark::Comma => b",",
            Mark::Question => b"?",
            Mark::Colon => b":",
            Mark::Plus => b"+",
            Mark::Minus => b"-",
            Mark::Star => b"*",
            Mark::Slash => b"/",
            Mark::Percent => b"%",
            Mark::Ampersand => b"&",
            Mark::Bar => b"|",
            Mark::Caret => b"^",
            Mark::Tilde => b"~",
            Mark::Bang => b"!",
            Mark::Less => b"<",
            Mark::Greater => b">",
            Mark::Assign => b"=",
        }
    }
}

/// The mark of these bytes.
pub(crate) fn mark_of(text: &[u8]) -> Option<Mark>
    ensures { result ≡ spelled mark_spelling all_marks text.now }
{
    for mark in Mark::ALL {
        if mark.spelling() == text {
            return Some(mark);
        }
    }
    None
}
