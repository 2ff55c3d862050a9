//! Reserved words, and words of OpenCL C that no source here may have.

ghost use Rattle.std.specs.Prelude.{◌≡◌, map};
ghost use Rattle.clc_lexer.specs.Tables.{word_spelling, all_words, among, left_out_words};
ghost use Rattle.clc_lexer.specs.Reading.{spelled, is_vector_name, is_vector_among};

/// A reserved word (C99, 6.4.1; OpenCL C 1.2, 6.1.9). The forms with two underscores in front are words of their own.
#[derive(Clone, Copy, Debug, PartialEq, Eq)]
pub enum Word {
    Kernel,
    UnderscoreKernel,
    Global,
    UnderscoreGlobal,
    Constant,
    UnderscoreConstant,
    Const,
    Restrict,
    Inline,
    Void,
    Char,
    Uchar,
    Short,
    Ushort,
    Int,
    Uint,
    SizeT,
    Unsigned,
    Signed,
    If,
    Else,
    While,
    Do,
    For,
    Break,
    Continue,
    Return,
}

impl Word {
    /// All reserved words.
    pub const ALL: [Word; 27] = [
        Word::Kernel,
        Word::UnderscoreKernel,
        Word::Global,
        Word::UnderscoreGlobal,
        Word::Constant,
        Word::UnderscoreConstant,
        Word::Const,
        Word::Restrict,
        Word::Inline,
        Word::Void,
        Word::Char,
        Word::Uchar,
        Word::Short,
        Word::Ushort,
        Word::Int,
        Word::Uint,
        Word::SizeT,
        Word::Unsigned,
        Word::Signed,
        Word::If,
        Word::Else,
        Word::While,
        Word::Do,
        Word::For,
        Word::Break,
        Word::Continue,
        Word::Return,
    ];

    /// The bytes of the word.
    pub fn spelling(self) -> &'static [u8]
        ensures { result.now ≡ word_spelling self }
    {
        match self {
            Word::Kernel => b"kernel",
            Word::UnderscoreKernel => b"__kernel",
            Word::Global => b"global",
            Word::UnderscoreGlobal => b"__global",
            Word::Constant => b"constant",
            Word::UnderscoreConstant => b"__constant",
            Word::Const => b"const",
            Word::Restrict => b"restrict",
            Word::Inline => b"inline",
            Word::Void => b"void",
            Word::Char => b"char",
            Word::Uchar => b"uchar",
            Word::Short => b"short",
            Word::Ushort => b"ushort",
            Word::Int => b"int",
            Word::Uint => b"uint",
            Word::SizeT => b"size_t",
            Word::Unsigned => b"unsigned",
            Word::Signed => b"signed",
            Word::If => b"if",
            Word::Else => b"else",
            Word::While => b"while",
            Word::Do => b"do",
            Word::For => b"for",
            Word::Break => b"break",
            Word::Continue => b"continue",
            Word::Return => b"return",
        }
    }
}

/// The left-out words but for the types of vectors.
const LEFT_OUT: [&[u8]; 42] = [
    b"float",
    b"double",
    b"half",
    b"long",
    b"ulong",
    b"bool",
    b"struct",
    b"union",
    b"enum",
    b"typedef",
    b"goto",
    b"switch",
    b"case",
    b"default",
    b"static",
    b"extern",
    b"register",
    b"volatile",
    b"sizeof",
    b"local",
    b"__local",
    b"private",
    b"__private",
    b"barrier",
    b"mem_fence",
    b"read_mem_fence",
    b"write_mem_fence",
    b"printf",
    b"event_t",
    b"sampler_t",
    b"image2d_t",
    b"image3d_t",
    b"read_only",
    b"write_only",
    b"read_write",
    b"__read_only",
    b"__write_only",
    b"__read_write",
    b"__attribute__",
    b"ptrdiff_t",
    b"intptr_t",
    b"uintptr_t",
];

/// The types that a vector's name begins with.
const VECTOR_ELEMENTS: [&[u8]; 11] = [
    b"char", b"uchar", b"short", b"ushort", b"int", b"uint", b"long", b"ulong", b"float",
    b"double", b"half",
];

/// The numbers of components that a vector's name ends with.
const VECTOR_SIZES: [&[u8]; 5] = [b"2", b"3", b"4", b"8", b"16"];

/// The reserved word of these bytes.
pub(crate) fn word_of(text: &[u8]) -> Option<Word>
    ensures { result ≡ spelled word_spelling all_words text.now }
{
    for word in Word::ALL {
        if word.spelling() == text {
            return Some(word);
        }
    }
    None
}

fn is_among(table: &[&[u8]], text: &[u8]) -> bool
    ensures { result ≡ among (map (λ spelling. spelling.now) table.now) text.now }
{
    for spelling in table {
        if *spelling == text {
            return true;
        }
    }
    false
}

/// Whether the name is this element's type with a number of components.
fn is_vector_of(element: &[u8], text: &[u8]) -> bool
    ensures { result ≡ is_vector_name element.now text.now }
{
    match text.strip_prefix(element) {
        Some(size) => is_among(&VECTOR_SIZES, size),
        None => false,
    }
}

/// Whether the name is the type of a vector of one of these elements.
fn is_vector(elements: &[&[u8]], text: &[u8]) -> bool
    ensures { result ≡ is_vector_among (map (λ element. element.now) elements.now) text.now }
{
    for element in elements {
        if is_vector_of(element, text) {
            return true;
        }
    }
    false
}

/// Whether the name is a word that is left out of the language.
pub(crate) fn is_left_out(text: &[u8]) -> bool
    ensures { result ≡ among left_out_words text.now }
{
    is_among(&LEFT_OUT, text) || is_vector(&VECTOR_ELEMENTS, text)
}
