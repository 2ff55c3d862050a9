//! What the tokens of a tree say.

ghost use Rattle.std.specs.Prelude.{◌≡◌};
ghost use Rattle.clc_types.specs.Words.{name_of as name_of_token, mark_of as mark_of_token, value_of as value_of_token, is_unsigned as is_unsigned_token, is_increment as is_increment_mark, type_of as type_of_written, type_tokens as type_tokens_of, plain_type as plain_type_of, base_type as base_type_of, unsigned_type as unsigned_type_of, space_in, is_kernel as is_kernel_lead, one_if as one_if_of};

use clc_lexer::{Mark, Tok, Token, Word};
use clc_tree::Scalar as Written;
use clc_types::Space;
use q_lane::Scalar;

pub fn name_of(token: &Token) -> &[u8]
    ensures { result.now ≡ name_of_token token.now }
{
    match &token.kind {
        Tok::Name(text) => text.as_bytes(),
        _ => b"",
    }
}

pub fn mark_of(token: &Token) -> Mark
    ensures { result ≡ mark_of_token token.now }
{
    match &token.kind {
        Tok::Mark(mark) => *mark,
        _ => Mark::Comma,
    }
}

pub fn value_of(token: &Token) -> u32
    ensures { result ≡ value_of_token token.now }
{
    match &token.kind {
        Tok::Number { value, .. } => *value,
        _ => 0,
    }
}

pub fn is_unsigned(token: &Token) -> bool
    ensures { result ≡ is_unsigned_token token.now }
{
    match &token.kind {
        Tok::Number { unsigned, .. } => *unsigned,
        _ => false,
    }
}

pub fn is_increment(mark: Mark) -> bool
    ensures { result ≡ is_increment_mark mark }
{
    matches!(mark, Mark::PlusPlus)
}

fn plain_type(kind: &Tok) -> Scalar
    ensures { result ≡ plain_type_of kind.now }
{
    match kind {
        Tok::Word(Word::Char) => Scalar::Char,
        Tok::Word(Word::Uchar) => Scalar::Uchar,
        Tok::Word(Word::Short) => Scalar::Short,
        Tok::Word(Word::Ushort) => Scalar::Ushort,
        Tok::Word(Word::Uint) => Scalar::Uint,
        Tok::Word(Word::SizeT) => Scalar::Uint,
        _ => Scalar::Int,
    }
}

fn base_type(token: &Option<Token>) -> Scalar
    ensures { result ≡ base_type_of token.now }
{
    match token {
        None => Scalar::Int,
        Some(token) => plain_type(&token.kind),
    }
}

fn unsigned_type(scalar: Scalar) -> Scalar
    ensures { result ≡ unsigned_type_of scalar }
{
    match scalar {
        Scalar::Char => Scalar::Uchar,
        Scalar::Short => Scalar::Ushort,
        _ => Scalar::Uint,
    }
}

pub fn type_of(written: &Written) -> Scalar
    ensures { result ≡ type_of_written written.now }
{
    match written {
        Written::Plain(token) => plain_type(&token.kind),
        Written::Signed(token, base) => match &token.kind {
            Tok::Word(Word::Unsigned) => unsigned_type(base_type(base)),
            _ => base_type(base),
        },
    }
}

pub fn one_if(token: &Option<Token>) -> u32
    ensures { result ≡ one_if_of token.now }
{
    match token {
        None => 0,
        Some(_) => 1,
    }
}

pub fn type_tokens(written: &Written) -> u32
    ensures { result ≡ type_tokens_of written.now }
{
    match written {
        Written::Plain(_) | Written::Signed(_, None) => 1,
        Written::Signed(_, Some(_)) => 2,
    }
}

pub fn space_of(token: &Token) -> Space
    ensures { result ≡ space_in token.now.kind }
{
    match &token.kind {
        Tok::Word(Word::Constant | Word::UnderscoreConstant) => Space::Constant,
        _ => Space::Global,
    }
}

pub fn is_kernel(lead: &Option<Token>) -> bool
    ensures { result ≡ is_kernel_lead lead.now }
{
    match lead {
        None => false,
        Some(token) => matches!(
            &token.kind,
            Tok::Word(Word::Kernel | Word::UnderscoreKernel)
        ),
    }
}
