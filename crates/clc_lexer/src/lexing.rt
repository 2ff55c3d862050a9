//! From a source to its tokens.

ghost use Rattle.std.specs.Prelude.{◌≡◌, ◌≤◌, ◌<◌, ◌⊎◌, ℕ, length, Err, IfOk, ◌+◌};
ghost use Rattle.clc_lexer.specs.SourceText.{IsLexed, IsFirstFault, HasNoFault};
ghost use Rattle.clc_lexer.specs.Walking.{ReadsAs, NumberReadsAs, WordReadsAs, IsTokenStep, Steps, IsStop};
ghost use Rattle.clc_lexer.specs.declared.token.LexRule.{LexRule as LexRuleType};

use crate::numbers::number_of;
use crate::scanning::{Found, find};
use crate::text::Text;
use crate::token::{LexFault, LexRule, Tok, Token};
use crate::words::{is_left_out, word_of};
use std::alloc::Global;

const MOST_BYTES: usize = 65_536;

/// What letters and digits say that stand at this offset.
fn run_kind(alloc: Global, text: &[u8], at: u32) -> Result<Tok, LexFault>
    ensures { ReadsAs text.now at result }
{
    match text {
        [b'0'..=b'9', ..] => number_kind(text, at),
        _ => word_kind(alloc, text, at),
    }
}

fn number_kind(text: &[u8], at: u32) -> Result<Tok, LexFault>
    ensures { NumberReadsAs text.now at result }
{
    match number_of(text) {
        Some((value, unsigned)) => Ok(Tok::Number { value, unsigned }),
        None => Err(LexFault::Rule {
            rule: LexRule::L3,
            at,
        }),
    }
}

fn word_kind(alloc: Global, text: &[u8], at: u32) -> Result<Tok, LexFault>
    ensures { WordReadsAs text.now at result }
{
    if let Some(word) = word_of(text) {
        return Ok(Tok::Word(word));
    }
    if is_left_out(text) {
        return Err(LexFault::Rule {
            rule: LexRule::L5,
            at,
        });
    }
    Ok(Tok::Name(Text::from_slice(alloc, text)?))
}

/// A piece of a source: where it ends, and its token unless it is white space or a comment.
#[derive(Drop)]
struct Step {
    token: Option<Token>,
    end: usize,
}

impl Step {
    fn with_token(kind: Tok, from: u32, to: u32) -> Step
        ensures { IsTokenStep kind from to result }
    {
        Step {
            token: Some(Token { kind, from, to }),
            end: to as usize,
        }
    }
}

/// The piece at the front of these bytes, which stand at this offset.
fn read_piece(alloc: Global, bytes: &[u8], at: u32) -> Result<Step, LexFault>
    requires short { at + length bytes.now ≤ 65536 }
    requires some { 0 < length bytes.now }
    ensures { Steps bytes.now at result }
{
    match find(bytes) {
        Found::Blank(len) => Ok(Step {
            token: None,
            end: at as usize + len,
        }),
        Found::Run(len) => {
            let kind = run_kind(alloc, &bytes[..len], at)?;
            Ok(Step::with_token(kind, at, at + len as u32))
        }
        Found::Mark(mark) => {
            let len = mark.spelling().len() as u32;
            Ok(Step::with_token(Tok::Mark(mark), at, at + len))
        }
        Found::Stray => Err(LexFault::Rule {
            rule: LexRule::L2,
            at,
        }),
        Found::Open => Err(LexFault::Rule {
            rule: LexRule::L4,
            at,
        }),
    }
}

/// The tokens of a source that isn't too long.
fn lex_short(alloc: Global, source: &[u8]) -> Result<Vec<Token>, LexFault>
    requires { length source.now ≤ 65536 }
    ensures tokens { IfOk result (λ tokens. IsLexed source.now tokens.items) }
    ensures fault { (rule : LexRuleType) (at : ℕ) → result ≡ Err (LexFault.Rule rule at) → IsStop source.now rule at }
{
    let mut tokens = Vec::new(alloc);
    let mut at = 0;
    'pieces: while at < source.len() {
        let Step { token, end } = read_piece(alloc, &source[at..], at as u32)?;
        if let Some(token) = token {
            tokens.push(token)?;
        }
        at = end;
    }
    Ok(tokens)
}

/// The tokens of a source in their order (OpenCL C 1.2, 6; C99, 6.4), with the offsets of their bytes.
///
/// Else the first fault: L1 with offset 65,536, or else the fault with the least offset. `Memory` where no memory was left.
pub fn lex(alloc: Global, source: &[u8]) -> Result<Vec<Token>, LexFault>
    ensures tokens { IfOk result (λ tokens. IsLexed source.now tokens.items) }
    ensures lawful { IfOk result (λ _. HasNoFault source.now) }
    ensures fault { (rule : LexRuleType) (at : ℕ) → result ≡ Err (LexFault.Rule rule at) → IsFirstFault source.now rule at }

    // Only want of memory hides the first fault.
    ensures refused { (rule : LexRuleType) (at : ℕ) → IsFirstFault source.now rule at
        → (result ≡ Err (LexFault.Rule rule at)) ⊎ (result ≡ Err LexFault.Memory) }
{
    if source.len() > MOST_BYTES {
        return Err(LexFault::Rule {
            rule: LexRule::L1,
            at: MOST_BYTES as u32,
        });
    }
    lex_short(alloc, source)
}
