//! From a source to its typed tree.

ghost use Rattle.std.specs.Prelude.{◌≡◌, ◌≤◌, ◌<◌, ◌^◌, ℕ, List, Err, IfOk, length};
ghost use Rattle.clc_tree.specs.Flat.{flat_of};
ghost use Rattle.clc_types.specs.Judged.{Fine};
ghost use Rattle.clc_types.specs.Programs.{program};
ghost use Rattle.promise.specs.declared.refusal.SourceRule.{SourceRule as AnyRule};
ghost use Rattle.clc_front.specs.Profile.{IsSpelled, IsProgram, IsTyped, IsFirstViolation};
ghost use Rattle.clc_front.specs.Profile.{lexical_rule as lexical_rule_of, typing_rule as typing_rule_of};
ghost use Rattle.clc_front.specs.Profile.{place_of as place_of_token};

use clc_check::check;
use clc_lexer::{LexFault, LexRule, Token, lex};
use clc_parser::{GramFault, discard, parse};
use clc_tree::Tree;
use clc_types::{TypeFault, TypeRule, Typed};
use promise::{Refusal, SourceRule};
use std::alloc::Global;

fn typing_rule(rule: TypeRule) -> SourceRule
    ensures { result ≡ typing_rule_of rule }
{
    match rule {
        TypeRule::S1 => SourceRule::S1,
        TypeRule::S2 => SourceRule::S2,
        TypeRule::S3 => SourceRule::S3,
        TypeRule::S4 => SourceRule::S4,
        TypeRule::S5 => SourceRule::S5,
        TypeRule::S6 => SourceRule::S6,
        TypeRule::S7 => SourceRule::S7,
        TypeRule::S8 => SourceRule::S8,
        TypeRule::S9 => SourceRule::S9,
        TypeRule::S10 => SourceRule::S10,
        TypeRule::S11 => SourceRule::S11,
        TypeRule::S12 => SourceRule::S12,
        TypeRule::S13 => SourceRule::S13,
        TypeRule::S14 => SourceRule::S14,
    }
}

fn lexical_rule(rule: LexRule) -> SourceRule
    ensures { result ≡ lexical_rule_of rule }
{
    match rule {
        LexRule::L1 => SourceRule::L1,
        LexRule::L2 => SourceRule::L2,
        LexRule::L3 => SourceRule::L3,
        LexRule::L4 => SourceRule::L4,
        LexRule::L5 => SourceRule::L5,
    }
}

/// The offset of a token, or of the end of the source where the tokens end before it.
fn place_of(source: &[u8], tokens: &[Token], token: u32) -> u32
    requires { length source.now < 2 ^ 32 }
    ensures { result ≡ place_of_token source.now tokens.now token }
{
    match tokens.get(token as usize) {
        Some(token) => token.from,
        None => source.len() as u32,
    }
}

/// The tokens of a source.
fn tokens_of(alloc: Global, source: &[u8]) -> Result<Vec<Token>, Refusal>
    ensures ok { IfOk result (λ tokens. IsSpelled source.now tokens.items) }
    ensures err { (kernel : List ℕ) (rule : AnyRule) (at : ℕ) → result ≡ Err (Refusal.Rule rule at) → IsFirstViolation source.now kernel rule at }
{
    match lex(alloc, source) {
        Ok(tokens) => Ok(tokens),
        Err(LexFault::Rule { rule, at }) => Err(Refusal::Rule {
            rule: lexical_rule(rule),
            at,
        }),
        Err(LexFault::Memory) => Err(Refusal::Memory),
    }
}

/// The program that the tokens of a source are.
fn program_of(alloc: Global, source: &[u8], tokens: &[Token]) -> Result<Tree, Refusal>
    requires { IsSpelled source.now tokens.now }
    ensures ok { IfOk result (λ tree. IsProgram source.now tokens.now tree) }
    ensures flat { IfOk result (λ tree. flat_of tree ≡ tokens.now) }
    ensures err { (kernel : List ℕ) (rule : AnyRule) (at : ℕ) → result ≡ Err (Refusal.Rule rule at) → IsFirstViolation source.now kernel rule at }
{
    match parse(alloc, tokens) {
        Ok(tree) => Ok(tree),
        Err(GramFault::G1 { token }) => Err(Refusal::Rule {
            rule: SourceRule::G1,
            at: place_of(source, tokens, token),
        }),
        Err(GramFault::G2 { token }) => Err(Refusal::Rule {
            rule: SourceRule::G2,
            at: place_of(source, tokens, token),
        }),
        Err(GramFault::Memory) => Err(Refusal::Memory),
    }
}

/// The typed tree of the program that the tokens of a source are.
fn typed_of(alloc: Global, source: &[u8], tokens: &[Token], tree: &Tree) -> Result<Typed, Refusal>
    requires program { IsProgram source.now tokens.now tree.now }
    requires flat { flat_of tree.now ≡ tokens.now }
    ensures ok { IfOk result (λ typed. program tree.now ≡ Fine typed.functions) }
    ensures few { IfOk result (λ typed. length typed.functions < 2 ^ 32) }
    ensures err { (kernel : List ℕ) (rule : AnyRule) (at : ℕ) → result ≡ Err (Refusal.Rule rule at) → IsFirstViolation source.now kernel rule at }
{
    match check(alloc, tree) {
        Ok(typed) => Ok(typed),
        Err(TypeFault::Rule { rule, token }) => Err(Refusal::Rule {
            rule: typing_rule(rule),
            at: place_of(source, tokens, token),
        }),
        Err(TypeFault::Memory) => Err(Refusal::Memory),
    }
}

/// The typed tree of a source, or the first rule that it violates whatever kernel is wanted.
pub fn typed_tree(alloc: Global, source: &[u8]) -> Result<Typed, Refusal>
    ensures ok { IfOk result (λ typed. IsTyped source.now typed.functions) }
    ensures few { IfOk result (λ typed. length typed.functions < 2 ^ 32) }
    ensures err { (kernel : List ℕ) (rule : AnyRule) (at : ℕ) → result ≡ Err (Refusal.Rule rule at) → IsFirstViolation source.now kernel rule at }
{
    let tokens = tokens_of(alloc, source)?;
    let tree = program_of(alloc, source, &tokens)?;
    let typed = typed_of(alloc, source, &tokens, &tree);
    discard(tree);
    typed
}
