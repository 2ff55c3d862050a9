//! The tree of a program in OpenCL C, or the first fault of its tokens in the grammar.
#![tactic(auto)]

mod declarations;
mod expressions;
mod functions;
mod statements;
mod tokens;

ghost use Rattle.std.specs.Prelude.{◌≡◌, ◌<◌, ◌^◌, IfOk, IfErr, length};
ghost use Rattle.clc_tree.specs.SourceText.{IsTreeOf};
ghost use Rattle.clc_parser.specs.SourceTree.{IsText, IsFirstFault, HasOneAnswer, fault_at};

use clc_lexer::Token;
use clc_tree::Tree;
use functions::program;
use std::alloc::Global;
use tokens::{Stop, Tokens};

/// Why tokens are no program. A token is told by its number, the first one having 0; the end has the number of tokens.
#[derive(Clone, Copy, Debug, PartialEq, Eq)]
pub enum GramFault {
    /// No program goes on with this token, or, at the end, none ends there.
    G1 { token: u32 },
    /// The token lies at a depth above 64.
    G2 { token: u32 },
    /// No memory was left.
    Memory,
}

/// How many depths a token may have: 0 to 64.
const DEPTHS: u32 = 65;

/// The program that the tokens are, or the first fault: the one with the least token. Memory is asked for as the tree grows.
pub fn parse(alloc: Global, tokens: &[Token]) -> Result<Tree, GramFault>
    requires { length tokens.now < 2 ^ 32 }
    ensures tree { IfOk result (λ tree. IsTreeOf tree tokens.now) }
    ensures text { IfOk result (λ tree. IsText 65 tree tokens.now) }
    ensures fault { IfErr result (λ fault. IsFirstFault 65 fault tokens.now) }
{
    parse_within(alloc, tokens, DEPTHS)
}

/// As `parse`, where a token may have the depths below `depths`.
fn parse_within(alloc: Global, tokens: &[Token], depths: u32) -> Result<Tree, GramFault>
    requires { length tokens.now < 2 ^ 32 }
    ensures tree { IfOk result (λ tree. IsTreeOf tree tokens.now) }
    ensures text { IfOk result (λ tree. IsText depths tree tokens.now) }
    ensures fault { IfErr result (λ fault. IsFirstFault depths fault tokens.now) }
{
    let mut cursor = Tokens { left: tokens };
    let outcome = program(alloc, &mut cursor, depths);
    let left = cursor.left.len();
    let token = tokens.len().saturating_sub(left) as u32;
    match outcome {
        Ok(tree) => {
            if left == 0 {
                return Ok(tree);
            }
            Err(GramFault::G1 { token })
        }
        Err(stop) => Err(fault_of(stop, token)),
    }
}

/// Drops a tree. That takes a proof for each kind of part, which is made here, where parts of trees are dropped anyway; a crate that drops
/// trees by this call needs none of its own.
pub fn discard(_tree: Tree) {}

fn fault_of(stop: Stop, token: u32) -> GramFault
    ensures { result ≡ fault_at stop token }
{
    match stop {
        Stop::Wrong => GramFault::G1 { token },
        Stop::Deep => GramFault::G2 { token },
        Stop::Memory => GramFault::Memory,
    }
}

/// Tokens are a program or have a first fault, not both, and they have one first fault at most.
pub fn law_one_answer()
    ensures { HasOneAnswer }
{}
