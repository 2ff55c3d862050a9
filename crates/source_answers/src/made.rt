//! Trees that are made by hand: proper ones, and others, of which the parser gives none. A part is kept in a box while more is made that may
//! fail, so that dropping it there is no matter of its form. For the same reason all tokens of a form are read before it is made.

use clc_lexer::{LexFault, Mark, Tok, Token, lex};
use clc_proper::proper;
use clc_tree::{
    Assign, Block, BlockPart, Cast, Chain, ChainStep, Cond, Else, Expr, Function, If, Post,
    Primary, Returns, Stmt, Tree, Unary,
};
use clc_tree_tokens::flat;
use sqlite_items::{Boxed, Items};
use std::alloc::{AllocError, Global};
use tree_text::put_token;

/// The tokens of a text, the last one first.
fn reversed(alloc: Global, text: &str) -> Result<Vec<Token>, LexFault> {
    let mut tokens = lex(alloc, text.as_bytes())?;
    tokens.reverse();
    Ok(tokens)
}

/// The next one of such tokens, a comma where there is none.
fn next(tokens: &mut Vec<Token>) -> Token {
    match tokens.pop() {
        Some(token) => token,
        None => Token {
            kind: Tok::Mark(Mark::Comma),
            from: 0,
            to: 0,
        },
    }
}

/// The first token of a text, a comma where there is none.
fn token(alloc: Global, text: &str) -> Result<Token, LexFault> {
    let mut tokens = reversed(alloc, text)?;
    Ok(next(&mut tokens))
}

fn operand(alloc: Global, primary: Primary) -> Chain {
    let rest = Items::new(alloc);
    Chain::One(Cast::Of(Unary::Post(Post { primary, rest })))
}

fn named(alloc: Global, name: &str) -> Result<Boxed<Chain>, LexFault> {
    let name = Primary::Name(token(alloc, name)?);
    Ok(Boxed::new(alloc, operand(alloc, name))?)
}

/// `a`, an operator and an operand
fn level(alloc: Global, operator: &str, operand: Boxed<Chain>) -> Result<Boxed<Chain>, LexFault> {
    let first = named(alloc, "a")?;
    let operator = token(alloc, operator)?;
    let operand = operand.into_inner();
    let mut steps = Items::new(alloc);
    steps.push(ChainStep { operator, operand })?;
    Ok(Boxed::new(alloc, Chain::Level(first, steps))?)
}

fn expr(alloc: Global, test: Boxed<Chain>) -> Expr {
    let test = test.into_inner();
    Expr {
        first: Assign::Cond(Cond { test, choice: None }),
        rest: Items::new(alloc),
    }
}

fn eval(alloc: Global, chain: Boxed<Chain>) -> Result<Boxed<Stmt>, LexFault> {
    let end = token(alloc, ";")?;
    Ok(Boxed::new(alloc, Stmt::Eval(expr(alloc, chain), end))?)
}

/// `else d;`
fn other(alloc: Global) -> Result<Option<Boxed<Else>>, LexFault> {
    let body = eval(alloc, named(alloc, "d")?)?;
    let word = token(alloc, "else")?;
    let body = body.into_inner();
    Ok(Some(Boxed::new(alloc, Else { word, body })?))
}

/// An `if` whose word and marks these tokens are.
fn chosen(
    tokens: &mut Vec<Token>,
    test: Expr,
    body: Boxed<Stmt>,
    other: Option<Boxed<Else>>,
) -> Stmt {
    Stmt::If(If {
        word: next(tokens),
        opening: next(tokens),
        test,
        closing: next(tokens),
        body,
        other,
    })
}

fn choice(
    alloc: Global,
    test: &str,
    body: Boxed<Stmt>,
    other: Option<Boxed<Else>>,
) -> Result<Boxed<Stmt>, LexFault> {
    let test = named(alloc, test)?;
    let mut tokens = reversed(alloc, "if()")?;
    let test = expr(alloc, test);
    Ok(Boxed::new(alloc, chosen(&mut tokens, test, body, other))?)
}

/// `if(a)if(b)c;else d;`, where the `else` is that of the inner `if` or else of the outer one
fn nested(alloc: Global, is_nearer: bool) -> Result<Boxed<Stmt>, LexFault> {
    let inmost = eval(alloc, named(alloc, "c")?)?;
    if is_nearer {
        let inner = choice(alloc, "b", inmost, other(alloc)?)?;
        return choice(alloc, "a", inner, None);
    }
    let inner = choice(alloc, "b", inmost, None)?;
    choice(alloc, "a", inner, other(alloc)?)
}

/// The chain that a row names.
fn chain(alloc: Global, form: &str, rest: &str) -> Result<Boxed<Chain>, LexFault> {
    let chain = match (form, rest.split_once(' ')) {
        ("level", Some((outer, inner))) => {
            let operand = level(alloc, inner, named(alloc, "a")?)?;
            return level(alloc, outer, operand);
        }
        ("level", None) => Chain::Level(named(alloc, rest)?, Items::new(alloc)),
        _ => operand(alloc, Primary::Number(token(alloc, rest)?)),
    };
    Ok(Boxed::new(alloc, chain)?)
}

/// The statement that a row names.
fn statement(alloc: Global, form: &str, rest: &str) -> Result<Boxed<Stmt>, LexFault> {
    if form == "else" {
        return nested(alloc, rest == "nearer");
    }
    eval(alloc, chain(alloc, form, rest)?)
}

/// A function of these tokens and of what stands in its body.
fn function(tokens: &mut Vec<Token>, parts: Items<BlockPart>) -> Function {
    Function {
        lead: None,
        returns: Returns::Void(next(tokens)),
        name: next(tokens),
        opening: next(tokens),
        params: None,
        closing: next(tokens),
        body: Block {
            opening: next(tokens),
            parts,
            closing: next(tokens),
        },
    }
}

/// `void f(){` and a statement and `}`
fn program(alloc: Global, statement: Boxed<Stmt>) -> Result<Tree, LexFault> {
    let mut tokens = reversed(alloc, "void f(){}")?;
    let mut parts = Items::new(alloc);
    parts.push(BlockPart::Stmt(statement.into_inner()))?;
    let mut functions = Items::new(alloc);
    functions.push(function(&mut tokens, parts))?;
    Ok(Tree { functions })
}

/// The tree that a row names.
fn tree(alloc: Global, form: &str, rest: &str) -> Result<Tree, LexFault> {
    let statement = statement(alloc, form, rest)?;
    program(alloc, statement)
}

/// Whether a tree is proper, and its tokens in order.
fn described(alloc: Global, tree: &Tree) -> Result<String, AllocError> {
    let mut text = String::new(alloc);
    text.push_str(if proper(tree) { "proper:" } else { "improper:" })?;
    for token in &flat(alloc, tree)? {
        text.push(' ')?;
        put_token(&mut text, token)?;
    }
    Ok(text)
}

/// The answer to the form of a tree and, after a space, its parts.
pub fn answer(alloc: Global, text: &str) -> Result<String, AllocError> {
    let Some((form, rest)) = text.split_once(' ') else {
        return String::from_str(alloc, "no form");
    };
    match tree(alloc, form, rest) {
        Ok(tree) => described(alloc, &tree),
        Err(LexFault::Memory) => Err(AllocError),
        Err(LexFault::Rule { .. }) => String::from_str(alloc, "no tree"),
    }
}
