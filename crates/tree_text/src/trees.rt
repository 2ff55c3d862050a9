//! Trees as text. What has parts stands in parentheses, and words that the grammar gives alone are left out, since `flat` tells all tokens.

use crate::spelling::put_token as put;
use clc_lexer::Token;
use clc_tree::{
    Assign, Block, BlockPart, Cast, Chain, Cond, Declare, Do, Expr, For, ForStart, Function, If,
    Init, Item, Param, Params, Pointer, Post, PostStep, Primary, Returns, Scalar, Stmt, Tree,
    Unary, While,
};
use std::alloc::{AllocError, Global};

/// A token and a space before what comes next.
fn put_before(text: &mut String, token: &Option<Token>) -> Result<(), AllocError> {
    match token {
        Some(token) => {
            put(text, token)?;
            text.push(' ')
        }
        None => Ok(()),
    }
}

fn put_scalar(text: &mut String, scalar: &Scalar) -> Result<(), AllocError> {
    match scalar {
        Scalar::Plain(word) => put(text, word),
        Scalar::Signed(word, None) => put(text, word),
        Scalar::Signed(word, Some(base)) => {
            put(text, word)?;
            text.push(' ')?;
            put(text, base)
        }
    }
}

/// `(a , b)`
#[cycle(expression)]
fn put_expr(text: &mut String, expr: &Expr) -> Result<(), AllocError> {
    if expr.rest.is_empty() {
        return put_assign(text, &expr.first);
    }
    text.push('(')?;
    put_assign(text, &expr.first)?;
    for step in expr.rest.as_slice() {
        text.push_str(" , ")?;
        put_assign(text, &step.value)?;
    }
    text.push(')')
}

/// `(a = b)`
#[cycle(expression)]
fn put_assign(text: &mut String, assign: &Assign) -> Result<(), AllocError> {
    match assign {
        Assign::Cond(cond) => put_cond(text, cond),
        Assign::Set(place, operator, value) => {
            text.push('(')?;
            put_unary(text, place)?;
            text.push(' ')?;
            put(text, operator)?;
            text.push(' ')?;
            put_assign(text, value.get())?;
            text.push(')')
        }
    }
}

/// `(a ? b : c)`
#[cycle(expression)]
fn put_cond(text: &mut String, cond: &Cond) -> Result<(), AllocError> {
    let Some(choice) = &cond.choice else {
        return put_chain(text, &cond.test);
    };
    let choice = choice.get();
    text.push('(')?;
    put_chain(text, &cond.test)?;
    text.push_str(" ? ")?;
    put_expr(text, &choice.yes)?;
    text.push_str(" : ")?;
    put_cond(text, &choice.no)?;
    text.push(')')
}

/// `(a + b - c)`
#[cycle(expression)]
fn put_chain(text: &mut String, chain: &Chain) -> Result<(), AllocError> {
    match chain {
        Chain::One(operand) => put_cast(text, operand),
        Chain::Level(first, rest) => {
            text.push('(')?;
            put_chain(text, first.get())?;
            for step in rest.as_slice() {
                text.push(' ')?;
                put(text, &step.operator)?;
                text.push(' ')?;
                put_chain(text, &step.operand)?;
            }
            text.push(')')
        }
    }
}

/// `(cast int a)`
#[cycle(expression)]
fn put_cast(text: &mut String, cast: &Cast) -> Result<(), AllocError> {
    match cast {
        Cast::Of(unary) => put_unary(text, unary),
        Cast::To {
            target,
            operand,
            ..
        } => {
            text.push_str("(cast ")?;
            put_scalar(text, target)?;
            text.push(' ')?;
            put_cast(text, operand.get())?;
            text.push(')')
        }
    }
}

/// `(- a)`
#[cycle(expression)]
fn put_unary(text: &mut String, unary: &Unary) -> Result<(), AllocError> {
    match unary {
        Unary::Post(post) => put_post(text, post),
        Unary::Step(operator, operand) => {
            text.push('(')?;
            put(text, operator)?;
            text.push(' ')?;
            put_unary(text, operand.get())?;
            text.push(')')
        }
        Unary::Prefix(operator, operand) => {
            text.push('(')?;
            put(text, operator)?;
            text.push(' ')?;
            put_cast(text, operand.get())?;
            text.push(')')
        }
    }
}

/// `(a [b] ++)`
#[cycle(expression)]
fn put_post(text: &mut String, post: &Post) -> Result<(), AllocError> {
    if post.rest.is_empty() {
        return put_primary(text, &post.primary);
    }
    text.push('(')?;
    put_primary(text, &post.primary)?;
    for step in post.rest.as_slice() {
        text.push(' ')?;
        match step {
            PostStep::Step(operator) => put(text, operator)?,
            PostStep::Index(_, index, _) => {
                text.push('[')?;
                put_expr(text, index.get())?;
                text.push(']')?;
            }
        }
    }
    text.push(')')
}

/// `a`, `1`, `(paren a)` and `(call f a)`
#[cycle(expression)]
fn put_primary(text: &mut String, primary: &Primary) -> Result<(), AllocError> {
    match primary {
        Primary::Name(token) | Primary::Number(token) => return put(text, token),
        Primary::Paren(_, inner, _) => {
            text.push_str("(paren ")?;
            put_expr(text, inner.get())?;
        }
        Primary::Call {
            name,
            arguments,
            ..
        } => {
            text.push_str("(call ")?;
            put(text, name)?;
            if let Some(arguments) = arguments {
                text.push(' ')?;
                put_expr(text, arguments.get())?;
            }
        }
    }
    text.push(')')
}

/// An expression that may be left out, and what stands after it.
fn put_optional(text: &mut String, expr: &Option<Expr>, after: &str) -> Result<(), AllocError> {
    if let Some(expr) = expr {
        put_expr(text, expr)?;
    }
    text.push_str(after)
}

/// `const global const int * const restrict p`
fn put_pointer(text: &mut String, pointer: &Pointer, name: &Token) -> Result<(), AllocError> {
    put_before(text, &pointer.outer_const)?;
    put(text, &pointer.space)?;
    text.push(' ')?;
    put_before(text, &pointer.inner_const)?;
    put_scalar(text, &pointer.element)?;
    text.push_str(" * ")?;
    put_before(text, &pointer.own_const)?;
    put_before(text, &pointer.restrict)?;
    put(text, name)
}

fn put_init(text: &mut String, init: &Option<Init>) -> Result<(), AllocError> {
    match init {
        Some(init) => {
            text.push_str(" = ")?;
            put_assign(text, &init.value)
        }
        None => Ok(()),
    }
}

fn put_item(text: &mut String, item: &Item) -> Result<(), AllocError> {
    match item {
        Item::Array { name, size, .. } => {
            put(text, name)?;
            text.push('[')?;
            put(text, size)?;
            text.push(']')
        }
        Item::Value(name, init) => {
            put(text, name)?;
            put_init(text, init)
        }
    }
}

/// `(const int a = 1 , t[3])`
fn put_declare(text: &mut String, declare: &Declare) -> Result<(), AllocError> {
    text.push('(')?;
    match declare {
        Declare::Pointer {
            pointer,
            name,
            value,
            ..
        } => {
            put_pointer(text, pointer, name)?;
            put_init(text, value)?;
        }
        Declare::Values {
            constant,
            scalar,
            first,
            rest,
            ..
        } => {
            put_before(text, constant)?;
            put_scalar(text, scalar)?;
            text.push(' ')?;
            put_item(text, first)?;
            for step in rest.as_slice() {
                text.push_str(" , ")?;
                put_item(text, &step.item)?;
            }
        }
    }
    text.push(')')
}

/// `{a; (int b)}`
#[cycle(statement)]
fn put_block(text: &mut String, block: &Block) -> Result<(), AllocError> {
    text.push('{')?;
    for (index, part) in block.parts.as_slice().iter().enumerate() {
        if index > 0 {
            text.push(' ')?;
        }
        match part {
            BlockPart::Declare(declare) => put_declare(text, declare)?,
            BlockPart::Stmt(statement) => put_stmt(text, statement)?,
        }
    }
    text.push('}')
}

/// `(if a b; else c;)`
#[cycle(statement)]
fn put_if(text: &mut String, choice: &If) -> Result<(), AllocError> {
    text.push_str("(if ")?;
    put_expr(text, &choice.test)?;
    text.push(' ')?;
    put_stmt(text, choice.body.get())?;
    if let Some(other) = &choice.other {
        text.push_str(" else ")?;
        put_stmt(text, &other.get().body)?;
    }
    text.push(')')
}

/// `(while a b;)`
#[cycle(statement)]
fn put_while(text: &mut String, loops: &While) -> Result<(), AllocError> {
    text.push_str("(while ")?;
    put_expr(text, &loops.test)?;
    text.push(' ')?;
    put_stmt(text, loops.body.get())?;
    text.push(')')
}

/// `(do a; while b)`
#[cycle(statement)]
fn put_do(text: &mut String, loops: &Do) -> Result<(), AllocError> {
    text.push_str("(do ")?;
    put_stmt(text, loops.body.get())?;
    text.push_str(" while ")?;
    put_expr(text, &loops.test)?;
    text.push(')')
}

/// `(for (a; b; c) d;)`
#[cycle(statement)]
fn put_for(text: &mut String, loops: &For) -> Result<(), AllocError> {
    text.push_str("(for (")?;
    match &loops.start {
        ForStart::Declare(declare) => {
            put_declare(text, declare)?;
            text.push_str("; ")?;
        }
        ForStart::Eval(start, _) => put_optional(text, start, "; ")?,
    }
    put_optional(text, &loops.test, "; ")?;
    put_optional(text, &loops.step, ") ")?;
    put_stmt(text, loops.body.get())?;
    text.push(')')
}

#[cycle(statement)]
fn put_stmt(text: &mut String, statement: &Stmt) -> Result<(), AllocError> {
    match statement {
        Stmt::Block(block) => put_block(text, block),
        Stmt::If(choice) => put_if(text, choice),
        Stmt::While(loops) => put_while(text, loops),
        Stmt::Do(loops) => put_do(text, loops),
        Stmt::For(loops) => put_for(text, loops),
        Stmt::Empty(_) => text.push(';'),
        Stmt::Break(_, _) => text.push_str("break;"),
        Stmt::Continue(_, _) => text.push_str("continue;"),
        Stmt::Return(_, None, _) => text.push_str("return;"),
        Stmt::Return(_, value, _) => {
            text.push_str("return ")?;
            put_optional(text, value, ";")
        }
        Stmt::Eval(expr, _) => {
            put_expr(text, expr)?;
            text.push(';')
        }
    }
}

fn put_param(text: &mut String, param: &Param) -> Result<(), AllocError> {
    match param {
        Param::Pointer(pointer, name) => put_pointer(text, pointer, name),
        Param::Value(constant, scalar, name) => {
            put_before(text, constant)?;
            put_scalar(text, scalar)?;
            text.push(' ')?;
            put(text, name)
        }
    }
}

fn put_params(text: &mut String, params: &Option<Params>) -> Result<(), AllocError> {
    match params {
        None => Ok(()),
        Some(Params::Void(word)) => put(text, word),
        Some(Params::List(first, rest)) => {
            put_param(text, first)?;
            for step in rest.as_slice() {
                text.push_str(" , ")?;
                put_param(text, &step.param)?;
            }
            Ok(())
        }
    }
}

/// `(kernel void f (int a) {..})`
fn put_function(text: &mut String, function: &Function) -> Result<(), AllocError> {
    text.push('(')?;
    put_before(text, &function.lead)?;
    match &function.returns {
        Returns::Void(word) => put(text, word)?,
        Returns::Value(scalar) => put_scalar(text, scalar)?,
    }
    text.push(' ')?;
    put(text, &function.name)?;
    text.push_str(" (")?;
    put_params(text, &function.params)?;
    text.push_str(") ")?;
    put_block(text, &function.body)?;
    text.push(')')
}

/// The functions of a tree.
pub fn program_text(alloc: Global, tree: &Tree) -> Result<String, AllocError> {
    let mut text = String::new(alloc);
    for function in tree.functions.as_slice() {
        if !text.is_empty() {
            text.push(' ')?;
        }
        put_function(&mut text, function)?;
    }
    Ok(text)
}
