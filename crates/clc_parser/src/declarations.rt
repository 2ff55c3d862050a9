//! Declarations, rule by rule. `room` is how many depths are left here, and `inner` how many are left one level deeper.

ghost use Rattle.std.specs.Prelude.{◌≡◌, ◌<◌, ◌^◌, ◌-◌};
ghost use Rattle.clc_tree.specs.StatementRules as spec;
ghost use Rattle.clc_parser.specs.Parts as own;
ghost use Rattle.clc_parser.specs.Reads.{Reads};

use crate::expressions::{assign, scalar};
use crate::tokens::{Stop, Tokens};
use clc_lexer::Token;
use clc_tree::{Declare, Init, Item, ItemStep, Kind, Pointer};
use sqlite_items::{Boxed, Items};
use std::alloc::Global;

/// The next token where it is of the kind.
#[tactic(auto, unfolding(crate::specs::StatementRules::optional))]
pub fn optional(tokens: &mut Tokens<'_>, room: u32, kind: Kind) -> Result<Option<Token>, Stop>
    ensures { Reads (spec.optional room kind tokens.old.left.now) result tokens.new.left.now }
{
    if tokens.sees(kind) {
        return Ok(Some(tokens.one(room, kind)?));
    }
    Ok(None)
}

/// The type of a pointer, after its first `const`.
#[tactic(auto, unfolding(crate::specs::StatementRules::pointer_from))]
pub fn pointer_from(
    alloc: Global,
    tokens: &mut Tokens<'_>,
    room: u32,
    outer_const: Option<Token>,
) -> Result<Pointer, Stop>
    ensures { Reads (spec.pointer_from room outer_const tokens.old.left.now) result tokens.new.left.now }
{
    let space = tokens.one(room, Kind::Space)?;
    let inner_const = optional(tokens, room, Kind::Const)?;
    let element = Boxed::new(alloc, scalar(tokens, room)?)?;
    let star = tokens.one(room, Kind::Star)?;
    let own_const = optional(tokens, room, Kind::Const)?;
    let restrict = optional(tokens, room, Kind::Restrict)?;
    let element = element.into_inner();
    Ok(Pointer {
        outer_const,
        space,
        inner_const,
        element,
        star,
        own_const,
        restrict,
    })
}

/// `["=" assign]`. It comes in a box, as it is kept while more is read.
#[tactic(auto, unfolding(crate::specs::StatementRules::initial))]
fn initial(alloc: Global, tokens: &mut Tokens<'_>, inner: u32) -> Result<Option<Boxed<Init>>, Stop>
    ensures { Reads (spec.initial inner tokens.old.left.now) result tokens.new.left.now }
{
    if tokens.sees(Kind::Equals) {
        let equals = tokens.take(Kind::Equals)?;
        let value = assign(alloc, tokens, inner)?;
        return Ok(Some(Boxed::new(alloc, Init { equals, value })?));
    }
    Ok(None)
}

/// An array, after its name.
#[tactic(auto, unfolding(crate::specs::StatementRules::array_from))]
fn array_from(tokens: &mut Tokens<'_>, inner: u32, name: Token) -> Result<Item, Stop>
    ensures { Reads (spec.array_from inner name tokens.old.left.now) result tokens.new.left.now }
{
    let opening = tokens.take(Kind::LeftBracket)?;
    let size = tokens.one(inner, Kind::Number)?;
    let closing = tokens.take(Kind::RightBracket)?;
    Ok(Item::Array {
        name,
        opening,
        size,
        closing,
    })
}

#[tactic(auto, unfolding(crate::specs::StatementRules::item_of))]
fn item(alloc: Global, tokens: &mut Tokens<'_>, inner: u32) -> Result<Item, Stop>
    ensures { Reads (spec.item_of inner tokens.old.left.now) result tokens.new.left.now }
{
    let name = tokens.take(Kind::Name)?;
    if tokens.sees(Kind::LeftBracket) {
        return array_from(tokens, inner, name);
    }
    let value = initial(alloc, tokens, inner)?;
    Ok(Item::Value(name, value.map(Boxed::into_inner)))
}

#[tactic(auto, unfolding(crate::specs::StatementRules::item_after))]
fn item_step(alloc: Global, tokens: &mut Tokens<'_>, inner: u32) -> Result<ItemStep, Stop>
    ensures { Reads (spec.item_after inner tokens.old.left.now) result tokens.new.left.now }
{
    let comma = tokens.take(Kind::Comma)?;
    let item = item(alloc, tokens, inner)?;
    Ok(ItemStep { comma, item })
}

fn item_steps(alloc: Global, tokens: &mut Tokens<'_>, inner: u32) -> Result<Items<ItemStep>, Stop>
    ensures { Reads (spec.items_after inner tokens.old.left.now) result tokens.new.left.now }
{
    let mut rest = Items::new(alloc);
    'turns: while tokens.sees(Kind::Comma) {
        rest.push(item_step(alloc, tokens, inner)?)?;
    }
    Ok(rest)
}

/// A declaration of numbers and arrays, after its `const`.
#[tactic(auto, unfolding(crate::specs::StatementRules::values_from))]
fn values_from(
    alloc: Global,
    tokens: &mut Tokens<'_>,
    inner: u32,
    constant: Option<Token>,
) -> Result<Declare, Stop>
    requires { inner < 2 ^ 32 - 1 }
    ensures { Reads (spec.values_from inner constant tokens.old.left.now) result tokens.new.left.now }
{
    let scalar = Boxed::new(alloc, scalar(tokens, inner + 1)?)?;
    let first = Boxed::new(alloc, item(alloc, tokens, inner)?)?;
    let rest = item_steps(alloc, tokens, inner)?;
    let end = tokens.take(Kind::Semicolon)?;
    Ok(Declare::Values {
        constant,
        scalar: scalar.into_inner(),
        first: first.into_inner(),
        rest,
        end,
    })
}

/// A declaration of a pointer, after its type.
#[tactic(auto, unfolding(crate::specs::StatementRules::named_from))]
fn named_from(
    alloc: Global,
    tokens: &mut Tokens<'_>,
    inner: u32,
    pointer: Boxed<Pointer>,
) -> Result<Declare, Stop>
    ensures { Reads (spec.named_from inner pointer tokens.old.left.now) result tokens.new.left.now }
{
    let name = tokens.take(Kind::Name)?;
    let value = initial(alloc, tokens, inner)?;
    let end = tokens.take(Kind::Semicolon)?;
    Ok(Declare::Pointer {
        pointer: pointer.into_inner(),
        name,
        value: value.map(Boxed::into_inner),
        end,
    })
}

/// A declaration of a pointer, after its first `const`.
fn pointed(
    alloc: Global,
    tokens: &mut Tokens<'_>,
    inner: u32,
    constant: Option<Token>,
) -> Result<Declare, Stop>
    requires { inner < 2 ^ 32 - 1 }
    ensures { Reads (own.pointed inner constant tokens.old.left.now) result tokens.new.left.now }
{
    let pointer = Boxed::new(alloc, pointer_from(alloc, tokens, inner + 1, constant)?)?;
    named_from(alloc, tokens, inner, pointer)
}

#[tactic(auto, unfolding(crate::specs::StatementRules::declaration))]
fn declaration(alloc: Global, tokens: &mut Tokens<'_>, inner: u32) -> Result<Declare, Stop>
    requires { inner < 2 ^ 32 - 1 }
    ensures { Reads (spec.declaration inner tokens.old.left.now) result tokens.new.left.now }
{
    let constant = optional(tokens, inner + 1, Kind::Const)?;
    if tokens.sees(Kind::Space) {
        return pointed(alloc, tokens, inner, constant);
    }
    values_from(alloc, tokens, inner, constant)
}

/// A declaration where `room` depths are left.
pub fn declare(alloc: Global, tokens: &mut Tokens<'_>, room: u32) -> Result<Declare, Stop>
    ensures { Reads ((spec.levels room).declare tokens.old.left.now) result tokens.new.left.now }
{
    if room == 0 {
        return Err(tokens.deny(Kind::DeclareStart));
    }
    declaration(alloc, tokens, room - 1)
}
