//! Built-in functions of values.

ghost use Rattle.std.specs.Prelude.{◌≡◌, ◌≤◌, ℕ, IfOk, MatchResult, get_or};
ghost use Rattle.item_meaning.specs.NodeMeanings.{function_of, with_words, first_word, applied_to};
ghost use Rattle.item_values.specs.Answers.{WordsAre};

use crate::stop::{Stop, memory};
use clc_types::Builtin;
use item_meaning::Value;
use q_functions::{NumberFunction, Work, WorkFunction, number_function, work_function};
use q_lane::Scalar;
use sqlite_items::Items;
use std::alloc::{AllocError, Global};

/// The words of values that are all numbers.
fn words_of(alloc: Global, values: &[Value]) -> Result<Option<Items<u32>>, AllocError>
    ensures { IfOk result (λ words. WordsAre values.now words) }
{
    let mut words = Items::new(alloc);
    for value in values {
        match value {
            Value::Num(word) => words.push(*word)?,
            Value::Null | Value::At { .. } => return Ok(None),
        }
    }
    Ok(Some(words))
}

fn first_of(words: &[u32]) -> u32
    ensures { result ≡ first_word words.now }
{
    match words {
        [first, ..] => *first,
        [] => 0,
    }
}

fn of_words(which: Builtin, work: &Work, scalar: Scalar, words: &[u32]) -> u32
    requires { (i : ℕ) → 1 ≤ get_or work.now.local i 1 }
    ensures { result ≡ applied_to work.now (function_of which) scalar words.now }
{
    let first = first_of(words);
    match which {
        Builtin::GetWorkDim => work_function(WorkFunction::WorkDim, work, first),
        Builtin::GetGlobalId => work_function(WorkFunction::GlobalId, work, first),
        Builtin::GetGlobalSize => work_function(WorkFunction::GlobalSize, work, first),
        Builtin::GetLocalId => work_function(WorkFunction::LocalId, work, first),
        Builtin::GetLocalSize => work_function(WorkFunction::LocalSize, work, first),
        Builtin::GetGroupId => work_function(WorkFunction::GroupId, work, first),
        Builtin::GetNumGroups => work_function(WorkFunction::NumGroups, work, first),
        Builtin::Min => number_function(NumberFunction::Min, scalar, words),
        Builtin::Max => number_function(NumberFunction::Max, scalar, words),
        Builtin::Clamp => number_function(NumberFunction::Clamp, scalar, words),
        Builtin::Abs => number_function(NumberFunction::Abs, scalar, words),
        Builtin::AbsDiff => number_function(NumberFunction::AbsDiff, scalar, words),
        Builtin::Mul24 => number_function(NumberFunction::Mul24, scalar, words),
        Builtin::MulHi => number_function(NumberFunction::MulHi, scalar, words),
        Builtin::Rotate => number_function(NumberFunction::Rotate, scalar, words),
        Builtin::Clz => number_function(NumberFunction::Clz, scalar, words),
        Builtin::Popcount => number_function(NumberFunction::Popcount, scalar, words),
        Builtin::AddSat => number_function(NumberFunction::AddSat, scalar, words),
        Builtin::SubSat => number_function(NumberFunction::SubSat, scalar, words),
    }
}

/// What a built-in function that works in this type gives of values. Sizes of groups are at least 1. Want of memory is the only error.
pub fn builtin(
    alloc: Global,
    work: &Work,
    which: Builtin,
    scalar: Scalar,
    values: &[Value],
) -> Result<Value, Stop>
    requires { (i : ℕ) → 1 ≤ get_or work.now.local i 1 }
    ensures { MatchResult result (λ v. v ≡ with_words values.now (λ ws. Value.Num (applied_to work.now (function_of which) scalar ws))) (λ e. e ≡ Stop.Memory) }
{
    match words_of(alloc, values).map_err(memory)? {
        Some(words) => Ok(Value::Num(of_words(which, work, scalar, words.as_slice()))),
        None => Ok(Value::Null),
    }
}
