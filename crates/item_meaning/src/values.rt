//! What an expression gives, what may be read and written, and how a statement is left.

/// The value of an expression: a number, as a word; a null pointer; or a pointer to the byte `offset` of a buffer.
///
/// The word of a number of a type narrower than int is its zero- or sign-extended form.
#[derive(Clone, Copy, Debug, PartialEq, Eq)]
pub enum Value {
    Num(u32),
    Null,
    At { buffer: u32, offset: u32 },
}

/// What may be read and written: a variable; an element of an array variable; an element behind a pointer; or nothing, which no place of a
/// typed tree is. `at` is the byte of the source at which the access begins.
#[derive(Clone, Copy, Debug, PartialEq, Eq)]
pub enum Place {
    Variable(u32),
    Cell { at: u32, var: u32, index: Value },
    Behind { at: u32, pointer: Value },
    Nowhere,
}

/// How a statement is left: by its end, by `break`, by `continue`, or by `return` with the value.
#[derive(Clone, Copy, Debug, PartialEq, Eq)]
pub enum Flow {
    Next,
    Broke,
    Again,
    Returned(Value),
}
