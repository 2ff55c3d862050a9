//! The typing rules.

/// A typing rule, by what it asks. Of rules that are violated at one token the one that stands first here is told.
#[derive(Clone, Copy, Debug, PartialEq, Eq)]
pub enum TypeRule {
    /// A name has a declaration in force; those of functions are called, and no other name is.
    S1,
    /// No block declares a name again, and no function has the name of an earlier one or of a built-in one.
    S2,
    /// A call without a value stands only where no value is needed.
    S3,
    /// What is assigned to or stepped is a variable, an element or what a pointer points to.
    S4,
    /// Nothing that is const is written.
    S5,
    /// A call has as many arguments as the function has parameters.
    S6,
    /// An argument matches its parameter.
    S7,
    /// A kernel gives no value and is called by no function.
    S8,
    /// No function calls itself, and calls are nested at most 16 deep.
    S9,
    /// `break` and `continue` stand in a loop.
    S10,
    /// An array has 1 to 1,024 elements.
    S11,
    /// Numbers, pointers and arrays stand where the operator takes them.
    S12,
    /// `return` has a value exactly where the function gives one, and then it is a number.
    S13,
    /// A function has at most 16 parameters.
    S14,
}
