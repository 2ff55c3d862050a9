//! Why a source isn't taken.

ghost use Rattle.std.specs.Prelude.{◌≡◌};
ghost use Rattle.promise.specs.RuleNames.{name_of};

/// The rules that a source may violate: L on bytes, G on the grammar, S on types and names, K and N on the wanted kernel.
/// Where nothing else is said, the place is that of the token or byte of which the rule speaks.
#[derive(Clone, Copy, Debug, PartialEq, Eq)]
pub enum SourceRule {
    /// The source has at most 65,536 bytes. The place is the first byte after them.
    L1,
    /// Outside comments a byte that stands in no token begins white space, a comment or a token.
    L2,
    /// A number is decimal, octal or hexadecimal, and has a type.
    L3,
    /// Each `/*` is closed.
    L4,
    /// No word is one that the language leaves out here.
    L5,
    /// Some program goes on with this token; or the tokens are a program, and else the place is the end of the source.
    G1,
    /// No token lies at a depth above 64.
    G2,
    /// A name has a declaration in force; those of functions are called, and no other name is.
    S1,
    /// No block declares a name again, and no function has the name of an earlier one or of a built-in one.
    S2,
    /// A call without a value stands only where no value is needed.
    S3,
    /// What is assigned to or stepped is a variable, an element or what a pointer points to.
    S4,
    /// Nothing that is const is written.
    S5,
    /// A call has as many arguments as the function has parameters.
    S6,
    /// An argument matches its parameter.
    S7,
    /// A kernel gives no value and is called by no function.
    S8,
    /// No function calls itself, and calls are nested at most 16 deep.
    S9,
    /// `break` and `continue` stand in a loop.
    S10,
    /// An array has 1 to 1,024 elements.
    S11,
    /// Numbers, pointers and arrays stand where the operator takes them.
    S12,
    /// `return` has a value exactly where the function gives one, and then it is a number.
    S13,
    /// A function has at most 16 parameters.
    S14,
    /// Some kernel has the wanted name. The place is the first byte.
    K1,
    /// The wanted kernel, each call counted with the called body, has at most 16,384 nodes. The place is its name.
    N1,
    /// Its private arrays, counted in the same way, have at most 1,024 elements. The place is its name.
    N2,
    /// The wanted kernel has a form that is built so far: no parameters, and a body without statements. The place is its name.
    N0,
}

impl SourceRule {
    /// The name by which the program tells of the rule.
    pub fn name(self) -> &'static [u8]
        ensures { result.now ≡ name_of self }
    {
        match self {
            SourceRule::L1 => b"L1",
            SourceRule::L2 => b"L2",
            SourceRule::L3 => b"L3",
            SourceRule::L4 => b"L4",
            SourceRule::L5 => b"L5",
            SourceRule::G1 => b"G1",
            SourceRule::G2 => b"G2",
            SourceRule::S1 => b"S1",
            SourceRule::S2 => b"S2",
            SourceRule::S3 => b"S3",
            SourceRule::S4 => b"S4",
            SourceRule::S5 => b"S5",
            SourceRule::S6 => b"S6",
            SourceRule::S7 => b"S7",
            SourceRule::S8 => b"S8",
            SourceRule::S9 => b"S9",
            SourceRule::S10 => b"S10",
            SourceRule::S11 => b"S11",
            SourceRule::S12 => b"S12",
            SourceRule::S13 => b"S13",
            SourceRule::S14 => b"S14",
            SourceRule::K1 => b"K1",
            SourceRule::N1 => b"N1",
            SourceRule::N2 => b"N2",
            SourceRule::N0 => b"N0",
        }
    }
}

/// Why a source is neither compiled nor judged.
#[derive(Clone, Copy, Debug, PartialEq, Eq)]
pub enum Refusal {
    /// The source violates this rule first, at this byte counted from 0.
    Rule { rule: SourceRule, at: u32 },
    /// There was no memory.
    Memory,
}
