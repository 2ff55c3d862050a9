//! Tokens of an OpenCL C source, or the first place where the source breaks a rule on its bytes.
//!
//! | Rule | The source violates it where |
//! |---|---|
//! | L1 | it has more than 65,536 bytes |
//! | L2 | outside comments a byte that stands in no token begins no white space, comment or token |
//! | L3 | a number isn't decimal, octal or hexadecimal with at most one suffix `u` or `U`, or has no type |
//! | L4 | `/*` isn't closed |
//! | L5 | a name is a word that is left out of the language |
//!
//! A decimal number without a suffix is an `int` up to 2,147,483,647, and has no type above. An octal or hexadecimal one is an `int` up to there
//! and a `uint` up to 4,294,967,295. A number with a suffix is a `uint` up to 4,294,967,295.
#![tactic(auto)]

mod laws;
mod lexing;
mod marks;
mod numbers;
mod place;
mod scanning;
mod text;
mod token;
mod words;

pub use laws::{law_columns, law_faults, law_tables, law_tokens};
pub use lexing::lex;
pub use marks::Mark;
pub use place::line_col;
pub use text::Text;
pub use token::{LexFault, LexRule, Tok, Token};
pub use words::Word;
