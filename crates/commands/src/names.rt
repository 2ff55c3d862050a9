//! Names of files.

ghost use Rattle.std.specs.Prelude.{◌≡◌, ◌∷◌, [], IfOk, IsAscii};

use q_io::Text;
use std::alloc::{AllocError, Global};
use std::str;

/// The name as text.
pub fn text_of(name: &Text) -> &str
    requires { IsAscii name.now }
    ensures { result.now ≡ name.now }
{
    str::from_utf8(name.as_bytes()).unwrap()
}

/// The two names that a command has, which no buffer may be written to.
pub fn two_names(alloc: Global, one: &str, other: &str) -> Result<Vec<Text>, AllocError>
    ensures { IfOk result (λ names. names.items ≡ one.now ∷ other.now ∷ []) }
{
    let mut names = Vec::with_capacity(alloc, 2)?;
    names.push(Text::from_slice(alloc, one.as_bytes())?)?;
    names.push(Text::from_slice(alloc, other.as_bytes())?)?;
    Ok(names)
}
