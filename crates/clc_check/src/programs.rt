//! The checker of whole programs, and the number of a kernel.

ghost use Rattle.std.specs.Prelude.{◌≡◌, ◌<◌, ◌^◌, length};
ghost use Rattle.clc_tree.specs.Flat.{flat_of};
ghost use Rattle.clc_tree.specs.SourceText.{IsProper};
ghost use Rattle.clc_types.specs.Programs.{program, Judges, kernel_of};
ghost use Rattle.clc_check.specs.Checked.{functions_in};

use clc_tree::Tree;
use clc_types::{Home, Scope, State, TypeFault, Typed};
use clc_walk::functions;
use indexmap::IndexMap;
use sqlite_items::Items;
use std::alloc::Global;

/// The typed tree of a program, or the first rule that it violates with the number of the token there.
pub fn check(alloc: Global, tree: &Tree) -> Result<Typed, TypeFault>
    requires proper { IsProper tree.now }
    requires fits { length (flat_of tree.now) < 2 ^ 32 }
    ensures { Judges (program tree.now) (functions_in result) }
{
    let home = Home {
        functions: Items::new(alloc),
        heights: Items::new(alloc),
        result: None,
    };
    let scope = Scope {
        outer: Items::new(alloc),
        inner: IndexMap::new(alloc),
        home,
    };
    let mut state = State {
        scope,
        vars: Items::new(alloc),
        at: 0,
    };
    let functions = functions(alloc, &mut state, tree.functions.as_slice())?;
    Ok(Typed { functions })
}

/// The number of the kernel of the name.
pub fn kernel(typed: &Typed, name: &[u8]) -> Option<u32>
    requires { length typed.now.functions < 2 ^ 32 }
    ensures { result ≡ kernel_of 0 typed.now.functions name.now }
{
    for (number, function) in typed.functions.as_slice().iter().enumerate() {
        if function.kernel && function.name.as_bytes() == name {
            return Some(number as u32);
        }
    }
    None
}
