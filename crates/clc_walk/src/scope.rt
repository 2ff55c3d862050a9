//! What a name stands for in the open blocks.

ghost use Rattle.std.specs.Prelude.{◌≡◌, map};
ghost use Rattle.clc_types.specs.InternalScope.{seen, found, known, entries_of, look_in};

use clc_types::{Builtin, Named, Scope};
use indexmap::IndexMap;

pub fn probe(block: &IndexMap<Vec<u8>, Named>, name: &[u8]) -> Option<Named>
    ensures { result ≡ found (seen block.now) name.now }
{
    match block.get(name) {
        Some(found) => Some(*found),
        None => None,
    }
}

fn outside(blocks: &[IndexMap<Vec<u8>, Named>], name: &[u8]) -> Option<Named>
    ensures { result ≡ known (map (λ b. seen b) blocks.now) name.now }
{
    let mut best = None;
    for block in blocks {
        if let Some(found) = probe(block, name) {
            best = Some(found);
        }
    }
    best
}

#[tactic(auto, using(clc_types::proofs::Scopes::known_last))]
fn declared(scope: &Scope, name: &[u8]) -> Option<Named>
    ensures { result ≡ known (entries_of scope.now) name.now }
{
    match probe(&scope.inner, name) {
        Some(found) => Some(found),
        None => outside(scope.outer.as_slice(), name),
    }
}

/// What the name stands for.
pub fn named(scope: &Scope, name: &[u8]) -> Option<Named>
    ensures { result ≡ look_in (entries_of scope.now) name.now }
{
    match declared(scope, name) {
        Some(found) => Some(found),
        None => match Builtin::named(name) {
            Some(which) => Some(Named::Builtin(which)),
            None => None,
        },
    }
}
