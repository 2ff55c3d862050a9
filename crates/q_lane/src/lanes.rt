//! Vectors of words.

ghost use Rattle.std.specs.Prelude.{◌≡◌, ℕ, ◌+◌, ◌%◌, ◌<◌, ◌≤◌};
ghost use Rattle.q_lane.specs.Vectors.{lanes, lane, mapped, selected, rotated};

use crate::operations::BinOp;
use crate::words::apply;

/// A vector of `N` words, element 0 first. `N` is from 1 to 64.
#[derive(Clone, Copy, Debug, PartialEq, Eq)]
pub struct Lanes<const N: usize> {
    pub words: [u32; N],
}

/// A set of sixteen lanes: lane i is in it where bit i is 1.
#[derive(Clone, Copy, Debug, PartialEq, Eq)]
pub struct Mask16 {
    pub bits: u16,
}

impl<const N: usize> Lanes<N> {
    /// The vector with this word in each lane.
    pub fn splat(word: u32) -> Lanes<N>
        requires { (1 ≤ N) × (N ≤ 64) }
        ensures { result.words ≡ lanes N (λ _. word) }
    {
        Lanes { words: [word; N] }
    }

    /// The operation lane by lane.
    pub fn map2(op: BinOp, a: &Lanes<N>, b: &Lanes<N>) -> Lanes<N>
        requires { (1 ≤ N) × (N ≤ 64) }
        ensures { result.words ≡ mapped N op a.now.words b.now.words }
    {
        let mut words = [0; N];
        for i in 0..N {
            words[i] = apply(op, a.words[i], b.words[i]);
        }
        Lanes { words }
    }

    /// The lane of `a` where the mask's word isn't 0, else that of `b`.
    pub fn select(mask: &Lanes<N>, a: &Lanes<N>, b: &Lanes<N>) -> Lanes<N>
        requires { (1 ≤ N) × (N ≤ 64) }
        ensures { result.words ≡ selected N mask.now.words a.now.words b.now.words }
    {
        let mut words = [0; N];
        for i in 0..N {
            words[i] = if mask.words[i] == 0 {
                b.words[i]
            } else {
                a.words[i]
            };
        }
        Lanes { words }
    }

    /// Lane i goes to lane (i + n) mod `N`.
    pub fn rotate(&self, n: u32) -> Lanes<N>
        requires { (1 ≤ N) × (N ≤ 64) }
        ensures each { result.words ≡ rotated N self.now.words n }
        ensures moved { (i : ℕ) → i < N → lane result.words ((i + n) % N) ≡ lane self.now.words i }
    {
        let back = N - n as usize % N;
        let mut words = [0; N];
        for i in 0..N {
            words[i] = self.words[(i + back) % N];
        }
        Lanes { words }
    }
}
