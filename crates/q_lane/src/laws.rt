//! Laws of the operations, each the contract of a function that does nothing.

ghost use Rattle.std.specs.Prelude.{◌≡◌, length};
ghost use Rattle.q_lane.specs.Laws.{TwoGiveWord, OneGivesWord, LessByFlips, MinByLess, MaxByLess, NarrowestWins, ChoiceByLanes, RotationsAdd, WholeTurns};

use crate::lanes::Lanes;

/// A vector has `N` lanes, which a caller doesn't know of one behind a reference.
pub fn law_length<const N: usize>(v: &Lanes<N>)
    ensures { length v.now.words ≡ N }
{
    let _words: &[u32] = &v.words;
}

pub fn law_words()
    ensures two { TwoGiveWord }
    ensures one { OneGivesWord }
{}

pub fn law_order()
    ensures less { LessByFlips }
    ensures min { MinByLess }
    ensures max { MaxByLess }
{}

pub fn law_narrow()
    ensures { NarrowestWins }
{}

pub fn law_choice()
    ensures { ChoiceByLanes }
{}

pub fn law_rotations()
    ensures sums { RotationsAdd }
    ensures whole { WholeTurns }
{}
