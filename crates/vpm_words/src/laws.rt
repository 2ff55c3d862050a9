//! Laws of the definitions. Each is a call that does nothing, and its contract is the law.

ghost use Rattle.vpm_words.specs.Cases.{KnownRules, KnownStalls, KnownEffects, KnownShares};
ghost use Rattle.vpm_words.specs.Laws.{SplitAgrees, StallsAgree, LeastIsLeast, ElementsApart, PartReplaced, BytesPut, MovedAgain, VpmKept, OthersStay};

/// An access split into its demand on what is shared breaks the least of the rules that it breaks, each of them tested by itself.
pub fn law_rules()
    ensures split { SplitAgrees }
    ensures stalls { StallsAgree }
    ensures least { LeastIsLeast }
{}

/// The elements of a transfer lie in the VPM and in its bytes, and are pairwise apart.
pub fn law_elements()
    ensures { ElementsApart }
{}

/// Moving a part of a word changes that part alone, and what was moved out and in again is what it was.
pub fn law_moves()
    ensures part { PartReplaced }
    ensures bytes { BytesPut }
    ensures again { MovedAgain }
    ensures vpm { VpmKept }
    ensures others { OthersStay }
{}

/// Each restriction where it is broken and where it just isn't, the stalls, and what accesses do, by examples.
pub fn law_cases()
    ensures rules { KnownRules }
    ensures stalls { KnownStalls }
    ensures effects { KnownEffects }
    ensures shares { KnownShares }
{}
