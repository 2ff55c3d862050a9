//! Laws of the definitions.

ghost use Rattle.std.specs.Prelude.{◌≡◌, ℕ, List, Bool, true};
ghost use Rattle.tight_words.specs.Tight.{is_loose, IsLoose};

pub fn law_tests()
    ensures sound_ { (code : List ℕ) (i : ℕ) → is_loose code i ≡ true → IsLoose code i }
    ensures complete_ { (code : List ℕ) (i : ℕ) → IsLoose code i → is_loose code i ≡ true }
{}
