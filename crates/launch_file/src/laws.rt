//! Laws, each the contract of a function that does nothing.

ghost use Rattle.std.specs.Prelude.{◌≡◌, ℕ, List, Some, None};
ghost use Rattle.launch_file.specs.Launches.{LaunchOf, IsLaunch};
ghost use Rattle.launch_file.specs.LineText.{Line, IsProper, line_of, line_text};
ghost use Rattle.launch_file.specs.LaunchText.{launch_text};
ghost use Rattle.launch_file.specs.Rules.{first_fault};
ghost use Rattle.launch_file.specs.Laws.{LayoutIsGood, NoFaultIsFit, UniformsAreCounted};

/// A text is read as a line exactly where it is the text of that line, and the line is proper.
pub fn law_lines()
    ensures read { (line : Line) → IsProper line → line_of (line_text line) ≡ Some line }
    ensures spelled { (bytes : List ℕ) (line : Line) → line_of bytes ≡ Some line → bytes ≡ line_text line }
    ensures proper { (bytes : List ℕ) (line : Line) → line_of bytes ≡ Some line → IsProper line }
{}

/// A file has no fault exactly where it is the text of a valid launch, and it is the text of one alone.
pub fn law_launches()
    ensures launch { (bytes : List ℕ) → first_fault bytes ≡ None → (launch : LaunchOf) × IsLaunch launch × (bytes ≡ launch_text launch) }
    ensures one { (a b : LaunchOf) → IsLaunch a → IsLaunch b → launch_text a ≡ launch_text b → a ≡ b }
    ensures clean { (launch : LaunchOf) → IsLaunch launch → first_fault (launch_text launch) ≡ None }
{}

/// The regions of a valid launch have the lengths of its buffers and scratches, begin at multiples of
/// 64, have 64 bytes or more between any two, and lie in a memory of less than 2^32 bytes.
pub fn law_layout()
    ensures { LayoutIsGood }
{}

/// `fit` finds no fault just where there is an argument for each parameter, each is a number of the
/// parameter's type or a buffer for a pointer, and no output name is a name of the command's.
pub fn law_fit()
    ensures { NoFaultIsFit }
{}

/// A QPU has twelve uniforms and those of its parameters.
pub fn law_uniforms()
    ensures { UniformsAreCounted }
{}
