//! The words of a command.

ghost use Rattle.std.specs.Prelude.{◌≡◌, Some, None, length, map, option_map, string_bytes, if◌then◌else◌};
ghost use Rattle.commands.specs.Compile.{run_plan};
ghost use Rattle.commands.specs.Judge.{turns_in};
ghost use Rattle.commands.specs.Commands.{are_apart, judge_plan_of, plan_of, plan_of_command};

use launch_file::number;

/// What the words ask for.
pub enum Command<'a> {
    Compile {
        source_name: &'a str,
        kernel: &'a str,
        module_name: &'a str,
    },
    Exec {
        module_name: &'a str,
        launch_name: &'a str,
    },
    Run {
        source_name: &'a str,
        kernel: &'a str,
        module_name: &'a str,
        launch_name: &'a str,
    },
    Judge {
        source_name: &'a str,
        kernel: &'a str,
        launch_name: &'a str,
        turns: u32,
    },
    Disasm {
        module_name: &'a str,
    },
}

/// A `run` with these names, which differ.
fn run_of<'a>(
    source_name: &'a str,
    kernel: &'a str,
    module_name: &'a str,
    launch_name: &'a str,
) -> Option<Command<'a>>
    ensures { option_map plan_of_command result
        ≡ (if are_apart source_name.now module_name.now launch_name.now
        then Some (run_plan source_name.now kernel.now module_name.now launch_name.now) else None) }
{
    if source_name == module_name || source_name == launch_name || module_name == launch_name {
        return None;
    }
    Some(Command::Run {
        source_name,
        kernel,
        module_name,
        launch_name,
    })
}

/// The turns that a word says: in decimal, without leading zeros.
#[tactic(auto, unfolding(crate::specs::Judge::turns_in))]
fn turns_of(word: &str) -> Option<u32>
    ensures { result ≡ turns_in word.now }
{
    let turns = number(word.as_bytes())?;
    u32::try_from(turns).ok()
}

/// A `judge` with these names, which differ, and with the turns that the word says.
fn judge_of<'a>(
    source_name: &'a str,
    kernel: &'a str,
    launch_name: &'a str,
    turns: &str,
) -> Option<Command<'a>>
    ensures { option_map plan_of_command result ≡ judge_plan_of source_name.now kernel.now launch_name.now turns.now }
{
    if source_name == launch_name {
        return None;
    }
    let turns = turns_of(turns)?;
    Some(Command::Judge {
        source_name,
        kernel,
        launch_name,
        turns,
    })
}

/// The command of two words.
#[tactic(auto, unfolding(crate::specs::Commands::plan_of))]
fn of_two(words: &[String]) -> Option<Command<'_>>
    requires { length words.now ≡ 2 }
    ensures { plan_of (map string_bytes words.now) ≡ option_map plan_of_command result }
{
    let verb = words[0].as_str();
    let module_name = words[1].as_str();
    if verb == "disasm" {
        return Some(Command::Disasm { module_name });
    }
    None
}

/// The command of three words.
#[tactic(auto, unfolding(crate::specs::Commands::plan_of))]
fn of_three(words: &[String]) -> Option<Command<'_>>
    requires { length words.now ≡ 3 }
    ensures { plan_of (map string_bytes words.now) ≡ option_map plan_of_command result }
{
    let verb = words[0].as_str();
    let module_name = words[1].as_str();
    let launch_name = words[2].as_str();
    if verb == "exec" && module_name != launch_name {
        return Some(Command::Exec {
            module_name,
            launch_name,
        });
    }
    None
}

/// The command of four words.
#[tactic(auto, unfolding(crate::specs::Commands::plan_of))]
fn of_four(words: &[String]) -> Option<Command<'_>>
    requires { length words.now ≡ 4 }
    ensures { plan_of (map string_bytes words.now) ≡ option_map plan_of_command result }
{
    let verb = words[0].as_str();
    let source_name = words[1].as_str();
    let kernel = words[2].as_str();
    let module_name = words[3].as_str();
    if verb == "compile" && source_name != module_name {
        return Some(Command::Compile {
            source_name,
            kernel,
            module_name,
        });
    }
    None
}

/// The command of five words.
#[tactic(auto, unfolding(crate::specs::Commands::plan_of))]
fn of_five(words: &[String]) -> Option<Command<'_>>
    requires { length words.now ≡ 5 }
    ensures { plan_of (map string_bytes words.now) ≡ option_map plan_of_command result }
{
    let verb = words[0].as_str();
    let source_name = words[1].as_str();
    let kernel = words[2].as_str();
    let one = words[3].as_str();
    let other = words[4].as_str();
    if verb == "run" {
        return run_of(source_name, kernel, one, other);
    }
    if verb == "judge" {
        return judge_of(source_name, kernel, one, other);
    }
    None
}

/// The command of the words, or none where they are of no form. The file names of a command differ.
#[tactic(auto, unfolding(crate::specs::Commands::plan_of))]
pub fn command_of(words: &[String]) -> Option<Command<'_>>
    ensures { plan_of (map string_bytes words.now) ≡ option_map plan_of_command result }
{
    match words.len() {
        2 => of_two(words),
        3 => of_three(words),
        4 => of_four(words),
        5 => of_five(words),
        _ => None,
    }
}
