//! Whether a launch fits a kernel's parameters and the files of a command.

ghost use Rattle.std.specs.Prelude.{◌≡◌, ◌+◌, ◌<◌, ◌≤◌, ◌^◌, map, length};
ghost use Rattle.launch_file.specs.Fit.{least, greatest, is_other_sort, is_out_of_range, is_taken, buffer_rule, arg_rule, arg_rules, first_fault, fit_fault, line_count, answer_of};

use crate::launch::{Arg, BufferLine, Launch, LaunchFault};
use q_io::Text;
use q_lane::{Kind, Scalar};

/// There are more or fewer arguments than parameters.
const OTHER_COUNT: u8 = 8;

/// A number for a pointer, or a buffer for a number.
const OTHER_SORT: u8 = 9;

/// A number that the parameter's type doesn't have.
const OUT_OF_RANGE: u8 = 10;

/// An output name that the command names too.
const TAKEN_NAME: u8 = 12;

/// The line of the first buffer, lines counted from 1.
const FIRST_BUFFER: u32 = 5;

fn least_of(scalar: Scalar) -> i128
    ensures { result ≡ least scalar }
{
    match scalar {
        Scalar::Char => -128,
        Scalar::Short => -32_768,
        Scalar::Int => -2_147_483_648,
        Scalar::Uchar | Scalar::Ushort | Scalar::Uint => 0,
    }
}

fn greatest_of(scalar: Scalar) -> i128
    ensures { result ≡ greatest scalar }
{
    match scalar {
        Scalar::Char => 127,
        Scalar::Uchar => 255,
        Scalar::Short => 32_767,
        Scalar::Ushort => 65_535,
        Scalar::Int => 2_147_483_647,
        Scalar::Uint => 4_294_967_295,
    }
}

#[tactic(auto, unfolding(crate::specs::Fit::is_other_sort))]
fn has_other_sort(arg: Arg, kind: Kind) -> bool
    ensures { result ≡ is_other_sort arg kind }
{
    match (arg, kind) {
        (Arg::Value(_), Kind::Value(_)) => false,
        (Arg::Value(_), Kind::Pointer) => true,
        (Arg::Buffer(_), Kind::Value(_)) => true,
        (Arg::Buffer(_), Kind::Pointer) => false,
    }
}

#[tactic(auto, unfolding(crate::specs::Fit::is_out_of_range))]
fn leaves_range(arg: Arg, kind: Kind) -> bool
    ensures { result ≡ is_out_of_range arg kind }
{
    match (arg, kind) {
        (Arg::Value(number), Kind::Value(scalar)) => {
            number < least_of(scalar) || greatest_of(scalar) < number
        }
        (Arg::Value(_), Kind::Pointer) => false,
        (Arg::Buffer(_), Kind::Value(_)) => false,
        (Arg::Buffer(_), Kind::Pointer) => false,
    }
}

/// The least rule that the argument violates.
fn rule_of_arg(arg: Arg, kind: Kind) -> Option<u8>
    ensures { result ≡ arg_rule arg kind }
{
    if has_other_sort(arg, kind) {
        Some(OTHER_SORT)
    } else if leaves_range(arg, kind) {
        Some(OUT_OF_RANGE)
    } else {
        None
    }
}

#[tactic(auto, unfolding(crate::specs::Fit::is_taken))]
fn has_taken_name(taken: &[Text], to: &Option<Text>) -> bool
    ensures { result ≡ is_taken taken.now to.now }
{
    match to {
        None => false,
        Some(name) => taken.contains(name),
    }
}

/// The first fault of the buffers' lines.
fn fit_buffers(buffers: &[BufferLine], taken: &[Text]) -> Result<(), LaunchFault>
    requires { length buffers.now ≤ 16 }
    ensures { result ≡ answer_of (first_fault 5 (map (buffer_rule taken.now) buffers.now)) }
{
    let mut line = FIRST_BUFFER;
    for buffer in buffers {
        if has_taken_name(taken, &buffer.to) {
            return Err(LaunchFault::Rule {
                rule: TAKEN_NAME,
                line,
            });
        }
        line += 1;
    }
    Ok(())
}

/// The first fault of the arguments' lines, of which the first has this number.
fn fit_args(args: &[Arg], kinds: &[Kind], first: u32) -> Result<(), LaunchFault>
    requires { first + length args.now < 2 ^ 32 }
    ensures { result ≡ answer_of (first_fault first (arg_rules args.now kinds.now)) }
{
    let mut line = first;
    for (arg, kind) in args.iter().zip(kinds) {
        if let Some(rule) = rule_of_arg(*arg, *kind) {
            return Err(LaunchFault::Rule { rule, line });
        }
        line += 1;
    }
    Ok(())
}

/// Whether the launch fits parameters of these kinds, and writes to none of these files, which the
/// command names. Tells the first fault: the least line, and there the least rule. Takes no memory.
pub fn fit(launch: &Launch, kinds: &[Kind], taken: &[Text]) -> Result<(), LaunchFault>
    requires { line_count launch.now < 2 ^ 32 }
    ensures { result ≡ answer_of (fit_fault launch.now kinds.now taken.now) }
{
    let first_arg = FIRST_BUFFER + launch.buffers.len() as u32;
    fit_buffers(&launch.buffers, taken)?;
    fit_args(&launch.args, kinds, first_arg)?;
    if launch.args.len() == kinds.len() {
        return Ok(());
    }
    Err(LaunchFault::Rule {
        rule: OTHER_COUNT,
        line: first_arg + launch.args.len() as u32,
    })
}
