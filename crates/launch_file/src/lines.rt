//! The lines of a launch file.

ghost use Rattle.std.specs.Prelude.{◌≡◌, ◌==◌, option_map};
ghost use Rattle.std.specs.List.{slice_split};
ghost use Rattle.launch_file.specs.LineText.{two_words, three_words, four_words, two_sizes as two_of, three_sizes as three_of, argument_of, rounds_of, buffer_of, seed_of, listed_of, schedule_of, line_of};
ghost use Rattle.launch_file.specs.Words.{number_of, name_of, file_of};
ghost use Rattle.launch_file.specs.Views.{line_view, sizes_view, AreWords};

use crate::words::{cut, file, name, number, value};

/// One to three sizes.
#[derive(Clone, Copy)]
pub enum Sizes {
    One(u64),
    Two(u64, u64),
    Three(u64, u64, u64),
}

/// What a line says.
#[derive(Clone, Copy)]
pub enum Line<'a> {
    First,
    Qpus(u64),
    Global(Sizes),
    Local(Sizes),
    Buffer {
        size: u64,
        from: Option<&'a [u8]>,
        to: Option<&'a [u8]>,
    },
    Value(i128),
    BufferArg(u64),
    Rounds(u64),
    Seed {
        seed: u64,
        steps: u64,
    },
    File {
        name: &'a [u8],
        times: u64,
    },
}

/// The words of a line. No line of a form has more than four.
#[derive(Clone, Copy)]
enum Words<'a> {
    One(&'a [u8]),
    Two(&'a [u8], &'a [u8]),
    Three(&'a [u8], &'a [u8], &'a [u8]),
    Four(&'a [u8], &'a [u8], &'a [u8], &'a [u8]),
    More,
}

#[tactic(auto, using(crate::proofs::Cuts::some_part))]
fn words_of(line: &[u8]) -> Words<'_>
    ensures { AreWords result (slice_split (λ byte. byte == 32) line.now) }
{
    let (one, rest) = cut(line, b' ');
    let Some(rest) = rest else {
        return Words::One(one);
    };
    let (two, rest) = cut(rest, b' ');
    let Some(rest) = rest else {
        return Words::Two(one, two);
    };
    let (three, rest) = cut(rest, b' ');
    let Some(rest) = rest else {
        return Words::Three(one, two, three);
    };
    let (four, rest) = cut(rest, b' ');
    let Some(_rest) = rest else {
        return Words::Four(one, two, three, four);
    };
    Words::More
}

/// The line with this text, none where no line has it.
#[tactic(auto, unfolding(crate::specs::LineText::line_of), using(crate::proofs::LineLaws::too_many))]
pub fn read_line(bytes: &[u8]) -> Option<Line<'_>>
    ensures { option_map line_view result ≡ line_of bytes.now }
{
    match words_of(bytes) {
        Words::Two(key, word) => line_of_two(key, word),
        Words::Three(key, one, two) => line_of_three(key, one, two),
        Words::Four(key, one, two, three) => line_of_four(key, one, two, three),
        Words::One(_) | Words::More => None,
    }
}

#[tactic(auto, unfolding(crate::specs::LineText::two_words))]
fn line_of_two<'a>(key: &[u8], word: &'a [u8]) -> Option<Line<'a>>
    ensures { option_map line_view result ≡ two_words key.now word.now }
{
    if key == b"launch".as_slice() {
        if word == b"1".as_slice() {
            return Some(Line::First);
        }
        return None;
    }
    if key == b"qpus".as_slice() {
        return Some(Line::Qpus(number(word)?));
    }
    if key == b"global".as_slice() {
        return Some(Line::Global(Sizes::One(number(word)?)));
    }
    if key == b"local".as_slice() {
        return Some(Line::Local(Sizes::One(number(word)?)));
    }
    None
}

fn two_sizes(one: &[u8], two: &[u8]) -> Option<Sizes>
    ensures { option_map sizes_view result ≡ two_of (number_of one.now) (number_of two.now) }
{
    Some(Sizes::Two(number(one)?, number(two)?))
}

#[tactic(auto, unfolding(crate::specs::LineText::argument_of))]
fn argument<'a>(kind: &[u8], word: &[u8]) -> Option<Line<'a>>
    ensures { option_map line_view result ≡ argument_of kind.now word.now }
{
    if kind == b"value".as_slice() {
        return Some(Line::Value(value(word)?));
    }
    if kind == b"buffer".as_slice() {
        return Some(Line::BufferArg(number(word)?));
    }
    None
}

#[tactic(auto, unfolding(crate::specs::LineText::rounds_of))]
fn rounds<'a>(kind: &[u8], word: &[u8]) -> Option<Line<'a>>
    ensures { option_map line_view result ≡ rounds_of kind.now word.now }
{
    if kind == b"rr".as_slice() {
        return Some(Line::Rounds(number(word)?));
    }
    None
}

#[tactic(auto, unfolding(crate::specs::LineText::three_words))]
fn line_of_three<'a>(key: &[u8], one: &[u8], two: &[u8]) -> Option<Line<'a>>
    ensures { option_map line_view result ≡ three_words key.now one.now two.now }
{
    if key == b"global".as_slice() {
        return Some(Line::Global(two_sizes(one, two)?));
    }
    if key == b"local".as_slice() {
        return Some(Line::Local(two_sizes(one, two)?));
    }
    if key == b"arg".as_slice() {
        return argument(one, two);
    }
    if key == b"schedule".as_slice() {
        return rounds(one, two);
    }
    None
}

fn three_sizes(one: &[u8], two: &[u8], three: &[u8]) -> Option<Sizes>
    ensures { option_map sizes_view result ≡ three_of (number_of one.now) (number_of two.now) (number_of three.now) }
{
    Some(Sizes::Three(number(one)?, number(two)?, number(three)?))
}

fn buffer<'a>(size: &[u8], from: &'a [u8], to: &'a [u8]) -> Option<Line<'a>>
    ensures { option_map line_view result ≡ buffer_of (number_of size.now) (file_of from.now) (file_of to.now) }
{
    let size = number(size)?;
    let from = file(from)?;
    let to = file(to)?;
    Some(Line::Buffer { size, from, to })
}

fn seeded<'a>(seed: &[u8], steps: &[u8]) -> Option<Line<'a>>
    ensures { option_map line_view result ≡ seed_of (number_of seed.now) (number_of steps.now) }
{
    let seed = number(seed)?;
    let steps = number(steps)?;
    Some(Line::Seed { seed, steps })
}

fn listed<'a>(word: &'a [u8], times: &[u8]) -> Option<Line<'a>>
    ensures { option_map line_view result ≡ listed_of (name_of word.now) (number_of times.now) }
{
    let name = name(word)?;
    let times = number(times)?;
    Some(Line::File { name, times })
}

#[tactic(auto, unfolding(crate::specs::LineText::schedule_of))]
fn schedule<'a>(kind: &[u8], one: &'a [u8], two: &[u8]) -> Option<Line<'a>>
    ensures { option_map line_view result ≡ schedule_of kind.now one.now two.now }
{
    if kind == b"seed".as_slice() {
        return seeded(one, two);
    }
    if kind == b"file".as_slice() {
        return listed(one, two);
    }
    None
}

#[tactic(auto, unfolding(crate::specs::LineText::four_words))]
fn line_of_four<'a>(key: &[u8], one: &'a [u8], two: &'a [u8], three: &'a [u8]) -> Option<Line<'a>>
    ensures { option_map line_view result ≡ four_words key.now one.now two.now three.now }
{
    if key == b"global".as_slice() {
        return Some(Line::Global(three_sizes(one, two, three)?));
    }
    if key == b"local".as_slice() {
        return Some(Line::Local(three_sizes(one, two, three)?));
    }
    if key == b"buffer".as_slice() {
        return buffer(one, two, three);
    }
    if key == b"schedule".as_slice() {
        return schedule(one, two, three);
    }
    None
}
