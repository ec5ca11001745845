ghost use Rattle.std.specs.Prelude.{◌≡◌, ◌≢◌, ◌∷◌, map, IfOk, OnOk};
ghost use Rattle.vc_script.specs.Answer.{answer, answer_to, is_comment, is_version_line, version_by_words};
ghost use Rattle.vc_script.specs.Proper.{IsProperAnswer};

use crate::form::number_of;
use crate::table::answer_in;
use crate::word::put_words;
use crate::{LineAnswer, LineFault, Tool};
use arrayvec::ArrayVec;
use std::alloc::Global;
use vc_base::OutOfMemory;

/// What a line of a script asks for. The line stands without its newline and without a final CR; any other CR is a byte
/// of a word. `first` says that the line is the one numbered 1, which alone can tell the version of the language, by
/// `vc` and 1 or 2; on any other line `vc` is no command. Only the bytes of an object need memory, in one piece, and it
/// fails for want of it alone.
pub fn read_line(
    alloc: Global,
    tool: Tool,
    first: bool,
    line: &[u8],
) -> Result<LineAnswer, OutOfMemory>
    ensures value { IfOk result (λ a. a ≡ answer tool first line.now) }
    ensures proper { IfOk result (IsProperAnswer first) }
    ensures not_too_long { result ≢ Ok (LineAnswer.Bad LineFault.LineTooLong) }
    ensures not_too_many { result ≢ Ok (LineAnswer.Bad LineFault.TooManyLines) }
{
    let mut asked = LineAnswer::Blank;
    read_into(alloc, tool, first, line, &mut asked)?;
    Ok(asked)
}

/// The same, put in place of an answer, whose object gives its memory to that of the line. Where memory is wanting, any may
/// stand there.
pub fn read_into(
    alloc: Global,
    tool: Tool,
    first: bool,
    line: &[u8],
    asked: &mut LineAnswer,
) -> Result<(), OutOfMemory>
    ensures value { OnOk result (asked.new ≡ answer tool first line.now) }
    ensures proper { OnOk result (IsProperAnswer first asked.new) }
{
    let mut words = ArrayVec::new();
    put_words(line, &mut words);
    match words.as_slice().split_first() {
        None => {
            *asked = LineAnswer::Blank;
            Ok(())
        }
        Some((word, others)) => answer_to(alloc, tool, first, word, others, asked),
    }
}

// What the words of a line ask for.
fn answer_to(
    alloc: Global,
    tool: Tool,
    first: bool,
    word: &[u8],
    others: &[&[u8]],
    asked: &mut LineAnswer,
) -> Result<(), OutOfMemory>
    ensures { OnOk result (asked.new
        ≡ answer_to tool first (word.now ∷ map (λ w. w.now) others.now)) }
{
    if is_comment(word) {
        *asked = LineAnswer::Blank;
        return Ok(());
    }
    if is_version_line(first, word) {
        *asked = version_in(others);
        return Ok(());
    }
    answer_in(alloc, tool, word, others, asked)
}

fn is_version_line(first: bool, word: &[u8]) -> bool
    ensures { result ≡ is_version_line first word.now }
{
    first && word == b"vc".as_slice()
}

// The version that the words behind `vc` tell.
fn version_in(others: &[&[u8]]) -> LineAnswer
    ensures { result ≡ version_by_words (map (λ w. w.now) others.now) }
{
    match others {
        [word] => match number_of(word) {
            Ok(version) if version == 1 || version == 2 => LineAnswer::Version(version),
            Ok(_) => LineAnswer::Bad(LineFault::UnknownVersion),
            Err(fault) => LineAnswer::Bad(fault),
        },
        _ => LineAnswer::Bad(LineFault::WordCount),
    }
}

fn is_comment(word: &[u8]) -> bool
    ensures { result ≡ is_comment word.now }
{
    match word.split_first() {
        None => false,
        Some((first, _)) => *first == b'#',
    }
}
