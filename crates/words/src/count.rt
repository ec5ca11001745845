ghost use Rattle.std.specs.Prelude.{◌≡◌, ◌<◌, ◌^◌, [], ◌∷◌, ◌++◌, flat_map, length, OnOk};
ghost use Rattle.vc_store.specs.Collections.{contents};
ghost use Rattle.words.specs.Counting.{Counts, count_line, stored_count};
ghost use Rattle.words.specs.Sets.{IsWordSet, StaysWordSet};
ghost use Rattle.words.specs.Text.{as_words, words_in};

use itoa::Buffer;
use std::alloc::Global;
use vc_base::{OutOfMemory, one_more};
use vc_dtdisc::BuiltIn;
use vc_seg::{BoxedDisc, SegDisc};
use vc_store::{Collection, Put};

// An ordered set of objects, each a number in eight bytes and a word, which is its key.
pub(crate) type WordSet = Collection<BuiltIn>;

// How often the word of an object was counted.
fn count_of(object: &[u8]) -> u64
    ensures { result ≡ stored_count object.now }
{
    match object.first_chunk::<8>() {
        Some(bytes) => u64::from_be_bytes(*bytes),
        None => 0,
    }
}

// Counts a word once more, where it has a byte.
fn count_word(set: &mut WordSet, object: &mut Vec<u8>, word: &[u8]) -> Result<Put, OutOfMemory>
    requires { IsWordSet state set.old }
    ensures counts { Counts result (as_words (word.now ∷ [])) (contents set.old) (contents set.new) }
    ensures stays { StaysWordSet state set.old set.new }
{
    if word.is_empty() {
        return Ok(Put::Old);
    }
    let counted = set.remove(word, object)?;
    let count = if counted { count_of(object) } else { 0 };
    object.clear();
    object.extend_from_slice(&one_more(count).to_be_bytes())?;
    object.extend_from_slice(word)?;
    Ok(set.insert(object))
}

// Counts the words of a text, up to the first that is refused.
pub(crate) fn count_words(alloc: Global, set: &mut WordSet, text: &[u8]) -> Result<Put, OutOfMemory>
    requires { IsWordSet state set.old }
    ensures counts { Counts result (words_in text.now) (contents set.old) (contents set.new) }
    ensures most { length text.now < 2 ^ 63 }
    ensures stays { StaysWordSet state set.old set.new }
{
    let mut object = Vec::new(alloc);
    let mut start = 0;
    for i in 0..text.len() {
        if text[i] <= 32 {
            let put = count_word(set, &mut object, &text[start..i])?;
            if !put.is_there() {
                return Ok(put);
            }
            start = i + 1;
        }
    }
    count_word(set, &mut object, &text[start..])
}

// Puts the line of an object: how often its word was counted, and the word.
fn put_line(lines: &mut Vec<u8>, object: &[u8]) -> Result<(), OutOfMemory>
    ensures { OnOk result (lines.new.items ≡ lines.old.items ++ count_line object.now) }
{
    lines.extend_from_slice(Buffer::new().format(count_of(object)).as_bytes())?;
    lines.extend_from_slice(b" ")?;
    lines.extend_from_slice(&object[object.len().min(8)..])?;
    lines.extend_from_slice(b"\n")?;
    Ok(())
}

// Puts a line for each object, in order.
pub(crate) fn put_lines(set: &mut WordSet, lines: &mut Vec<u8>) -> Result<(), OutOfMemory>
    requires { IsWordSet state set.old }
    ensures put { OnOk result (lines.new.items
        ≡ lines.old.items ++ flat_map count_line (contents set.old).objects) }
    ensures stays { StaysWordSet state set.old set.new }
{
    set.first();
    while let Some(object) = set.current() {
        put_line(lines, object)?;
        set.next();
    }
    Ok(())
}
