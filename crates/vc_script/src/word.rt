ghost use Rattle.std.specs.Prelude.{◌≡◌, ◌≤◌, [], if◌then◌else◌, length, map, take, is_some, Some, None};
ghost use Rattle.std.specs.List.{list_all};
ghost use Rattle.percent_encoding.specs.Percent.{percent_decode};
ghost use Rattle.vc_script.specs.Words.{begins_with_byte, digits_value, is_blank, is_digit, is_escaped, is_letter, is_name, is_name_byte, words};

use arrayvec::ArrayVec;

fn is_blank(b: u8) -> bool
    ensures { result ≡ is_blank b }
{
    b == b' ' || b == b'\t'
}

fn is_digit(b: u8) -> bool
    ensures { result ≡ is_digit b }
{
    48 <= b && b <= 57
}

fn is_letter(b: u8) -> bool
    ensures { result ≡ is_letter b }
{
    65 <= b && b <= 90 || 97 <= b && b <= 122
}

fn is_name_byte(b: u8) -> bool
    ensures { result ≡ is_name_byte b }
{
    is_letter(b) || is_digit(b) || b == b'_' || b == b'.'
}

// Puts the words of a line, in order, into the empty vector, up to the sixth: no command has more than five.
#[tactic(auto, using(crate::proofs::Cuts::word_steps))]
pub(crate) fn put_words<'a>(line: &'a [u8], found: &mut ArrayVec<&'a [u8], 6>)
    requires { found.old.items ≡ [] }
    ensures { map (λ w. w.now) found.new.items ≡ take 6 (words line.now) }
{
    let mut start = 0;
    for (i, b) in line.iter().enumerate() {
        // One compare passes over the bytes of words.
        if *b <= b' ' {
            if is_blank(*b) {
                if start < i {
                    found.push(&line[start..i]);
                    if found.is_full() {
                        return;
                    }
                }
                start = i + 1;
            }
        }
    }
    if start < line.len() {
        found.push(&line[start..]);
    }
}

fn all_name_bytes(bytes: &[u8]) -> bool
    ensures { result ≡ list_all is_name_byte bytes.now }
{
    bytes.iter().all(|b| is_name_byte(*b))
}

// It isn't inlined, so that the loop over its bytes has the registers to itself.
#[inline(never)]
pub(crate) fn is_name(word: &[u8]) -> bool
    ensures { result ≡ is_name word.now }
{
    match word.split_first() {
        None => false,
        Some((first, rest)) => { is_letter(*first) && all_name_bytes(rest) && rest.len() <= 31 }
    }
}

// What the digits spell, where each byte is one.
pub(crate) fn digits_of(word: &[u8]) -> Option<u64>
    requires { length word.now ≤ 10 }
    ensures { result ≡ (if list_all is_digit word.now then Some (digits_value word.now) else None) }
{
    let mut value = 0u64;
    for d in word {
        if !is_digit(*d) {
            return None;
        }
        value = 10 * value + u64::from(*d - b'0');
    }
    Some(value)
}

fn begins_with_byte(word: &[u8]) -> bool
    ensures { result ≡ begins_with_byte word.now }
{
    match word {
        [high, low, ..] => high.is_ascii_hexdigit() && low.is_ascii_hexdigit(),
        _ => false,
    }
}

// How many bytes a word spells by `%` and two hexadecimal digits; none where other bytes follow a `%`.
#[tactic(auto, using(crate::proofs::WordSteps::escape_steps))]
pub(crate) fn escapes_in(word: &[u8]) -> Option<usize>
    ensures escaped { is_some result ≡ is_escaped word.now }
    ensures plain { result ≡ Some 0 → percent_decode word.now ≡ word.now }
{
    let mut escapes = 0;
    for (i, b) in word.iter().enumerate() {
        if *b == b'%' {
            if !begins_with_byte(&word[i + 1..]) {
                return None;
            }
            escapes += 1;
        }
    }
    Some(escapes)
}
