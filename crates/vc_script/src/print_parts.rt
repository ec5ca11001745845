#![tactic(auto, using(crate::proofs::PrintSteps::front_steps))]

ghost use Rattle.std.specs.Prelude.{◌≡◌, ◌≤◌, ◌++◌, decimal, length};
ghost use Rattle.std.specs.List.{list_all};
ghost use Rattle.hex.specs.Hex.{encode_lower};
ghost use Rattle.vc_script.specs.Puts.{Puts};
ghost use Rattle.vc_script.specs.Shown.{is_plain, shown_bytes};

use crate::line_end::{number_before, text_before};
use percent_encoding::{AsciiSet, NON_ALPHANUMERIC, ascii_set, percent_encode};
use std::alloc::AllocError;

// The ASCII bytes of objects that don't stand for themselves.
const ESCAPED: AsciiSet = ascii_set!(
    NON_ALPHANUMERIC
        .remove(b'-')
        .remove(b'.')
        .remove(b'_')
        .remove(b'~')
);

#[inline(always)]
pub(crate) fn put(line: &mut Vec<u8>, text: &[u8]) -> Result<(), AllocError>
    ensures { Puts line.old.items line.new.items result text.now }
{
    line.extend_from_slice(text)
}

// A short text and a number.
pub(crate) fn put_labelled(line: &mut Vec<u8>, label: &[u8], n: u64) -> Result<(), AllocError>
    requires { length label.now ≤ 12 }
    ensures { Puts line.old.items line.new.items result (label.now ++ decimal n) }
{
    let mut buf = [0u8; 32];
    let at = number_before(&mut buf, 32, n);
    let at = text_before(&mut buf, at, label);
    put(line, &buf[at..])
}

// Two lower-case hexadecimal digits for each byte.
pub(crate) fn put_hex(line: &mut Vec<u8>, bytes: &[u8]) -> Result<(), AllocError>
    ensures { Puts line.old.items line.new.items result (encode_lower bytes.now) }
{
    let begun = line.len();
    let Some(digits) = bytes.len().checked_mul(2) else {
        return Err(AllocError);
    };
    let Some(end) = begun.checked_add(digits) else {
        return Err(AllocError);
    };
    line.resize(end, 0)?;
    match hex::encode_to_slice(bytes, &mut line.as_mut_slice()[begun..]) {
        Ok(()) => Ok(()),
        Err(_) => Err(AllocError),
    }
}

#[tactic(auto, using(crate::proofs::PrintSteps::shown_steps))]
fn put_object(line: &mut Vec<u8>, object: &[u8]) -> Result<(), AllocError>
    ensures { Puts line.old.items line.new.items result (shown_bytes object.now) }
{
    for piece in percent_encode(object, ESCAPED) {
        put(line, piece.as_bytes())?;
    }
    Ok(())
}

fn is_plain(b: u8) -> bool
    ensures { result ≡ is_plain b }
{
    b.is_ascii_alphanumeric() || matches!(b, b'-' | b'.' | b'_' | b'~')
}

fn are_plain(bytes: &[u8]) -> bool
    ensures { result ≡ list_all is_plain bytes.now }
{
    bytes.iter().all(|b| is_plain(*b))
}

// Three short texts.
#[inline(always)]
fn put_texts(line: &mut Vec<u8>, front: &[u8], middle: &[u8], back: &[u8]) -> Result<(), AllocError>
    requires front { length front.now ≤ 8 }
    requires middle { length middle.now ≤ 64 }
    requires back { length back.now ≤ 8 }
    ensures { Puts line.old.items line.new.items result (front.now ++ middle.now ++ back.now) }
{
    let mut buf = [0u8; 80];
    let at = text_before(&mut buf, 80, back);
    let at = text_before(&mut buf, at, middle);
    let at = text_before(&mut buf, at, front);
    put(line, &buf[at..])
}

// An object that is long, or has bytes to be escaped, between two short texts.
#[inline(never)]
fn put_long_object_between(
    line: &mut Vec<u8>,
    front: &[u8],
    object: &[u8],
    back: &[u8],
) -> Result<(), AllocError>
    requires front { length front.now ≤ 8 }
    requires back { length back.now ≤ 8 }
    ensures { Puts line.old.items line.new.items result
        (front.now ++ shown_bytes object.now ++ back.now) }
{
    put(line, front)?;
    put_object(line, object)?;
    put(line, back)
}

// An object between two short texts.
#[inline(always)]
pub(crate) fn put_object_between(
    line: &mut Vec<u8>,
    front: &[u8],
    object: &[u8],
    back: &[u8],
) -> Result<(), AllocError>
    requires front { length front.now ≤ 8 }
    requires back { length back.now ≤ 8 }
    ensures { Puts line.old.items line.new.items result
        (front.now ++ shown_bytes object.now ++ back.now) }
{
    if object.len() <= 64 && are_plain(object) {
        return put_texts(line, front, object, back);
    }
    put_long_object_between(line, front, object, back)
}
