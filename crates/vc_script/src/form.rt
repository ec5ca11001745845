ghost use Rattle.std.specs.Prelude.{◌≡◌, [], IfOk};
ghost use Rattle.std.specs.Result.{result_map_both};
ghost use Rattle.vc_script.specs.Forms.{read_address, read_address_parts, read_bytes, read_dict_method, read_region_method, read_mode, read_name_or_dash, read_number, read_signed, read_site, read_some_site};
ghost use Rattle.vc_script.specs.Spelled.{spelled_bytes};

use crate::name_word::{NameWord, name_of};
use crate::spelled::Spelled;
use crate::word::{digits_of, escapes_in};
use crate::{Bytes, LineFault, Place};
use percent_encoding::percent_decode;
use std::alloc::{AllocError, Global};
use vc_base::DictMethod;
use vc_seg::Method;

pub(crate) fn site_of(word: &[u8]) -> Result<NameWord<'_>, LineFault>
    ensures { result ≡ read_site word.now }
{
    match word.split_first() {
        Some((b'@', rest)) => name_of(rest),
        _ => Err(LineFault::BadName),
    }
}

// A site that stands there.
pub(crate) fn some_site_of(word: &[u8]) -> Result<Option<NameWord<'_>>, LineFault>
    ensures { result ≡ read_some_site word.now }
{
    Ok(Some(site_of(word)?))
}

/// The number that a word spells: 1 to 10 decimal digits, at most 4,294,967,295. Any other word is a `BadNumber`. This
/// project's own.
pub fn number_of(word: &[u8]) -> Result<u32, LineFault>
    ensures { result ≡ read_number word.now }
{
    if word.is_empty() || 10 < word.len() {
        return Err(LineFault::BadNumber);
    }
    match digits_of(word) {
        Some(value) if value <= 4_294_967_295 => Ok(value as u32),
        _ => Err(LineFault::BadNumber),
    }
}

pub(crate) fn signed_of(word: &[u8]) -> Result<i64, LineFault>
    ensures { result ≡ read_signed word.now }
{
    match word.split_first() {
        Some((b'-', rest)) => Ok(-i64::from(number_of(rest)?)),
        _ => Ok(i64::from(number_of(word)?)),
    }
}

#[tactic(auto, using(crate::proofs::WordSteps::address_steps))]
pub(crate) fn address_of(word: &[u8]) -> Result<Place, LineFault>
    ensures { result ≡ read_address word.now }
{
    for (i, b) in word.iter().enumerate() {
        if *b == b':' {
            return address_of_parts(&word[..i], &word[i + 1..]);
        }
    }
    Err(LineFault::BadAddress)
}

fn address_of_parts(seg: &[u8], off: &[u8]) -> Result<Place, LineFault>
    ensures { result ≡ read_address_parts seg.now off.now }
{
    match (number_of(seg), number_of(off)) {
        (Ok(seg), Ok(off)) if 1 <= seg && seg <= 1_023 && off <= 33_554_431 => {
            Ok(Place { seg, off })
        }
        _ => Err(LineFault::BadAddress),
    }
}

// The word, where it spells bytes.
pub(crate) fn spelled_of(word: &[u8]) -> Result<Spelled<'_>, LineFault>
    ensures { result_map_both spelled_bytes (λ e. e) result ≡ read_bytes word.now }
{
    match escapes_in(word) {
        None => Err(LineFault::BadBytes),
        Some(0) => Ok(Spelled::Plain(word)),
        Some(escapes) => Ok(Spelled::Escaped(word, escapes)),
    }
}

// The bytes that a word spells, in the memory of an empty vector.
#[inline(always)]
pub(crate) fn decoded(room: Vec<u8>, spelled: Spelled<'_>) -> Result<Bytes, AllocError>
    requires { room.items ≡ [] }
    ensures { IfOk result (λ bytes. bytes ≡ spelled_bytes spelled.entry) }
{
    let mut bytes = room;
    match spelled {
        Spelled::Plain(word) => bytes.extend_from_slice(word)?,
        Spelled::Escaped(word, escapes) => {
            bytes.reserve(word.len().saturating_sub(escapes).saturating_sub(escapes))?;
            percent_decode(word).append_to(&mut bytes)?;
        }
    }
    Ok(Bytes::from_vec(bytes))
}

pub(crate) fn method_of(word: &[u8]) -> Result<Method, LineFault>
    ensures { result ≡ read_region_method word.now }
{
    if word == b"best".as_slice() {
        Ok(Method::VmBest)
    } else if word == b"pool".as_slice() {
        Ok(Method::VmPool)
    } else if word == b"last".as_slice() {
        Ok(Method::VmLast)
    } else if word == b"debug".as_slice() {
        Ok(Method::VmDebug)
    } else if word == b"profile".as_slice() {
        Ok(Method::VmProfile)
    } else {
        Err(LineFault::UnknownMethod)
    }
}

pub(crate) fn dict_method_of(word: &[u8]) -> Result<DictMethod, LineFault>
    ensures { result ≡ read_dict_method word.now }
{
    if word == b"set".as_slice() {
        Ok(DictMethod::DtSet)
    } else if word == b"bag".as_slice() {
        Ok(DictMethod::DtBag)
    } else if word == b"oset".as_slice() {
        Ok(DictMethod::DtOset)
    } else if word == b"obag".as_slice() {
        Ok(DictMethod::DtObag)
    } else if word == b"list".as_slice() {
        Ok(DictMethod::DtList)
    } else if word == b"stack".as_slice() {
        Ok(DictMethod::DtStack)
    } else if word == b"queue".as_slice() {
        Ok(DictMethod::DtQueue)
    } else {
        Err(LineFault::UnknownMethod)
    }
}

// Whether a block may move.
pub(crate) fn mode_of(word: &[u8]) -> Result<bool, LineFault>
    ensures { result ≡ read_mode word.now }
{
    if word == b"move".as_slice() {
        Ok(true)
    } else if word == b"fixed".as_slice() {
        Ok(false)
    } else {
        Err(LineFault::UnknownMethod)
    }
}

// A name, or `-` for none.
pub(crate) fn name_or_dash_of(word: &[u8]) -> Result<Option<NameWord<'_>>, LineFault>
    ensures { result ≡ read_name_or_dash word.now }
{
    if word == b"-".as_slice() {
        Ok(None)
    } else {
        Ok(Some(name_of(word)?))
    }
}
