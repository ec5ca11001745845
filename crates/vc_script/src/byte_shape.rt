ghost use Rattle.std.specs.Prelude.{◌≡◌, [], ◌∷◌, Some, None, map, option_map, IfOk};
ghost use Rattle.std.specs.Result.{result_map_both};
ghost use Rattle.vc_script.specs.Forms as form;
ghost use Rattle.vc_script.specs.Spelled.{spelled_bytes};
ghost use Rattle.vc_script.specs.Table.{read_words};

use crate::form::{decoded, number_of, spelled_of};
use crate::in_turn::two;
use crate::name_word::{NameWord, name_of};
use crate::spelled::Spelled;
use crate::{Bytes, LineFault};
use std::alloc::Global;
use vc_base::OutOfMemory;

// `D OBJ`, with the word that spells the object.
#[inline(always)]
pub(crate) fn object_word_in<'a>(
    others: &[&'a [u8]],
) -> Result<(NameWord<'a>, Spelled<'a>), LineFault>
    ensures { result_map_both (λ t. (t.0, (spelled_bytes t.1, tt))) (λ e. e) result
        ≡ read_words (form.Name ∷ form.Bytes ∷ []) None (map (λ w. w.now) others.now) }
{
    match others {
        [dict, object] => two(name_of(dict), spelled_of(object)),
        _ => Err(LineFault::WordCount),
    }
}

// `D [OBJ]`, with the word that spells the object.
#[inline(always)]
pub(crate) fn delete_words_in<'a>(
    others: &[&'a [u8]],
) -> Result<(NameWord<'a>, Option<Spelled<'a>>), LineFault>
    ensures { result_map_both (λ t. (t.0, option_map spelled_bytes t.1)) (λ e. e) result
        ≡ read_words (form.Name ∷ []) (Some form.Bytes) (map (λ w. w.now) others.now) }
{
    match others {
        [dict] => Ok((name_of(dict)?, None)),
        [_, _] => match object_word_in(others) {
            Ok((dict, object)) => Ok((dict, Some(object))),
            Err(fault) => Err(fault),
        },
        _ => Err(LineFault::WordCount),
    }
}

// `R X OFF BYTES`, with the word that spells the bytes.
fn write_word_in<'a>(
    others: &[&'a [u8]],
) -> Result<(NameWord<'a>, NameWord<'a>, u32, Spelled<'a>), LineFault>
    ensures { result_map_both (λ t. (t.0, (t.1, (t.2, (spelled_bytes t.3, tt))))) (λ e. e)
        result
        ≡ read_words (form.Name ∷ form.Name ∷ form.Number ∷ form.Bytes ∷ []) None
        (map (λ w. w.now) others.now) }
{
    match others {
        [region, block, off, bytes] => {
            let region = name_of(region)?;
            let block = name_of(block)?;
            let off = number_of(off)?;
            let bytes = spelled_of(bytes)?;
            Ok((region, block, off, bytes))
        }
        _ => Err(LineFault::WordCount),
    }
}

// `R X OFF BYTES`.
pub(crate) fn write_in<'a>(
    alloc: Global,
    others: &[&'a [u8]],
) -> Result<Result<(NameWord<'a>, NameWord<'a>, u32, Bytes), LineFault>, OutOfMemory>
    ensures { IfOk result (λ read.
        result_map_both (λ t. (t.0, (t.1, (t.2, (t.3, tt))))) (λ e. e) read
        ≡ read_words (form.Name ∷ form.Name ∷ form.Number ∷ form.Bytes ∷ []) None
        (map (λ w. w.now) others.now)) }
{
    match write_word_in(others) {
        Ok((region, block, off, bytes)) => Ok(Ok((
            region,
            block,
            off,
            decoded(Vec::new(alloc), bytes)?,
        ))),
        Err(fault) => Ok(Err(fault)),
    }
}
