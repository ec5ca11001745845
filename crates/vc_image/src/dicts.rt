ghost use Rattle.std.specs.Prelude.{◌≡◌, ◌+◌, ◌^◌, ◌<◌, ◌≤◌, IfOk, length};
ghost use Rattle.std.specs.List.{AllByRecursion};
ghost use Rattle.vc_image_check.specs.Bytes.Contents.{dict_row_at};
ghost use Rattle.vc_image_check.specs.Bytes.Header.{IsHeader};
ghost use Rattle.vc_image.specs.Load.{dict_of_row, dicts_of};

use std::alloc::Global;
use vc_base::{Addr, DictMethod, OutOfMemory};
use vc_dict::{Dict, Dicts};
use vc_image_check::{heads_of, method_of, word};

// The dictionary whose nine numbers lie from a place of an image on.
fn dict_at(image: &[u8], at: usize) -> Dict
    requires { at + 36 ≤ length image.now }
    ensures made { result ≡ dict_of_row (dict_row_at at image.now) }
    ensures kind { result.kind < 2 ^ 32 }
{
    Dict::from_parts(
        method_of(word(image, at)).unwrap_or(DictMethod::DtList),
        word(image, at + 4),
        word(image, at + 8) as u64,
        Addr(word(image, at + 12)),
        heads_of(image, at),
    )
}

// The dictionaries of an image with a head, whatever their numbers are. Refused for want of memory alone.
pub(crate) fn dicts_of_image(alloc: Global, image: &[u8]) -> Result<Dicts, OutOfMemory>
    requires { IsHeader image.now }
    ensures made { IfOk result (λ dicts. dicts ≡ dicts_of image.now) }
    ensures kinds { IfOk result (λ dicts. AllByRecursion (λ d. d.kind < 2 ^ 32) dicts) }
{
    let first = 20 + 8 * word(image, 8) as usize;
    let mut dicts = Dicts::new(alloc);
    for i in 0..word(image, 16) as usize {
        match dicts.add(dict_at(image, first + 36 * i)) {
            Ok(()) => {}
            Err((refused, _)) => return Err(refused),
        }
    }
    Ok(dicts)
}
