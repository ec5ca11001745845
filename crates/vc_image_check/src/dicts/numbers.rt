ghost use Rattle.std.specs.Prelude.{◌≡◌, ◌+◌, ◌≤◌, Some, None, IfNone, IfSome, length, map};
ghost use Rattle.vc_model.specs.Numbered.{at_number};
ghost use Rattle.vc_image_check.specs.Bytes.Contents.{dict_row_at};
ghost use Rattle.vc_image_check.specs.Dicts.Sound.{heads_of, numbered_method};

use crate::bytes::word;
use vc_base::{Addr, DictMethod};
use vc_dict::Heads;
use vc_dtdisc::DictDisc;

/// The method of a number, from 0 on, in the order of `DictMethod`; none from 7 on. This project's own.
pub fn method_of(n: u32) -> Option<DictMethod>
    ensures { result ≡ numbered_method n }
{
    match n {
        0 => Some(DictMethod::DtSet),
        1 => Some(DictMethod::DtBag),
        2 => Some(DictMethod::DtOset),
        3 => Some(DictMethod::DtObag),
        4 => Some(DictMethod::DtList),
        5 => Some(DictMethod::DtStack),
        6 => Some(DictMethod::DtQueue),
        _ => None,
    }
}

// The kind of a number, from 1 on.
pub(crate) fn kind_of<D: DictDisc>(kinds: &Vec<D>, n: u32) -> Option<&D>
    ensures some { IfSome result (λ kind. at_number (map D.rules kinds.now.items) n
        ≡ Some (D.rules kind.now)) }
    ensures none { IfNone result (at_number (map D.rules kinds.now.items) n ≡ None) }
{
    if n == 0 {
        return None;
    }
    kinds.get(n as usize - 1)
}

/// The heads among a dictionary's nine numbers, which lie in an image from a place on. This project's own.
pub fn heads_of(image: &[u8], at: usize) -> Heads
    requires { at + 36 ≤ length image.now }
    ensures { result ≡ heads_of (dict_row_at at image.now) }
{
    Heads {
        first: Addr(word(image, at + 16)),
        last: Addr(word(image, at + 20)),
        table: Addr(word(image, at + 24)),
        root: Addr(word(image, at + 32)),
        slots: word(image, at + 28),
    }
}
