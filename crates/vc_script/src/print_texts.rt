ghost use Rattle.std.specs.Prelude.{◌≡◌, ◌≤◌, length};
ghost use Rattle.vc_script.specs.Print.{label_text, method_word, viewed_text};

use vc_base::{DictMethod, Name};

pub(crate) fn method_word(method: DictMethod) -> &'static [u8]
    ensures text { result.now ≡ method_word method }
    ensures short { length result.now ≤ 32 }
{
    match method {
        DictMethod::DtSet => b"set",
        DictMethod::DtBag => b"bag",
        DictMethod::DtOset => b"oset",
        DictMethod::DtObag => b"obag",
        DictMethod::DtList => b"list",
        DictMethod::DtStack => b"stack",
        DictMethod::DtQueue => b"queue",
    }
}

pub(crate) fn label_text(label: &Option<Name>) -> &[u8]
    ensures text { result.now ≡ label_text label.now }
    ensures short { length result.now ≤ 32 }
{
    match label {
        None => b"*",
        Some(name) => name.bytes(),
    }
}

pub(crate) fn viewed_text(viewed: &Option<Name>) -> &[u8]
    ensures text { result.now ≡ viewed_text viewed.now }
    ensures short { length result.now ≤ 32 }
{
    match viewed {
        None => b"-",
        Some(name) => name.bytes(),
    }
}
