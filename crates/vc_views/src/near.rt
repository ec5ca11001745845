ghost use Rattle.std.specs.Prelude.{◌≡◌, ◌<◌, IfSome, is_some, length, slice_get, bytes_eq};
ghost use Rattle.std.specs.HashMap.{get, values};
ghost use Rattle.std.specs.List.{position};
ghost use Rattle.std.specs.Map.{keys_of};

use indexmap::IndexMap;
use vc_base::Name;

// The index of a name in a map, from 0 on. It stands apart, so that a look near by is short.
#[inline(never)]
fn index_far<V>(map: &IndexMap<Name, V>, name: &Name) -> Option<usize>
    ensures index { result ≡ position (bytes_eq name.now) (keys_of map.now.entries) }
    ensures found { is_some result ≡ is_some (get bytes_eq map.now name.now) }
    ensures within { IfSome result (λ i. i < length map.now.entries) }
    ensures value { IfSome result (λ i. slice_get (values map.now) i
        ≡ get bytes_eq map.now name.now) }
{
    map.get_index_of(name)
}

// Whether two names are the same, by all their bytes. It stands apart, so that names of one byte are compared in place.
#[inline(never)]
fn is_equal(a: &Name, b: &Name) -> bool
    ensures { result ≡ bytes_eq a.now b.now }
{
    *a == *b
}

// Whether two names are the same.
#[inline(always)]
fn is_same(a: &Name, b: &Name) -> bool
    ensures { result ≡ bytes_eq a.now b.now }
{
    let x = a.bytes();
    let y = b.bytes();
    if x.len() != y.len() {
        return false;
    }
    if x[0] != y[0] {
        return false;
    }
    if x.len() == 1 {
        return true;
    }
    is_equal(a, b)
}

/// The index of a name in a map, from 0 on, as `get_index_of` answers it. An index at which the name may stand, which may
/// be any number, is looked at first: so a name that is asked for again costs one comparison. This project's own.
#[inline(always)]
pub fn index_near<V>(map: &IndexMap<Name, V>, name: &Name, near: usize) -> Option<usize>
    ensures index { result ≡ position (bytes_eq name.now) (keys_of map.now.entries) }
    ensures found { is_some result ≡ is_some (get bytes_eq map.now name.now) }
    ensures within { IfSome result (λ i. i < length map.now.entries) }
    ensures value { IfSome result (λ i. slice_get (values map.now) i
        ≡ get bytes_eq map.now name.now) }
{
    // That no two names are alike.
    let _count = map.len();
    match map.get_index(near) {
        Some((key, _)) => {
            if is_same(key, name) {
                return Some(near);
            }
        }
        None => {}
    }
    index_far(map, name)
}
