ghost use Rattle.std.specs.Prelude.{◌≡◌, [], ◌∷◌, Some, None, map};
ghost use Rattle.std.specs.Result.{result_map_both};
ghost use Rattle.vc_script.specs.Forms as form;
ghost use Rattle.vc_script.specs.Table.{read_words};

use crate::form::{
    address_of, dict_method_of, method_of, mode_of, name_or_dash_of, number_of, signed_of,
    some_site_of,
};
use crate::in_turn::{four, three, two};
use crate::name_word::{NameWord, name_of};
use crate::{LineFault, Place};
use vc_base::DictMethod;
use vc_seg::Method;

// `R`, or `D`.
pub(crate) fn name_in<'a>(others: &[&'a [u8]]) -> Result<NameWord<'a>, LineFault>
    ensures { result_map_both (λ a. (a, tt)) (λ e. e) result
        ≡ read_words (form.Name ∷ []) None (map (λ w. w.now) others.now) }
{
    match others {
        [name] => name_of(name),
        _ => Err(LineFault::WordCount),
    }
}

// `R X`.
pub(crate) fn block_in<'a>(others: &[&'a [u8]]) -> Result<(NameWord<'a>, NameWord<'a>), LineFault>
    ensures { result_map_both (λ t. (t.0, (t.1, tt))) (λ e. e) result
        ≡ read_words (form.Name ∷ form.Name ∷ []) None (map (λ w. w.now) others.now) }
{
    match others {
        [region, block] => two(name_of(region), name_of(block)),
        _ => Err(LineFault::WordCount),
    }
}

// `R S:O`.
pub(crate) fn address_in<'a>(others: &[&'a [u8]]) -> Result<(NameWord<'a>, Place), LineFault>
    ensures { result_map_both (λ t. (t.0, (t.1, tt))) (λ e. e) result
        ≡ read_words (form.Name ∷ form.Address ∷ []) None (map (λ w. w.now) others.now) }
{
    match others {
        [region, place] => two(name_of(region), address_of(place)),
        _ => Err(LineFault::WordCount),
    }
}

// `R METHOD N`.
pub(crate) fn open_in<'a>(others: &[&'a [u8]]) -> Result<(NameWord<'a>, Method, u32), LineFault>
    ensures { result_map_both (λ t. (t.0, (t.1, (t.2, tt)))) (λ e. e) result
        ≡ read_words (form.Name ∷ form.RegionMethod ∷ form.Number ∷ []) None
        (map (λ w. w.now) others.now) }
{
    match others {
        [region, method, place] => three(name_of(region), method_of(method), number_of(place)),
        _ => Err(LineFault::WordCount),
    }
}

// `R X SIZE [@SITE]`.
pub(crate) fn alloc_in<'a>(
    others: &[&'a [u8]],
) -> Result<(NameWord<'a>, NameWord<'a>, u32, Option<NameWord<'a>>), LineFault>
    ensures { result_map_both (λ t. (t.0, (t.1, (t.2, t.3)))) (λ e. e) result
        ≡ read_words (form.Name ∷ form.Name ∷ form.Number ∷ []) (Some form.Site)
        (map (λ w. w.now) others.now) }
{
    match others {
        [region, block, size] => four(name_of(region), name_of(block), number_of(size), Ok(None)),
        [region, block, size, site] => four(
            name_of(region),
            name_of(block),
            number_of(size),
            some_site_of(site),
        ),
        _ => Err(LineFault::WordCount),
    }
}

// `R X`, and two numbers.
pub(crate) fn numbers_in<'a>(
    others: &[&'a [u8]],
) -> Result<(NameWord<'a>, NameWord<'a>, u32, u32), LineFault>
    ensures { result_map_both (λ t. (t.0, (t.1, (t.2, (t.3, tt))))) (λ e. e) result
        ≡ read_words (form.Name ∷ form.Name ∷ form.Number ∷ form.Number ∷ []) None
        (map (λ w. w.now) others.now) }
{
    match others {
        [region, block, n, m] => four(name_of(region), name_of(block), number_of(n), number_of(m)),
        _ => Err(LineFault::WordCount),
    }
}

// `R X SIZE MODE`.
pub(crate) fn resize_in<'a>(
    others: &[&'a [u8]],
) -> Result<(NameWord<'a>, NameWord<'a>, u32, bool), LineFault>
    ensures { result_map_both (λ t. (t.0, (t.1, (t.2, (t.3, tt))))) (λ e. e) result
        ≡ read_words (form.Name ∷ form.Name ∷ form.Number ∷ form.Mode ∷ []) None
        (map (λ w. w.now) others.now) }
{
    match others {
        [region, block, size, moves] => four(
            name_of(region),
            name_of(block),
            number_of(size),
            mode_of(moves),
        ),
        _ => Err(LineFault::WordCount),
    }
}

// `R X OFF BYTE`.
pub(crate) fn poke_in<'a>(
    others: &[&'a [u8]],
) -> Result<(NameWord<'a>, NameWord<'a>, i64, u32), LineFault>
    ensures { result_map_both (λ t. (t.0, (t.1, (t.2, (t.3, tt))))) (λ e. e) result
        ≡ read_words (form.Name ∷ form.Name ∷ form.SignedNumber ∷ form.Number ∷ []) None
        (map (λ w. w.now) others.now) }
{
    match others {
        [region, block, off, byte] => four(
            name_of(region),
            name_of(block),
            signed_of(off),
            number_of(byte),
        ),
        _ => Err(LineFault::WordCount),
    }
}

// `D METHOD R K`.
pub(crate) fn dict_in<'a>(
    others: &[&'a [u8]],
) -> Result<(NameWord<'a>, DictMethod, NameWord<'a>, u32), LineFault>
    ensures { result_map_both (λ t. (t.0, (t.1, (t.2, (t.3, tt))))) (λ e. e) result
        ≡ read_words (form.Name ∷ form.DictionaryMethod ∷ form.Name ∷ form.Number ∷ []) None
        (map (λ w. w.now) others.now) }
{
    match others {
        [dict, method, region, kind] => four(
            name_of(dict),
            dict_method_of(method),
            name_of(region),
            number_of(kind),
        ),
        _ => Err(LineFault::WordCount),
    }
}

// `D E`, or `D -`.
pub(crate) fn view_in<'a>(
    others: &[&'a [u8]],
) -> Result<(NameWord<'a>, Option<NameWord<'a>>), LineFault>
    ensures { result_map_both (λ t. (t.0, (t.1, tt))) (λ e. e) result
        ≡ read_words (form.Name ∷ form.NameOrDash ∷ []) None (map (λ w. w.now) others.now) }
{
    match others {
        [dict, viewed] => two(name_of(dict), name_or_dash_of(viewed)),
        _ => Err(LineFault::WordCount),
    }
}

// `D METHOD`.
pub(crate) fn method_in<'a>(others: &[&'a [u8]]) -> Result<(NameWord<'a>, DictMethod), LineFault>
    ensures { result_map_both (λ t. (t.0, (t.1, tt))) (λ e. e) result
        ≡ read_words (form.Name ∷ form.DictionaryMethod ∷ []) None (map (λ w. w.now) others.now) }
{
    match others {
        [dict, method] => two(name_of(dict), dict_method_of(method)),
        _ => Err(LineFault::WordCount),
    }
}
