ghost use Rattle.std.specs.Prelude.{length};
ghost use Rattle.vc_best.specs.Cells.{cells_in};
ghost use Rattle.vc_store.specs.Contents.{contents_in};
ghost use Rattle.vc_store.specs.Reading.{first_place, last_index, next_place, previous_place};
ghost use Rattle.vc_store.specs.Moves.{IsWholeBySome, Moves};

use vc_base::Addr;
use vc_best::Best;
use vc_dict::Dict;

/// Makes the first object current, and answers whether there is one.
pub fn to_first(best: &Best, dict: &mut Dict) -> bool
    requires whole { IsWholeBySome dict.old (cells_in best.now) }
    ensures moves { Moves (first_place (length (contents_in dict.old best.now).objects)) result
        best.now dict.old dict.new }
{
    match dict.first(best) {
        Some(at) => {
            dict.current = at;
            true
        }
        None => {
            dict.current = Addr::NONE;
            false
        }
    }
}

/// Makes the last object current, and answers whether there is one.
pub fn to_last(best: &Best, dict: &mut Dict) -> bool
    requires whole { IsWholeBySome dict.old (cells_in best.now) }
    ensures moves { Moves (last_index (length (contents_in dict.old best.now).objects)) result
        best.now dict.old dict.new }
{
    match dict.last(best) {
        Some(at) => {
            dict.current = at;
            true
        }
        None => {
            dict.current = Addr::NONE;
            false
        }
    }
}

/// Makes the object behind the current one current, and answers whether there is one.
pub fn to_next(best: &Best, dict: &mut Dict) -> bool
    requires whole { IsWholeBySome dict.old (cells_in best.now) }
    ensures moves { Moves (next_place (length (contents_in dict.old best.now).objects)
        (contents_in dict.old best.now).place) result best.now dict.old dict.new }
{
    let here = dict.current;
    if here == Addr::NONE {
        return false;
    }
    match dict.next(best, here) {
        Some(at) => {
            dict.current = at;
            true
        }
        None => {
            dict.current = Addr::NONE;
            false
        }
    }
}

/// Makes the object before the current one current, and answers whether there is one.
pub fn to_prev(best: &Best, dict: &mut Dict) -> bool
    requires whole { IsWholeBySome dict.old (cells_in best.now) }
    ensures moves { Moves (previous_place (contents_in dict.old best.now).place) result
        best.now dict.old dict.new }
{
    let here = dict.current;
    if here == Addr::NONE {
        return false;
    }
    match dict.prev(best, here) {
        Some(at) => {
            dict.current = at;
            true
        }
        None => {
            dict.current = Addr::NONE;
            false
        }
    }
}
