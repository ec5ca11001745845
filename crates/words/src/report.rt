ghost use Rattle.std.specs.Prelude.{◌≡◌, [], true, IfOk, IsErrOf};
ghost use Rattle.vc_base.specs.Prelude.{HasOut};
ghost use Rattle.vc_best.specs.Parts.{segments_in};
ghost use Rattle.vc_objects.specs.Leaves.{KeepsDisc};
ghost use Rattle.vc_store.specs.Collections.{contents};
ghost use Rattle.words.specs.Report.{Reports, has_long};
ghost use Rattle.words.specs.Sets.{IsWordSet, StaysWordSet};

use crate::count::{WordSet, count_words, put_lines};
use std::alloc::Global;
use vc_base::DictMethod;
use vc_best::Best;
use vc_dtdisc::{BuiltIn, Shape};
use vc_seg::{BoxedDisc, SegDisc};
use vc_store::{Collection, Put};

// Why there is no report, by the program's status.
#[derive(Clone, Copy)]
pub(crate) enum Fault {
    TooLong = 1,
    Read = 3,
    Write = 4,
    Memory = 5,
}

// Counts the words of a text in an empty set, and answers a line for each.
fn tell_in(alloc: Global, set: &mut WordSet, text: &[u8]) -> Result<Vec<u8>, Fault>
    requires set { IsWordSet state set.old }
    requires empty { (contents set.old).objects ≡ [] }
    ensures ok { IfOk result (λ lines. Reports text.now lines.items) }
    ensures too_long { IsErrOf result Fault.TooLong → has_long text.now ≡ true }
    ensures stays { StaysWordSet state set.old set.new }
{
    let mut lines = Vec::new(alloc);
    match count_words(alloc, set, text) {
        Ok(Put::WrongSize) => Err(Fault::TooLong),
        Ok(put) if put.is_there() => match put_lines(set, &mut lines) {
            Ok(()) => Ok(lines),
            Err(_) => Err(Fault::Memory),
        },
        _ => Err(Fault::Memory),
    }
}

// Tells the words of a text, over a region of no segment. All that the region's discipline had out it has out again.
pub(crate) fn tell_words(
    alloc: Global,
    best: Best,
    text: &[u8],
) -> (Result<Vec<u8>, Fault>, Box<dyn SegDisc>)
    requires { HasOut (state best.disc) (segments_in best) }
    ensures ok { IfOk result.0 (λ lines. Reports text.now lines.items) }
    ensures too_long { IsErrOf result.0 Fault.TooLong → has_long text.now ≡ true }
    ensures closed { KeepsDisc (state best.disc) (state result.1) (segments_in best) [] }
{
    let kind = BuiltIn::new(Shape::Text { off: 8 });
    match Collection::open(best, DictMethod::DtOset, kind) {
        Ok(mut set) => {
            let told = tell_in(alloc, &mut set, text);
            (told, set.close().0)
        }
        Err((_, best)) => (Err(Fault::Memory), best.close().0),
    }
}
