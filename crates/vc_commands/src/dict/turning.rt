ghost use Rattle.std.specs.Prelude.{◌≡◌, OnErr};
ghost use Rattle.vc_dtdisc.specs.Rules.{Gone, Rules};
ghost use Rattle.vc_best.specs.Cells.{cells_in};
ghost use Rattle.vc_best.specs.Parts.{disc_in};
ghost use Rattle.vc_objects.specs.Leaves.{LeavesRest};
ghost use Rattle.vc_objects.specs.Parts.{IsWhole};
ghost use Rattle.vc_objects.specs.Promises.{CanAsk, IsStill};
ghost use Rattle.vc_commands.specs.Answered.{answered};
ghost use Rattle.vc_script.specs.Needs.{NoNeed, need_shown};
ghost use Rattle.vc_commands.specs.DictCommands.{empty_in};
ghost use Rattle.vc_commands.specs.DictRun.{Gives, RunsCommand, seat_in};

use crate::Uncounted;
use std::alloc::Global;
use vc_base::{Addr, Cells, DictMethod, Name, OutOfMemory, Steps};
use vc_best::Best;
use vc_dict::Dict;
use vc_dtdisc::DictDisc;
use vc_script::{Command, Refusal, Reply};
use vc_seg::{BoxedDisc, RegionFault, SegDisc};

// `method`: turns a dictionary of that name to a method.
pub(crate) fn remethod<D: DictDisc>(
    alloc: Global,
    best: &mut Best,
    dict: &mut Dict,
    kind: &mut D,
    name: Name,
    method: DictMethod,
    reply: &mut Reply,
) -> Result<(), OutOfMemory>
    requires ask { CanAsk state (D.rules kind.old) best.old dict.old }

    ensures runs { RunsCommand state (answered result reply.new) (D.rules kind.old)
        (Command.Remethod name method)
        best.old dict.old (D.gone kind.old) best.new dict.new (D.gone kind.new) }
    ensures rules { D.rules kind.new ≡ D.rules kind.old }
    ensures err { OnErr result ((D.gone kind.new ≡ D.gone kind.old)
        × IsStill best.old dict.old best.new dict.new) }
{
    let mut steps = Steps::<Uncounted>::new(alloc);
    match vc_objects::turn(best, dict, kind, method, &mut steps) {
        Ok(()) => {
            *reply = Reply::MethodIs(name, method);
            Ok(())
        }
        Err(RegionFault::OutOfMemory) => Err(OutOfMemory),
        Err(RegionFault::NoSegment) => {
            *reply = Reply::Refused(Refusal::NoSegmentForTable);
            Ok(())
        }
        // No other refusal comes.
        Err(_) => {
            *reply = Reply::Refused(Refusal::TooManySegments);
            Ok(())
        }
    }
}

// `empty`: takes all objects out of a dictionary of that name, and tells the kind of each.
pub(crate) fn empty<D: DictDisc>(
    best: &mut Best,
    dict: &mut Dict,
    kind: &mut D,
    name: Name,
) -> Reply
    requires whole { IsWhole (D.rules kind.old) dict.old (cells_in best.old) }

    ensures step { Gives (empty_in (seat_in state (D.rules kind.old) best.old dict.old) name)
        best.new dict.new result (D.gone kind.old) (D.gone kind.new) }
    ensures need { need_shown result ≡ NoNeed }
    ensures leaves { LeavesRest state (D.rules kind.old) best.old dict.old best.new dict.new }
    ensures disc { disc_in state best.new ≡ disc_in state best.old }
    ensures rules { D.rules kind.new ≡ D.rules kind.old }
{
    Reply::Emptied(name, vc_objects::empty(best, dict, kind))
}
