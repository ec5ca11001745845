ghost use Rattle.std.specs.Prelude.{◌≡◌, false};
ghost use Rattle.vc_dtdisc.specs.Rules.{Gone, Rules};
ghost use Rattle.vc_best.specs.Parts.{disc_in};
ghost use Rattle.vc_objects.specs.Promises.{CanAsk};
ghost use Rattle.vc_commands.specs.Answered.{answered};
ghost use Rattle.vc_commands.specs.DictCommands.{asks};
ghost use Rattle.vc_commands.specs.DictRun.{HaltsCommand, RunsCommand};

use crate::dict::putting::{append, attach, insert};
use crate::dict::taking::{delete, take};
use crate::dict::turning::{empty, remethod};
use std::alloc::Global;
use vc_base::OutOfMemory;
use vc_best::Best;
use vc_dict::Dict;
use vc_dtdisc::DictDisc;
use vc_script::{Command, Refusal, Reply};
use vc_seg::{BoxedDisc, SegDisc};

/// Runs a command on one dictionary in its best region, by its kind: `insert`, `append`, `attach`, `delete`, `detach`,
/// `count`, `method` and `empty`. `dict`, `shut`, `view` and the commands that look through a view path are no such
/// command, and are refused as if there were no dictionary. The reply is put in place of another one. With no memory any
/// may stand there, and nothing else changes, save that `insert` and `attach` may leave a larger table.
pub fn run<D: DictDisc>(
    alloc: Global,
    best: &mut Best,
    dict: &mut Dict,
    kind: &mut D,
    command: &Command,
    reply: &mut Reply,
) -> Result<(), OutOfMemory>
    requires ask { CanAsk state (D.rules kind.old) best.old dict.old }

    ensures runs { RunsCommand state (answered result reply.new) (D.rules kind.old) command.now
        best.old dict.old (D.gone kind.old) best.new dict.new (D.gone kind.new) }
    ensures rules { D.rules kind.new ≡ D.rules kind.old }
    ensures disc { asks command.now ≡ false
        → disc_in state best.new ≡ disc_in state best.old }

    // With no memory the kind was told of nothing.
    ensures err { HaltsCommand state (answered result reply.new) (D.rules kind.old) command.now
        best.old dict.old (D.gone kind.old) best.new dict.new (D.gone kind.new) }
{
    match command {
        Command::Insert(_, object) => insert(alloc, best, dict, kind, object.as_slice(), reply),
        Command::Append(_, object) => append(alloc, best, dict, kind, object.as_slice(), reply),
        Command::Attach(_, object) => attach(alloc, best, dict, kind, object.as_slice(), reply),
        Command::Delete(_, object) => delete(alloc, best, dict, kind, object, reply),
        Command::Detach(_, object) => take(
            alloc,
            best,
            dict,
            kind,
            object.as_slice(),
            false,
            reply,
        ),
        Command::Count(_) => {
            *reply = Reply::Number(dict.count);
            Ok(())
        }
        Command::Remethod(name, method) => remethod(alloc, best, dict, kind, *name, *method, reply),
        Command::Empty(name) => {
            *reply = empty(best, dict, kind, *name);
            Ok(())
        }
        _ => {
            *reply = Reply::Refused(Refusal::NoDictionary);
            Ok(())
        }
    }
}
