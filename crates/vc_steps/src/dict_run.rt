ghost use Rattle.std.specs.Prelude.{◌≡◌, Some, IfSome, true, false, slice_get};
ghost use Rattle.vc_commands.specs.Answered.{answered};
ghost use Rattle.vc_script.specs.Target.{target_of};
ghost use Rattle.vc_script.specs.declared.target.Target.TheVariants.{Dict};
ghost use Rattle.vc_steps.specs.DictRuns.{HasDictAt, RunsOn};
ghost use Rattle.vc_steps.specs.Dicts.{dict_of, dict_step, runs_alone};
ghost use Rattle.vc_views.specs.Numbers.{is_barred};
ghost use Rattle.vc_steps.specs.Homes.{IsSessionOver};
ghost use Rattle.vc_steps.specs.Moment.{moment};
ghost use Rattle.vc_steps.specs.Steps.{KeepsSpent, StepsBy};

use crate::session::Session;
use vc_base::{Name, OutOfMemory};
use vc_dtdisc::DictDisc;
use vc_region::Region;
use vc_script::{Command, Refusal, Reply, Work};
use vc_seg::{BoxedDisc, SegDisc, Shelf};
use vc_views::{index_near, is_barred, show_names};

impl<D: DictDisc> Session<D> {
    // Runs a command on the dictionary of that name. With no memory its table may have grown.
    #[inline(always)]
    pub(crate) fn run_on_dict(
        &mut self,
        shelf: &Shelf,
        kinds: &mut Vec<D>,
        name: &Name,
        work: Work,
        command: &Command,
        reply: &mut Reply,
    ) -> Result<(), OutOfMemory>
        requires session { IsSessionOver state D.rules shelf.now self.old kinds.old.items }
        requires command { target_of command.now ≡ Dict name.now work }
        ensures steps { StepsBy (answered result reply.new)
            (moment state D.rules D.gone shelf.now self.old kinds.old.items)
            (moment state D.rules D.gone shelf.now self.new kinds.new.items)
            command.now (λ s. dict_step s name.now command.now) }
        ensures stays { KeepsSpent state D.rules shelf.now self.old kinds.old.items
            shelf.now self.new kinds.new.items }
    {
        let Some(i) = self.dict_index(name) else {
            *reply = Reply::Refused(Refusal::NoDictionary);
            return Ok(());
        };
        show_names(&self.dicts);
        if is_barred(&self.paths, self.dicts[i].number, work) {
            *reply = Reply::Refused(Refusal::Viewed);
            return Ok(());
        }
        match work {
            Work::Look => self.look_at(shelf, kinds, name, i, command, reply),
            Work::View => {
                self.view_by(shelf, kinds, name, i, command, reply);
                Ok(())
            }
            Work::End => {
                self.shut_at(shelf, kinds, i);
                *reply = Reply::ShutDown(*name);
                Ok(())
            }
            _ => self.run_at(shelf, kinds, name, i, command, reply),
        }
    }

    // Runs a command on the dictionary of that name and index, from 0 on, alone: it neither ends it, nor lets it view another
    // one, nor looks through its path. It turns none that is viewed or views another one.
    #[inline(always)]
    fn run_at(
        &mut self,
        shelf: &Shelf,
        kinds: &mut Vec<D>,
        name: &Name,
        i: usize,
        command: &Command,
        reply: &mut Reply,
    ) -> Result<(), OutOfMemory>
        requires at { HasDictAt state D.rules shelf.now self.old kinds.old.items name.now i }
        requires name { dict_of command.now ≡ Some name.now }
        requires alone { runs_alone command.now ≡ true }
        requires free { IfSome (slice_get self.old.dicts.entries i)
            (λ e. is_barred self.old.paths e.1.number command.now ≡ false) }
        ensures { RunsOn state D.rules D.gone shelf.now self.old kinds.old.items
            self.new kinds.new.items name.now command.now (answered result reply.new) }
    {
        show_names(&self.dicts);
        let entry = &self.dicts[i];
        let Some(j) = index_near(&self.homes, &entry.home, self.last_region) else {
            unreachable!()
        };
        let k = entry.dict.kind as usize - 1;
        self.last_region = j;
        self.last_dict = i;
        let Region::Best(best) = &mut self.homes[j].region else {
            unreachable!()
        };
        vc_commands::run(
            self.alloc,
            best,
            &mut self.dicts[i].dict,
            &mut kinds[k],
            command,
            reply,
        )
    }
}
