ghost use Rattle.std.specs.Prelude.{◌≡◌, Some, true};
ghost use Rattle.vc_commands.specs.Answered.{answered};
ghost use Rattle.vc_commands.specs.Looking.{is_look};
ghost use Rattle.vc_script.specs.Needs.{need_shown};
ghost use Rattle.vc_script.specs.Target.{target_of};
ghost use Rattle.vc_script.specs.declared.command.Command.TheVariants.{View};
ghost use Rattle.vc_script.specs.declared.target.Target.TheVariants.{Dict};
ghost use Rattle.vc_steps.specs.DictRuns.{HasDictAt, RunsOn};
ghost use Rattle.vc_steps.specs.Dicts.{dict_of, dict_step};
ghost use Rattle.vc_steps.specs.Homes.{state_over};
ghost use Rattle.vc_steps.specs.Moment.{moment};
ghost use Rattle.vc_steps.specs.Steps.{KeepsSpent, Steps};
ghost use Rattle.vc_steps.specs.Told.{rules_in};

use crate::session::Session;
use vc_base::{Name, OutOfMemory};
use vc_dtdisc::DictDisc;
use vc_script::{Command, Refusal, Reply, Work};
use vc_seg::{BoxedDisc, SegDisc, Shelf};
use vc_views::{refusal_of, show_names, view_at};

impl<D: DictDisc> Session<D> {
    // Lets the dictionary of that name and index, from 0 on, view another one in place of what it viewed, or none.
    pub(crate) fn view_named(
        &mut self,
        shelf: &Shelf,
        kinds: &Vec<D>,
        name: &Name,
        i: usize,
        viewed: &Option<Name>,
    ) -> Reply
        requires at { HasDictAt state D.rules shelf.now self.old kinds.now.items name.now i }
        ensures steps { Steps
            (moment state D.rules D.gone shelf.now self.old kinds.now.items)
            (moment state D.rules D.gone shelf.now self.new kinds.now.items)
            (View name.now viewed.now)
            (dict_step (state_over state (rules_in D.rules kinds.now.items) shelf.now self.old) name.now
            (View name.now viewed.now) (need_shown result)) result }
        ensures stays { KeepsSpent state D.rules shelf.now self.old kinds.now.items
            shelf.now self.new kinds.now.items }
    {
        show_names(&self.dicts);
        self.paths.show_invariant();
        let d = self.dicts[i].number;
        let Some(lower) = viewed else {
            self.paths.end(d);
            return Reply::Views(*name, None);
        };
        let Some(j) = self.dicts.get_index_of(lower) else {
            return Reply::Refused(Refusal::NoDictionary);
        };
        let e = self.dicts[j].number;
        match view_at(
            &mut self.homes,
            &mut self.dicts,
            kinds,
            &mut self.paths,
            d,
            e,
        ) {
            Ok(()) => Reply::Views(*name, Some(*lower)),
            Err(fault) => Reply::Refused(refusal_of(fault)),
        }
    }

    // The same by a command that sets what the dictionary views. It stands apart as the commands on the shelf do.
    #[inline(never)]
    pub(crate) fn view_by(
        &mut self,
        shelf: &Shelf,
        kinds: &Vec<D>,
        name: &Name,
        i: usize,
        command: &Command,
        reply: &mut Reply,
    )
        requires at { HasDictAt state D.rules shelf.now self.old kinds.now.items name.now i }
        requires command { target_of command.now ≡ Dict name.now Work.View }
        ensures steps { Steps
            (moment state D.rules D.gone shelf.now self.old kinds.now.items)
            (moment state D.rules D.gone shelf.now self.new kinds.now.items)
            command.now
            (dict_step (state_over state (rules_in D.rules kinds.now.items) shelf.now self.old) name.now
            command.now (need_shown reply.new)) reply.new }
        ensures stays { KeepsSpent state D.rules shelf.now self.old kinds.now.items
            shelf.now self.new kinds.now.items }
    {
        match command {
            Command::View(_, viewed) => *reply = self.view_named(shelf, kinds, name, i, viewed),
            _ => unreachable!(),
        }
    }

    // Runs a command that looks through the path of the dictionary of that name and index, from 0 on.
    pub(crate) fn look_at(
        &mut self,
        shelf: &Shelf,
        kinds: &Vec<D>,
        name: &Name,
        i: usize,
        command: &Command,
        reply: &mut Reply,
    ) -> Result<(), OutOfMemory>
        requires at { HasDictAt state D.rules shelf.now self.old kinds.now.items name.now i }
        requires name { dict_of command.now ≡ Some name.now }
        requires look { is_look command.now ≡ true }
        ensures { RunsOn state D.rules D.gone shelf.now self.old kinds.now.items
            self.new kinds.now.items name.now command.now (answered result reply.new) }
    {
        show_names(&self.dicts);
        self.last_dict = i;
        vc_views::look_at(
            self.alloc,
            &mut self.homes,
            self.last_region,
            &mut self.dicts,
            kinds,
            &self.paths,
            i,
            command,
            reply,
        )
    }
}
