ghost use Rattle.std.specs.Prelude.{◌≡◌, ◌⊎◌, ◌==◌, ◌&&◌, [], List, None, Some, false, IfOk, IfSome, OnErr, OnOk, IsTrue};
ghost use Rattle.vc_dtdisc.specs.Rules.{Gone, Rules};
ghost use Rattle.vc_commands.specs.Answered.{answered};
ghost use Rattle.vc_script.specs.Target.{target_of};
ghost use Rattle.vc_script.specs.declared.target.Target.TheVariants.{Dict};
ghost use Rattle.vc_script.specs.declared.target.Work.TheVariants.{Own};
ghost use Rattle.vc_steps.specs.Account.{ArmsNone};
ghost use Rattle.vc_steps.specs.Arms.{ArmsAll};
ghost use Rattle.vc_steps.specs.Homes.{HoldsDicts, HoldsRegions, IsSessionOver, KeepsRegions, StandsOverAny, accounts_on, settled_over, slots_on, state_over};
ghost use Rattle.vc_steps.specs.DictHomes.{lies_in};
ghost use Rattle.vc_steps.specs.Dicts.{dict_of};
ghost use Rattle.vc_paths.specs.Links.{no_links};
ghost use Rattle.vc_steps.specs.Moment.{moment, moment_by};
ghost use Rattle.vc_steps.specs.Step.{is_clear, region_of_command, shelf_step, step, step_of};
ghost use Rattle.vc_steps.specs.Steps.{Lasts, KeepsSpent, StepsBy};
ghost use Rattle.vc_steps.specs.Told.{KeepRules, ended_told, gone_in, rules_in, tell};

use crate::arming::arm;
use indexmap::IndexMap;
use std::alloc::Global;
use std::marker::PhantomData;
use vc_base::{Name, OutOfMemory};
use vc_commands::{DictEntry, HomeEntry, Labels, put_answer};
use vc_dict::Paths;
use vc_dtdisc::DictDisc;
use vc_script::{Command, Refusal, Reply, Target, Tool, Work};
use vc_seg::{BoxedDisc, SegDisc, Shelf};
use vc_views::end_views;

/// The regions and dictionaries that a script has open, over a shelf and kinds. A step runs one command; at the end every
/// dictionary is shut and every region closed.
pub struct Session<D> {
    /// The open regions by name, in order of opening.
    pub homes: IndexMap<Name, HomeEntry>,
    /// The dictionaries by name, in order of opening.
    pub dicts: IndexMap<Name, DictEntry>,
    /// Which dictionary views which, by their numbers.
    pub paths: Paths,
    // The names of the blocks of each, in the same order.
    pub(crate) labels: Vec<Labels>,
    pub(crate) alloc: Global,
    pub(crate) is_spent: bool,
    // Whether it arms the disciplines of its regions.
    pub(crate) is_armed: bool,
    // The indices of the region and of the dictionary that a command worked on last: each may hold another one by now, or
    // none.
    pub(crate) last_region: usize,
    pub(crate) last_dict: usize,
    kind: PhantomData<D>,
}

impl<D> Drop for Session<D> {
    fn drop(self) {
        let Self {
            homes: _,
            dicts: _,
            paths: _,
            labels: _,
            alloc: _,
            is_spent: _,
            is_armed: _,
            last_region: _,
            last_dict: _,
            kind: _,
        } = self;
    }
}

// The name of the dictionary that a command works on, where that is on its own objects.
#[inline(always)]
fn own_dict(command: &Command) -> Option<&Name>
    ensures { IfSome result (λ name. target_of command.now ≡ Dict name.now Own) }
{
    match command {
        Command::Insert(name, _)
        | Command::Append(name, _)
        | Command::Attach(name, _)
        | Command::Delete(name, _)
        | Command::Detach(name, _)
        | Command::Count(name)
        | Command::Empty(name) => Some(name),
        _ => None,
    }
}

impl<D: DictDisc> Session<D> {
    /// A session with no region, for a tool's commands. It stands over any shelf and any kinds.
    pub fn new(alloc: Global, tool: Tool) -> Result<Session<D>, OutOfMemory>
        ensures none { IfOk result (λ s. (s.homes.entries ≡ []) × (s.labels.items ≡ [])
            × (s.dicts.entries ≡ []) × (s.paths ≡ no_links)) }
        ensures stands { IfOk result (StandsOverAny state D.rules) }
        ensures memory { IfOk result (λ s. s.is_spent ≡ false) }
        ensures unarmed { IfOk result (λ s. s.is_armed ≡ false) }
    {
        Session::over(alloc, tool, IndexMap::new(alloc))
    }

    /// The same, over an empty table of regions that its caller makes. The prover takes a call from another crate that is
    /// given no discipline, and whose result could hold one, as making one; so functions that have a shelf call this one.
    pub fn over(
        alloc: Global,
        tool: Tool,
        homes: IndexMap<Name, HomeEntry>,
    ) -> Result<Session<D>, OutOfMemory>
        requires { homes.entries ≡ [] }
        ensures none { IfOk result (λ s. (s.homes.entries ≡ []) × (s.labels.items ≡ [])
            × (s.dicts.entries ≡ []) × (s.paths ≡ no_links)) }
        ensures stands { IfOk result (StandsOverAny state D.rules) }
        ensures memory { IfOk result (λ s. s.is_spent ≡ false) }
        ensures unarmed { IfOk result (λ s. s.is_armed ≡ false) }
    {
        let _ = tool;
        let paths = Paths::new(alloc)?;
        Ok(Session::of_parts(alloc, homes, Vec::new(alloc), IndexMap::new(alloc), paths))
    }

    /// A session with these regions open, the names of the blocks of each in the same order, these dictionaries and these
    /// view paths. It arms no discipline. That it stands over a shelf and kinds is for its caller to show.
    pub fn of_parts(
        alloc: Global,
        homes: IndexMap<Name, HomeEntry>,
        labels: Vec<Labels>,
        dicts: IndexMap<Name, DictEntry>,
        paths: Paths,
    ) -> Session<D>
        ensures homes { result.homes.entries ≡ homes.entries }
        ensures labels { result.labels.items ≡ labels.items }
        ensures dicts { result.dicts.entries ≡ dicts.entries }
        ensures paths { result.paths ≡ paths }
        ensures memory { result.is_spent ≡ false }
        ensures unarmed { result.is_armed ≡ false }
    {
        Session {
            homes,
            dicts,
            paths,
            labels,
            alloc,
            is_spent: false,
            is_armed: false,
            last_region: 0,
            last_dict: 0,
            kind: PhantomData,
        }
    }

    /// Takes the version of the script, 1 or 2, before the first step: in version 2 the disciplines of its regions are armed
    /// while these are open, so that one that refuses may make an exception. Regions may be open already: theirs are armed,
    /// or unarmed, as those of later ones are. A new session is for version 1.
    pub fn set_version(&mut self, version: u32)
        requires version { (version ≡ 1) ⊎ (version ≡ 2) }
        ensures { ArmsAll state (version == 2) self.old self.new }
    {
        let on = version == 2;
        self.is_armed = on;
        for i in 0..self.homes.len() {
            arm(&mut self.homes[i], on);
        }
    }

    /// Whether it arms the disciplines of its regions: in version 2.
    pub fn is_armed(&self) -> bool
        ensures { result ≡ self.now.is_armed }
    {
        self.is_armed
    }

    // Runs a command that works on no dictionary and in no region that is open. It stands apart, since a call clears room for
    // the replies of all its arms.
    #[inline(never)]
    fn run_on_shelf(
        &mut self,
        shelf: &mut Shelf,
        kinds: &Vec<D>,
        command: &Command,
        reply: &mut Reply,
    ) -> Result<(), OutOfMemory>
        requires session { IsSessionOver state D.rules shelf.old self.old kinds.now.items }
        requires dict { dict_of command.now ≡ None }
        requires region { region_of_command command.now ≡ None }
        ensures steps { StepsBy (answered result reply.new)
            (moment state D.rules D.gone shelf.old self.old kinds.now.items)
            (moment state D.rules D.gone shelf.new self.new kinds.now.items)
            command.now (λ s. shelf_step s command.now) }
        ensures stays { KeepsSpent state D.rules shelf.old self.old kinds.now.items
            shelf.new self.new kinds.now.items }
    {
        match command {
            Command::OpenRegion(name, method, n) => {
                put_answer(self.open_region(shelf, *name, *method, *n), reply)
            }
            Command::CloseRegion(name) => {
                *reply = self.close_named(shelf, name);
                Ok(())
            }
            Command::OpenDict(name, method, region, kind) => {
                put_answer(
                    self.open_dict(shelf, kinds, *name, *method, *region, *kind),
                    reply,
                )
            }
            _ => {
                *reply = Reply::Refused(Refusal::NoRegion);
                Ok(())
            }
        }
    }

    // Whether a command clears the region of that name, and a dictionary lies in it.
    fn clears_busy(&self, name: &Name, command: &Command) -> bool
        ensures { result ≡ (is_clear command.now && lies_in name.now self.now.dicts.entries) }
    {
        matches!(command, Command::ClearRegion(_)) && self.is_busy(name)
    }

    // Runs a command in the region of that name.
    fn run_in_region(
        &mut self,
        shelf: &Shelf,
        name: &Name,
        line: u32,
        command: &Command,
        reply: &mut Reply,
    ) -> Result<(), OutOfMemory>
        requires regions { HoldsRegions state shelf.now self.old }
        requires dict { dict_of command.now ≡ None }
        requires region { region_of_command command.now ≡ Some name.now }
        ensures steps { (kinds : List Rules) (gone : List Gone) → HoldsDicts state kinds self.old
            → StepsBy (answered result reply.new)
            (moment_by state kinds gone shelf.now self.old)
            (moment_by state kinds gone shelf.now self.new)
            command.now (λ s need. step_of s line command.now need (Some name.now)) }
        ensures regions { KeepsRegions state self.old shelf.now self.new }
    {
        let Some(i) = self.region_index(name) else {
            *reply = Reply::Refused(Refusal::NoRegion);
            return Ok(());
        };
        self.last_region = i;
        if self.clears_busy(name, command) {
            *reply = Reply::Refused(Refusal::Busy);
            return Ok(());
        }
        self.homes[i].run(self.alloc, &mut self.labels[i], line, command, reply)
    }

    // Runs one command where it works. With no memory the state stays, but that a table may have grown. It stands apart, since
    // it copies the name of that place.
    #[inline(never)]
    fn run_at_target(
        &mut self,
        shelf: &mut Shelf,
        kinds: &mut Vec<D>,
        line: u32,
        command: &Command,
        reply: &mut Reply,
    ) -> Result<(), OutOfMemory>
        requires { IsSessionOver state D.rules shelf.old self.old kinds.old.items }
        ensures steps { StepsBy (answered result reply.new)
            (moment state D.rules D.gone shelf.old self.old kinds.old.items)
            (moment state D.rules D.gone shelf.new self.new kinds.new.items)
            command.now (λ s. step s line command.now) }
        ensures stays { KeepsSpent state D.rules shelf.old self.old kinds.old.items
            shelf.new self.new kinds.new.items }
    {
        let target = command.target();
        match &target {
            Target::Shelf => self.run_on_shelf(shelf, kinds, command, reply),
            Target::Region(name) => self.run_in_region(shelf, name, line, command, reply),
            Target::Dict(name, work) => self.run_on_dict(shelf, kinds, name, *work, command, reply),
        }
    }

    // The same. Commands on a dictionary's own objects take no copy of its name.
    #[inline(always)]
    fn run_command(
        &mut self,
        shelf: &mut Shelf,
        kinds: &mut Vec<D>,
        line: u32,
        command: &Command,
        reply: &mut Reply,
    ) -> Result<(), OutOfMemory>
        requires { IsSessionOver state D.rules shelf.old self.old kinds.old.items }
        ensures steps { StepsBy (answered result reply.new)
            (moment state D.rules D.gone shelf.old self.old kinds.old.items)
            (moment state D.rules D.gone shelf.new self.new kinds.new.items)
            command.now (λ s. step s line command.now) }
        ensures stays { KeepsSpent state D.rules shelf.old self.old kinds.old.items
            shelf.new self.new kinds.new.items }
    {
        match own_dict(command) {
            Some(name) => self.run_on_dict(shelf, kinds, name, Work::Own, command, reply),
            None => self.run_at_target(shelf, kinds, line, command, reply),
        }
    }

    /// Runs the command of a line, numbered from 1 on, and answers its reply. A refusal changes nothing, save that the
    /// larger table of a set or bag stays where the holder of an object is refused. With no memory nothing changes, save
    /// that such a table may have grown, and every later step answers `OutOfMemory` as well.
    pub fn step(
        &mut self,
        shelf: &mut Shelf,
        kinds: &mut Vec<D>,
        line: u32,
        command: &Command,
    ) -> Result<Reply, OutOfMemory>
        requires { IsSessionOver state D.rules shelf.old self.old kinds.old.items }
        ensures steps { StepsBy result
            (moment state D.rules D.gone shelf.old self.old kinds.old.items)
            (moment state D.rules D.gone shelf.new self.new kinds.new.items)
            command.now (λ s. step s line command.now) }
        ensures lasts { Lasts state D.rules shelf.old self.old kinds.old.items
            shelf.new self.new kinds.new.items }
        ensures spent { IsTrue self.old.is_spent → OnOk result ⊥ }
        ensures stays_spent { OnErr result (IsTrue self.new.is_spent) }
        ensures not_spent { OnOk result (self.new.is_spent ≡ false) }
    {
        let mut reply = Reply::Nothing;
        self.step_into(shelf, kinds, line, command, &mut reply)?;
        Ok(reply)
    }

    /// The same, with the reply put in place of another one. Where memory is wanting any may stand there.
    #[inline(always)]
    pub fn step_into(
        &mut self,
        shelf: &mut Shelf,
        kinds: &mut Vec<D>,
        line: u32,
        command: &Command,
        reply: &mut Reply,
    ) -> Result<(), OutOfMemory>
        requires { IsSessionOver state D.rules shelf.old self.old kinds.old.items }
        ensures steps { StepsBy (answered result reply.new)
            (moment state D.rules D.gone shelf.old self.old kinds.old.items)
            (moment state D.rules D.gone shelf.new self.new kinds.new.items)
            command.now (λ s. step s line command.now) }
        ensures lasts { Lasts state D.rules shelf.old self.old kinds.old.items
            shelf.new self.new kinds.new.items }
        ensures spent { IsTrue self.old.is_spent → OnOk result ⊥ }
        ensures stays_spent { OnErr result (IsTrue self.new.is_spent) }
        ensures not_spent { OnOk result (self.new.is_spent ≡ false) }
    {
        if self.is_spent {
            return Err(OutOfMemory);
        }
        let ran = self.run_command(shelf, kinds, line, command, reply);
        if ran.is_err() {
            self.is_spent = true;
        }
        ran
    }

    // Closes every region of a session in which no dictionary is left, in order of opening.
    fn close_all(&mut self, shelf: &mut Shelf)
        requires session { HoldsRegions state shelf.old self.old }
        requires none { self.old.dicts.entries ≡ [] }
        ensures shelf { accounts_on state shelf.new ≡ settled_over state shelf.old self.old }
        ensures unarmed { ArmsNone (slots_on state shelf.old) (slots_on state shelf.new) }
    {
        while !self.homes.is_empty() {
            let _ = self.close_at(shelf, 0);
        }
    }

    /// Ends every view, shuts every dictionary and closes every region, and gives each discipline back unarmed to its place. It cannot fail. Both
    /// go in order of opening; the kinds are told of all objects, and each region gives its segments back in ascending order of number.
    pub fn end(self, shelf: &mut Shelf, kinds: &mut Vec<D>)
        requires { IsSessionOver state D.rules shelf.old self kinds.old.items }
        ensures shelf { accounts_on state shelf.new ≡ settled_over state shelf.old self }
        ensures gone { gone_in D.gone kinds.new.items ≡ tell
            (ended_told (state_over state (rules_in D.rules kinds.old.items) shelf.old self))
            (gone_in D.gone kinds.old.items) }
        ensures rules { KeepRules D.rules kinds.old.items kinds.new.items }
        ensures unarmed { ArmsNone (slots_on state shelf.old) (slots_on state shelf.new) }
    {
        let mut rest = self;
        end_views(&mut rest.paths);
        rest.shut_all(shelf, kinds);
        rest.close_all(shelf);
    }
}
