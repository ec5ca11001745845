ghost use Rattle.std.specs.Prelude.{◌≡◌, ◌<◌, ◌&&◌, [], IfSome, length, nat_le, slice_get};
ghost use Rattle.vc_region.specs.Cells.{rest_in};
ghost use Rattle.vc_region.specs.Region.{is_best};
ghost use Rattle.vc_script.specs.declared.command.Command.TheVariants.{OpenDict};
ghost use Rattle.vc_commands.specs.Held.{home_of};
ghost use Rattle.vc_steps.specs.Account.{state_of};
ghost use Rattle.vc_steps.specs.Dicts.{dict_refused, open_dict_step};
ghost use Rattle.vc_steps.specs.DictHomes.{dicts_in};
ghost use Rattle.vc_views.specs.Numbers.{views_by};
ghost use Rattle.vc_steps.specs.Homes.{IsSessionOver, held_in_session};
ghost use Rattle.vc_steps.specs.Moment.{moment};
ghost use Rattle.vc_steps.specs.Table.{TellsTable};
ghost use Rattle.vc_steps.specs.Steps.{KeepsSpent, StepsBy};
ghost use Rattle.vc_steps.specs.Told.{rules_in};

use crate::session::Session;
use vc_base::{DictMethod, Name, OutOfMemory};
use vc_commands::DictEntry;
use vc_dtdisc::DictDisc;
use vc_objects::open;
use vc_region::Region;
use vc_script::{Refusal, Reply};
use vc_seg::{BoxedDisc, RegionFault, SegDisc, Shelf};
use vc_views::free_number;

// A session has at most so many dictionaries at once.
const DICT_LIMIT: usize = 256;

// Whether a region is a best one.
fn is_best(region: &Region) -> bool
    ensures { result ≡ is_best (rest_in region.now) }
{
    matches!(region, Region::Best(_))
}

// Whether there is a kind of that number, from 1 on, among so many.
fn is_kind(kind: u32, count: usize) -> bool
    ensures { result ≡ (nat_le 1 kind && nat_le kind count) }
{
    1 <= kind && kind as usize <= count
}

// The answer where no table is put.
fn table_refused(fault: RegionFault) -> Result<Reply, OutOfMemory>
    ensures { TellsTable fault result }
{
    match fault {
        RegionFault::OutOfMemory => Err(OutOfMemory),
        RegionFault::NoSegment => Ok(Reply::Refused(Refusal::NoSegmentForTable)),
        _ => Ok(Reply::Refused(Refusal::TooManySegments)),
    }
}

impl<D: DictDisc> Session<D> {
    // Why no dictionary is opened in the region of that index, before its table is asked for.
    fn dict_refused(&self, kinds: &Vec<D>, name: &Name, j: usize, kind: u32) -> Option<Refusal>
        requires named { length self.now.labels.items ≡ length self.now.homes.entries }
        requires within { j < length self.now.homes.entries }
        ensures { IfSome (slice_get (held_in_session state self.now) j) (λ h. result ≡ dict_refused
            (state_of (rules_in D.rules kinds.now.items) [] (held_in_session state self.now)
            (dicts_in (held_in_session state self.now)
            (views_by self.now.paths self.now.dicts.entries) self.now.dicts.entries)) (home_of h) name.now kind) }
    {
        if self.dicts.contains_key(name) {
            return Some(Refusal::DictionaryExists);
        }
        if !is_kind(kind, kinds.len()) {
            return Some(Refusal::NoSuchKind);
        }
        if !is_best(&self.homes[j].region) {
            return Some(Refusal::WrongMethod);
        }
        if self.dicts.len() >= DICT_LIMIT {
            return Some(Refusal::TooManyDictionaries);
        }
        None
    }

    // Opens a dictionary of a method in the region of that name, by the kind of that number.
    pub(crate) fn open_dict(
        &mut self,
        shelf: &Shelf,
        kinds: &Vec<D>,
        name: Name,
        method: DictMethod,
        region: Name,
        kind: u32,
    ) -> Result<Reply, OutOfMemory>
        requires session { IsSessionOver state D.rules shelf.now self.old kinds.now.items }
        ensures steps { StepsBy result
            (moment state D.rules D.gone shelf.now self.old kinds.now.items)
            (moment state D.rules D.gone shelf.now self.new kinds.now.items)
            (OpenDict name method region kind)
            (λ s. open_dict_step s name method region kind) }
        ensures stays { KeepsSpent state D.rules shelf.now self.old kinds.now.items
            shelf.now self.new kinds.now.items }
    {
        let Some(j) = self.homes.get_index_of(&region) else {
            return Ok(Reply::Refused(Refusal::NoRegion));
        };
        if let Some(why) = self.dict_refused(kinds, &name, j, kind) {
            return Ok(Reply::Refused(why));
        }
        self.dicts.reserve(1)?;
        let number = free_number(&self.dicts);
        let Region::Best(best) = &mut self.homes[j].region else {
            unreachable!()
        };
        match open(best, method, kind, &kinds[kind as usize - 1]) {
            Ok(dict) => {
                // There is room, so this takes no memory and cannot fail.
                let _ = self.dicts.insert(
                    name,
                    DictEntry {
                        home: region,
                        number,
                        dict,
                    },
                );
                Ok(Reply::Opened(name))
            }
            Err(fault) => table_refused(fault),
        }
    }
}
