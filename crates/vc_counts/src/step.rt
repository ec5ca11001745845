ghost use Rattle.std.specs.Prelude.{◌≡◌, ◌-◌, ◌<◌, ◌^◌, ◌≤◌, bytes_eq, length};
ghost use Rattle.std.specs.List.{IsDistinct};
ghost use Rattle.std.specs.Map.{keys_of};
ghost use Rattle.vc_commands.specs.Answered.{answered};
ghost use Rattle.vc_counts.specs.CanCount.{CanCount};
ghost use Rattle.vc_counts.specs.Counting.{CountsStep, IsCountSpentBy};
ghost use Rattle.vc_counts.specs.Counts.{live_bytes};
ghost use Rattle.vc_counts.specs.Holders.{AreSomeDicts};
ghost use Rattle.vc_counts.specs.Working.{busy_in_home, dict_in, open_state, reached_at, region_worked, segments_at, table_at_home, tally_behind, worked_in};
ghost use Rattle.vc_dict.specs.Stands.{slots_in, table_in};
ghost use Rattle.vc_objects.specs.Objects.{slots_of, table_size};
ghost use Rattle.vc_objects.specs.Parts.{table_of};
ghost use Rattle.vc_script.specs.Needs.{is_refusal};
ghost use Rattle.vc_script.specs.Target.{target_of};
ghost use Rattle.vc_steps.specs.Homes.{IsSessionOver, held_in_session, state_over};
ghost use Rattle.vc_steps.specs.Sizes.{AreNamed};
ghost use Rattle.vc_steps.specs.State.{home_named};
ghost use Rattle.vc_steps.specs.Steps.{RunsOver};
ghost use Rattle.vc_steps.specs.Told.{rules_in};
ghost use Rattle.vc_views.specs.Views.{dict_named};

use crate::counts::Counts;
use crate::holders::holders_bytes;
use crate::reach::{Reach, freed_by, put_by, reach_of};
use indexmap::IndexMap;
use vc_base::{Name, OutOfMemory};
use vc_dict::Dict;
use vc_dtdisc::DictDisc;
use vc_script::{Command, Reply, Target};
use vc_seg::{BoxedDisc, SegDisc, Shelf, Tally};
use vc_steps::{DictEntry, HomeEntry, Session};

// What is always true of the names of regions, and of those of dictionaries: no two are alike.
fn show_names(homes: &IndexMap<Name, HomeEntry>, dicts: &IndexMap<Name, DictEntry>)
    ensures homes { IsDistinct bytes_eq (keys_of homes.now.entries) }
    ensures dicts { IsDistinct bytes_eq (keys_of dicts.now.entries) }
{
    let _regions = homes.len();
    let _dictionaries = dicts.len();
}

// The region that a command on the shelf names: the one in which it opens a dictionary, or that it closes.
fn worked_on_shelf(command: &Command) -> Option<Name>
    requires { target_of command.now ≡ Target.Shelf }
    ensures { result ≡ worked_in command.now }
{
    match command {
        Command::OpenDict(_, _, region, _) | Command::CloseRegion(region) => Some(*region),
        _ => None,
    }
}

// The region that a command works in, which is that of its dictionary where it names one.
fn region_worked<D>(session: &Session<D>, command: &Command) -> Option<Name>
    ensures { result ≡ region_worked (open_state state session.now) command.now }
{
    match command.target() {
        Target::Shelf => worked_on_shelf(command),
        Target::Region(name) => Some(name),
        Target::Dict(name, _) => match session.dict_index(&name) {
            Some(i) => Some(session.dicts[i].home),
            None => None,
        },
    }
}

// The bytes of all blocks of the region of that name, where it is open.
fn busy_named<D>(session: &Session<D>, name: &Name) -> u64
    requires { length session.now.labels.items ≡ length session.now.homes.entries }
    ensures { result ≡ busy_in_home (home_named name.now (open_state state session.now).homes) }
{
    match session.region_index(name) {
        Some(i) => session.homes[i].region.stat().sbusy,
        None => 0,
    }
}

// The bytes of a dictionary's table, or 0 where it has none.
fn table_bytes(dict: &Dict) -> u64
    ensures bytes { result ≡ table_size (slots_of (table_of (table_in dict.now).0 (slots_in dict.now))) }
    ensures few { result < 2 ^ 35 }
{
    if dict.table().is_none() {
        0
    } else {
        8 * dict.slots() as u64
    }
}

// Those of the table of the dictionary of that name, where it is open.
fn table_named<D>(session: &Session<D>, name: &Name) -> u64
    ensures { result ≡ table_at_home (dict_named name.now (open_state state session.now).dicts) }
{
    match session.dict_index(name) {
        Some(i) => table_bytes(&session.dicts[i].dict),
        None => 0,
    }
}

// The bytes of the table and of the holders of the dictionary of that name, where it is open.
fn dict_named<D>(session: &Session<D>, name: &Name) -> u64
    requires labels { length session.now.labels.items ≡ length session.now.homes.entries }
    requires dicts { AreSomeDicts (held_in_session state session.now) session.now.dicts.entries }
    ensures { result ≡ dict_in (dict_named name.now (open_state state session.now).dicts) }
{
    match session.dicts.get(name) {
        Some(entry) => table_bytes(&entry.dict) + holders_bytes(&session.homes, entry),
        None => 0,
    }
}

// The bytes of what a command reaches in a region, but for a holder that its reply tells of.
fn reached_at<D>(session: &Session<D>, reach: &Reach, region: &Option<Name>) -> u64
    requires labels { length session.now.labels.items ≡ length session.now.homes.entries }
    requires names { AreNamed (held_in_session state session.now) }
    requires dicts { AreSomeDicts (held_in_session state session.now) session.now.dicts.entries }
    ensures { result ≡ reached_at reach.now region.now
        (open_state state session.now).homes (open_state state session.now).dicts }
{
    match reach {
        Reach::Nothing => 0,
        Reach::Block(block) => match region {
            Some(name) => session.size_named(name, block) as u64,
            None => 0,
        },
        Reach::Table(dict) => table_named(session, dict),
        Reach::Dict(dict) => dict_named(session, dict),
        Reach::All => match region {
            Some(name) => busy_named(session, name),
            None => 0,
        },
    }
}

// The place of the last segment of the region of that name, from 0 on, and the segments from it on, in order of lending:
// place 0 and none, where it has none or isn't open.
fn last_tally<D>(session: &Session<D>, region: &Option<Name>) -> (usize, Tally)
    requires { length session.now.labels.items ≡ length session.now.homes.entries }
    ensures place { result.0
        ≡ length (segments_at region.now (open_state state session.now).homes) - 1 }
    ensures value { result.1 ≡ tally_behind result.0
        (segments_at region.now (open_state state session.now).homes) }
{
    let Some(name) = region else {
        return (0, Tally::new());
    };
    match session.region_index(name) {
        Some(i) => {
            let open = &session.homes[i].region;
            let from = open.segment_count().saturating_sub(1);
            (from, open.tally_behind(from))
        }
        None => (0, Tally::new()),
    }
}

// The segments behind the first ones, in order of lending: none where there are no more than these.
fn tally_behind_at<D>(session: &Session<D>, region: &Option<Name>, first: usize) -> Tally
    requires { length session.now.labels.items ≡ length session.now.homes.entries }
    ensures value { result ≡ tally_behind first
        (segments_at region.now (open_state state session.now).homes) }
    ensures few { result.count ≤ 1023 }
{
    let Some(name) = region else {
        return Tally::new();
    };
    match session.region_index(name) {
        Some(i) => session.homes[i].region.tally_behind(first),
        None => Tally::new(),
    }
}

fn is_refusal(reply: &Reply) -> bool
    ensures { result ≡ is_refusal reply.now }
{
    matches!(reply, Reply::Refused(_))
}

/// Runs the command of a line, numbered from 1 on, as `Session::step_into` does, and counts it. Each line stands behind those
/// of the commands before it. Before it and after it are read its region's segments from the last one on, and of the
/// region's blocks those that it may put, resize or free: the one that it names, or the table of its dictionary, and its reply tells of a
/// holder. Where it empties, turns or ends a dictionary all blocks of that are read, and all of the region where it clears
/// or closes the region.
/// With no memory nothing is counted, and every later step answers `OutOfMemory` as well.
pub fn counted_step<D: DictDisc>(
    session: &mut Session<D>,
    shelf: &mut Shelf,
    kinds: &mut Vec<D>,
    line: u32,
    command: &Command,
    counts: &mut Counts,
    reply: &mut Reply,
) -> Result<(), OutOfMemory>
    requires session { IsSessionOver state D.rules shelf.old session.old kinds.old.items }
    requires counts { CanCount counts.old (live_bytes
        (state_over state (rules_in D.rules kinds.old.items) shelf.old session.old)) line }
    ensures runs { RunsOver state D.rules D.gone shelf.old session.old kinds.old.items
        shelf.new session.new kinds.new.items
        (λ now next. CountsStep (answered result reply.new) now next line command.now
        counts.old counts.new) }
    ensures spent { IsCountSpentBy result session.old.is_spent session.new.is_spent }
{
    show_names(&session.homes, &session.dicts);
    let reach = reach_of(command);
    let region = region_worked(session, command);
    let (from, last) = last_tally(session, &region);
    let held = reached_at(session, &reach, &region);
    session.step_into(shelf, kinds, line, command, reply)?;
    let before = held as u128 + freed_by(&reach, reply) as u128;
    let holds = reached_at(session, &reach, &region);
    let after = holds as u128 + put_by(&reach, reply) as u128;
    let now = tally_behind_at(session, &region, from);
    counts.add(is_refusal(reply), before, after, last, now);
    Ok(())
}
