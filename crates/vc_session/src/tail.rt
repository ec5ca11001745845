ghost use Rattle.std.specs.Prelude.{◌≡◌, [], ◌∷◌, ◌++◌, decimal, length, map, OnOk};
ghost use Rattle.vc_commands.specs.Held.{home_of};
ghost use Rattle.vc_region.specs.Parts.{region_of};
ghost use Rattle.vc_region.specs.Stat.{stat_of};
ghost use Rattle.vc_session.specs.Text.{is_quiet, lines_text, numbers_text, stats_by, summary_by, tail_lines};
ghost use Rattle.vc_steps.specs.Homes.{held_in_session};

use itoa::Buffer;
use std::alloc::{AllocError, Global};
use vc_base::{Name, OutOfMemory};
use vc_commands::HomeEntry;
use vc_counts::Counts;
use vc_script::{Reply, print_reply};
use vc_seg::{BoxedDisc, SegDisc};
use vc_steps::Session;
use vc_words::Words;

// Whether replies are left out but for refused segments.
pub(crate) fn is_quiet(words: &Words) -> bool
    ensures { result ≡ is_quiet words.now }
{
    words.quiet || words.generate.is_some()
}

// Puts a text and a number behind what is gathered.
fn put_number(gathered: &mut Vec<u8>, label: &[u8], n: u128) -> Result<(), AllocError>
    ensures { OnOk result (gathered.new.items
        ≡ gathered.old.items ++ (label.now ++ decimal n)) }
{
    let mut buffer = Buffer::new();
    gathered.extend_from_slice(label)?;
    gathered.extend_from_slice(buffer.format(n).as_bytes())
}

// Puts the five lines of a quiet run of so many lines behind what is gathered; of any other run none.
fn gather_summary(
    quiet: bool,
    lines: u32,
    counts: &Counts,
    gathered: &mut Vec<u8>,
) -> Result<(), OutOfMemory>
    ensures { OnOk result (gathered.new.items
        ≡ gathered.old.items ++ lines_text (summary_by quiet lines counts.now)) }
{
    if !quiet {
        return Ok(());
    }
    put_number(gathered, b"lines ", u128::from(lines))?;
    put_number(gathered, b"\ndone ", u128::from(counts.done))?;
    put_number(gathered, b"\nrefused ", u128::from(counts.refused))?;
    put_number(gathered, b"\nlent ", u128::from(counts.segments))?;
    put_number(gathered, b" ", counts.bytes)?;
    put_number(gathered, b"\npeak ", counts.peak)?;
    gathered.push(b'\n')?;
    Ok(())
}

// Puts the line of a region's numbers behind what is gathered.
fn gather_stat(
    alloc: Global,
    name: &Name,
    home: &HomeEntry,
    gathered: &mut Vec<u8>,
) -> Result<(), OutOfMemory>
    ensures { OnOk result (gathered.new.items ≡ gathered.old.items
        ++ (numbers_text name.now (stat_of (region_of home.now.region)) ++ 10 ∷ [])) }
{
    let stat = print_reply(alloc, &Reply::Stats(home.region.stat()))?;
    gathered.extend_from_slice(b"stat ")?;
    gathered.extend_from_slice(name.bytes())?;
    gathered.push(b' ')?;
    gathered.extend_from_slice(stat.as_slice())?;
    Ok(())
}

// Puts a line for each open region behind what is gathered, in order of opening, where they are asked for.
fn gather_stats<D>(
    alloc: Global,
    asked: bool,
    session: &Session<D>,
    gathered: &mut Vec<u8>,
) -> Result<(), OutOfMemory>
    requires { length session.now.labels.items ≡ length session.now.homes.entries }
    ensures { OnOk result (gathered.new.items ≡ gathered.old.items
        ++ lines_text (stats_by asked (map home_of (held_in_session state session.now)))) }
{
    if !asked {
        return Ok(());
    }
    for i in 0..session.homes.len() {
        match session.homes.get_index(i) {
            Some((name, home)) => gather_stat(alloc, name, home, gathered)?,
            None => return Ok(()),
        }
    }
    Ok(())
}

// Gathers what stands behind the replies of a run of so many lines, by the words: what was counted, and the numbers of
// the open regions.
pub(crate) fn gather_tail<D>(
    alloc: Global,
    words: &Words,
    lines: u32,
    counts: &Counts,
    session: &Session<D>,
    gathered: &mut Vec<u8>,
) -> Result<(), OutOfMemory>
    requires { length session.now.labels.items ≡ length session.now.homes.entries }
    ensures { OnOk result (gathered.new.items ≡ gathered.old.items ++ lines_text
        (tail_lines words.now lines counts.now (map home_of (held_in_session state session.now)))) }
{
    gather_summary(is_quiet(words), lines, counts, gathered)?;
    gather_stats(alloc, words.stat, session, gathered)
}
