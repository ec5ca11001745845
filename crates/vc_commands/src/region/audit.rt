ghost use Rattle.std.specs.Prelude.{◌≡◌, ℕ, ℤ, List, [], ◌++◌, option_map, None, true, IfOk, OnOk};
ghost use Rattle.std.specs.List.{cons_option, filter_map};
ghost use Rattle.vc_base.specs.Prelude.{HasOut, NoneRefused};
ghost use Rattle.vc_region.specs.Cells.{rest_in};
ghost use Rattle.vc_region.specs.Parts.{disc_in};
ghost use Rattle.vc_region.specs.Region.{damaged_in, is_debug, is_profile, region_with_labels, rows_in, segments_of};
ghost use Rattle.vc_commands.specs.Held.{AreLabelsOf, home_of};
ghost use Rattle.vc_commands.specs.Audit.{check_in, damage_item, is_poke, poke_in, profile_in, watch_in};
ghost use Rattle.vc_commands.specs.Labels.{name_of_tag};
ghost use Rattle.vc_commands.specs.Home.{reply_alone};

use crate::region::blocks::no_block;
use crate::region::home::{HomeEntry, find_block};
use crate::region::labels::Labels;
use crate::region::marks::{is_debug, is_profile};
use std::alloc::Global;
use vc_base::{Addr, Name, OutOfMemory};
use vc_region::Region;
use vc_script::{DamageItems, Refusal, Reply, RowItems};
use vc_seg::{BoxedDisc, ProfileRow, SegDisc};

// Whether a byte can be put at that offset of a block of that size: in its bytes or its guards.
fn is_poke(size: u32, off: i64, byte: u32) -> bool
    ensures { result ≡ is_poke size off byte }
{
    -32 <= off && off < size as i64 + 16 && byte <= 255
}

// Adds a damaged block, where it has a name.
fn push_damage(
    items: &mut Vec<(Name, i64)>,
    name: Option<Name>,
    off: i64,
) -> Result<(), OutOfMemory>
    ensures { OnOk result (items.new.items ≡ items.old.items
        ++ cons_option (option_map {U = List ℕ × ℤ} (λ x. (x, off)) name) []) }
{
    if let Some(x) = name {
        items.push((x, off))?;
    }
    Ok(())
}

// The damaged blocks of a debug region by address, those that have a name.
fn damage_items(
    region: &Region,
    labels: &Labels,
    alloc: Global,
) -> Result<Vec<(Name, i64)>, OutOfMemory>
    requires method { is_debug (rest_in region.now) ≡ true }
    ensures { IfOk result (λ v. v.items ≡ filter_map damage_item
        (damaged_in (region_with_labels (name_of_tag labels.now) (rest_in region.now)))) }
{
    let mut items = Vec::new(alloc);
    let mut after = Addr::NONE;
    while let Some((block, off)) = region.check(after) {
        push_damage(&mut items, labels.name(region.tag(block)), off)?;
        after = block;
    }
    Ok(items)
}

// The rows of a profile region. Where there are more than a u32 counts, the answer is OutOfMemory, too.
fn row_items(region: &Region, alloc: Global) -> Result<Vec<ProfileRow>, OutOfMemory>
    requires { is_profile (rest_in region.now) ≡ true }
    ensures { IfOk result (λ v. v.items ≡ rows_in (rest_in region.now)) }
{
    let mut items = Vec::new(alloc);
    let mut i = 0u32;
    while let Some(row) = region.row(i) {
        items.push(row)?;
        if i == u32::MAX {
            return Err(OutOfMemory);
        }
        i += 1;
    }
    Ok(items)
}

impl HomeEntry {
    ghost use Rattle.vc_commands.specs.RegionRun.{ChangesRegion, RunsHome, RunsRegion, held_of, region_with};
    ghost use Rattle.vc_commands.specs.declared.region.labels.Labels.{Labels};

    // Puts one byte into a block or its guards, in a debug region.
    pub(crate) fn poke(&mut self, labels: &Labels, name: &Name, off: i64, byte: u32) -> Reply
        requires names { AreLabelsOf (rest_in self.old.region) labels.now }
        requires lent { HasOut (disc_in state self.old.region)
            (segments_of (rest_in self.old.region)) }

        ensures step { RunsRegion state
            (λ h. poke_in h name.now off byte)
            self.old labels.now (region_with self.new labels.now) result }
        ensures change { ChangesRegion state
            self.old labels.now self.new labels.now }
        ensures granted { result ≡ Reply.Refused Refusal.NoSegment → ⊥ }
        ensures served { NoneRefused (disc_in state self.old.region)
            (disc_in state self.new.region) }
    {
        let Some(at) = find_block(&self.region, labels, name) else {
            return Reply::Refused(no_block(labels, name));
        };
        if !is_debug(&self.region) {
            return Reply::Refused(Refusal::WrongMethod);
        }
        if !is_poke(self.region.size(at), off, byte) {
            return Reply::Refused(Refusal::Range);
        }
        let watch = self.region.watched(at);
        self.region.poke(at, off, byte as u8);
        Reply::Poked(*name, watch)
    }

    // Watches a block with a line, in a debug region.
    pub(crate) fn watch(
        &mut self,
        labels: &Labels,
        name: &Name,
        line: u32,
    ) -> Result<Reply, OutOfMemory>
        requires names { AreLabelsOf (rest_in self.old.region) labels.now }
        requires lent { HasOut (disc_in state self.old.region)
            (segments_of (rest_in self.old.region)) }

        ensures runs { RunsHome state result (λ h need. watch_in h line name.now) None
            self.old labels.now self.new labels.now }
        ensures change { ChangesRegion state self.old labels.now self.new labels.now }
    {
        let Some(at) = find_block(&self.region, labels, name) else {
            return Ok(Reply::Refused(no_block(labels, name)));
        };
        if !is_debug(&self.region) {
            return Ok(Reply::Refused(Refusal::WrongMethod));
        }
        self.region.watch(at, line)?;
        Ok(Reply::Watched(*name))
    }

    // Lists the damaged blocks by address, in a debug region.
    pub(crate) fn check(&self, labels: &Labels, alloc: Global) -> Result<Reply, OutOfMemory>
        requires names { AreLabelsOf (rest_in self.now.region) labels.now }
        ensures { IfOk result (λ reply. (r : List ℕ)
            → check_in (home_of (held_of state r self.now labels.now))
            ≡ reply_alone (home_of (held_of state r self.now labels.now)) reply) }
    {
        if !is_debug(&self.region) {
            return Ok(Reply::Refused(Refusal::WrongMethod));
        }
        Ok(Reply::Damaged(DamageItems::from_vec(damage_items(&self.region, labels, alloc)?)))
    }

    // Lists the counts of each site, in a profile region.
    pub(crate) fn profile(&self, alloc: Global) -> Result<Reply, OutOfMemory>
        ensures { IfOk result (λ reply. (labels : Labels) (r : List ℕ)
            → profile_in (home_of (held_of state r self.now labels))
            ≡ reply_alone (home_of (held_of state r self.now labels)) reply) }
    {
        if !is_profile(&self.region) {
            return Ok(Reply::Refused(Refusal::WrongMethod));
        }
        Ok(Reply::Rows(RowItems::from_vec(row_items(&self.region, alloc)?)))
    }
}
