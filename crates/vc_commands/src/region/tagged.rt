ghost use Rattle.std.specs.Prelude.{◌≡◌, ℕ, ◌≤◌, [], IfOk, IfSome, OnOk, is_some, length, max, true};
ghost use Rattle.vc_region.specs.Cells.{rest_in};
ghost use Rattle.vc_region.specs.Region.{blocks_of, region_with_labels};
ghost use Rattle.vc_region.specs.declared.region.Region.TheVariants.{Best as OfBest};
ghost use Rattle.vc_commands.specs.Blocks.{label_limit};
ghost use Rattle.vc_commands.specs.Held.{AreLabelsOf};
ghost use Rattle.vc_commands.specs.FreedNames.{without_name};
ghost use Rattle.vc_commands.specs.Labels.{AreLabels, WithLabel, kept_of, name_of_tag, tag_of};
ghost use Rattle.vc_commands.specs.Tagged.{AreByTag, ArePlaces, PutsPlace, filled, have_own_tags, is_vacant, label_by_tag, name_by_tag, place_of_tag, text_by_tag};

use crate::region::blocks::LABEL_LIMIT;
use crate::region::labels::Labels;
use itoa::Buffer;
use std::alloc::Global;
use vc_base::{Addr, Name, OutOfMemory};
use vc_best::Best;

// Makes a list of places longer, so that a tag is in it.
fn make_room(places: &mut Vec<Option<Addr>>, tag: usize) -> Result<(), OutOfMemory>
    ensures length { OnOk result (length places.new.items ≡ max (length places.old.items) tag) }
    ensures same { OnOk result ((other : ℕ)
        → place_of_tag places.new.items other ≡ place_of_tag places.old.items other) }
{
    while places.len() < tag {
        places.push(None)?;
    }
    Ok(())
}

// Puts the place of a block at its tag. False where the tag is another's, or above the most labels. A block without a
// label has the tag 0, and needs no place.
fn put_place(places: &mut Vec<Option<Addr>>, tag: u32, at: Addr) -> Result<bool, OutOfMemory>
    requires { length places.old.items ≤ label_limit }
    ensures most { OnOk result (length places.new.items ≤ label_limit) }
    ensures vacant { IfOk result (λ put. put ≡ is_vacant places.old.items tag) }
    ensures puts { IfOk result (λ put. put ≡ true
        → PutsPlace places.old.items places.new.items tag at) }
{
    if tag == 0 {
        return Ok(true);
    }
    let tag = tag as usize;
    if tag > LABEL_LIMIT {
        return Ok(false);
    }
    make_room(places, tag)?;
    if places[tag - 1].is_some() {
        return Ok(false);
    }
    places[tag - 1] = Some(at);
    Ok(true)
}

// Where the block of each tag stands. None where two blocks have one tag, or one is above the most labels.
fn places_by_tag(alloc: Global, best: &Best) -> Result<Option<Vec<Option<Addr>>>, OutOfMemory>
    ensures own { IfOk result (λ o. is_some o ≡ have_own_tags (blocks_of (rest_in (OfBest best.now)))) }
    ensures places { IfOk result (λ o. IfSome o
        (λ places. ArePlaces (blocks_of (rest_in (OfBest best.now))) places.items)) }
{
    let mut places = Vec::new(alloc);
    let mut after = Addr::NONE;
    while let Some(block) = best.next_block(after) {
        if !put_place(&mut places, best.tag(block), block)? {
            return Ok(None);
        }
        after = block;
    }
    Ok(Some(places))
}

// The name of a block of that tag.
fn name_by_tag(tag: u32) -> Name
    ensures { result ≡ text_by_tag tag }
{
    let mut buffer = Buffer::new();
    let digits = buffer.format(tag).as_bytes();
    let mut text = [b'b'; 11];
    let end = 1 + digits.len();
    text[1..end].copy_from_slice(digits);
    Name::new(&text[..end])
}

// Puts a block under the name of a tag, where that is the tag that the next block gets.
fn put_label(labels: &mut Labels, tag: u32, at: Addr) -> Result<(), OutOfMemory>
    requires agree { AreLabels labels.old }
    requires new { tag_of labels.old (text_by_tag tag) ≡ None }
    ensures agree { AreLabels labels.new }
    ensures with { OnOk result (WithLabel labels.old labels.new tag (label_by_tag tag at)) }
    ensures kept { OnOk result (kept_of labels.new
        ≡ without_name (text_by_tag tag) (kept_of labels.old)) }
{
    if labels.reserve()? != tag {
        // Tags are given out from 1 on while no block goes, so this never comes.
        return Err(OutOfMemory);
    }
    labels.insert(name_by_tag(tag), at);
    Ok(())
}

// Labels for each tag of a list of places, also for those at which no block stands.
fn fill_labels(alloc: Global, places: &[Option<Addr>]) -> Result<Labels, OutOfMemory>
    requires { length places.now ≤ label_limit }
    ensures { IfOk result (λ labels. AreByTag (filled places.now) labels) }
{
    let mut labels = Labels::new(alloc);
    for key in 0..places.len() {
        put_label(
            &mut labels,
            key as u32 + 1,
            places[key].unwrap_or(Addr::NONE),
        )?;
    }
    Ok(labels)
}

// Takes out the labels at whose tags no block stands, the last one first, so that the next block gets the least tag.
fn empty_holes(labels: &mut Labels, places: &[Option<Addr>])
    requires most { length places.now ≤ label_limit }
    requires filled { AreByTag (filled places.now) labels.old }
    ensures { AreByTag (place_of_tag places.now) labels.new }
{
    let mut end = places.len();
    while end > 0 {
        if places[end - 1].is_none() {
            let _ = labels.remove(&name_by_tag(end as u32));
        }
        end -= 1;
    }
}

/// The labels of a best region whose blocks have tags and no names, as they have where it was loaded from an image: each
/// block is named by its tag, `b1` and so on, and no name is kept as freed. None where two blocks have one tag, or one is
/// above 1,000,000. Takes memory, and time, by the greatest tag; refused for want of memory alone. This project's own.
pub fn labels_by_tag(alloc: Global, best: &Best) -> Result<Option<Labels>, OutOfMemory>
    ensures own { IfOk result (λ o. is_some o
        ≡ have_own_tags (blocks_of (rest_in (OfBest best.now)))) }
    ensures named { IfOk result (λ o. IfSome o
        (λ labels. AreLabelsOf (rest_in (OfBest best.now)) labels)) }
    ensures names { IfOk result (λ o. IfSome o
        (λ labels. region_with_labels (name_of_tag labels) (rest_in (OfBest best.now))
        ≡ region_with_labels name_by_tag (rest_in (OfBest best.now)))) }
    ensures kept { IfOk result (λ o. IfSome o (λ labels. kept_of labels ≡ [])) }
{
    let Some(places) = places_by_tag(alloc, best)? else {
        return Ok(None);
    };
    let mut labels = fill_labels(alloc, &places)?;
    empty_holes(&mut labels, &places);
    Ok(Some(labels))
}
