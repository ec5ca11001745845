ghost use Rattle.std.specs.Prelude.{◌≡◌, ℕ, List};
ghost use Rattle.vc_base.specs.Prelude.{HasOut, NoneRefused};
ghost use Rattle.vc_region.specs.Cells.{rest_in};
ghost use Rattle.vc_region.specs.Parts.{disc_in};
ghost use Rattle.vc_region.specs.Region.{segments_of};
ghost use Rattle.vc_commands.specs.Held.{AreLabelsOf, home_of};
ghost use Rattle.vc_commands.specs.Home.{changed_to};
ghost use Rattle.vc_commands.specs.Whole.{clear_in, compact_in};

use crate::region::home::HomeEntry;
use crate::region::labels::Labels;
use crate::region::marks::keeps_freed;
use vc_base::Name;
use vc_script::{Command, Reply};
use vc_seg::{BoxedDisc, SegDisc};

impl HomeEntry {
    ghost use Rattle.vc_commands.specs.RegionRun.{ChangesRegion, LeavesRegion, RunsRegion, held_of, region_with};
    ghost use Rattle.vc_commands.specs.declared.region.labels.Labels.{Labels};

    // Frees all blocks, at a line.
    pub(crate) fn clear(&mut self, labels: &mut Labels, name: Name, line: u32) -> Reply
        requires names { AreLabelsOf (rest_in self.old.region) labels.old }
        requires lent { HasOut (disc_in state self.old.region)
            (segments_of (rest_in self.old.region)) }

        ensures step { RunsRegion state (λ h. clear_in h name line)
            self.old labels.old (region_with self.new labels.new) result }
        ensures change { LeavesRegion state (Command.ClearRegion name)
            self.old labels.old self.new labels.new }
        ensures served { NoneRefused (disc_in state self.old.region)
            (disc_in state self.new.region) }
    {
        labels.clear(keeps_freed(&self.region), line);
        self.region.clear();
        Reply::Cleared(name)
    }

    // Gives back the segments without a block.
    pub(crate) fn compact(&mut self, name: Name) -> Reply
        requires lent { HasOut (disc_in state self.old.region)
            (segments_of (rest_in self.old.region)) }

        ensures step { (labels : Labels) (r : List ℕ)
            → compact_in (home_of (held_of state r self.old labels)) name
            ≡ changed_to (home_of (held_of state r self.old labels))
            (region_with self.new labels).0 result }
        ensures change { (labels : Labels) → AreLabelsOf (rest_in self.old.region) labels
            → ChangesRegion state
            self.old labels self.new labels }
        ensures served { NoneRefused (disc_in state self.old.region)
            (disc_in state self.new.region) }
    {
        Reply::Compacted(name, self.region.compact())
    }
}
