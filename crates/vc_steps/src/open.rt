ghost use Rattle.std.specs.Prelude.{◌≡◌, List};
ghost use Rattle.vc_dtdisc.specs.Rules.{Gone, Rules};
ghost use Rattle.vc_script.specs.declared.command.Command.TheVariants.{OpenRegion};
ghost use Rattle.vc_steps.specs.Account.{ArmsNone};
ghost use Rattle.vc_steps.specs.Homes.{HoldsDicts, HoldsRegions, KeepsRegions, settled_over, slots_on};
ghost use Rattle.vc_steps.specs.State.{not_here};
ghost use Rattle.vc_steps.specs.Moment.{moment_by};
ghost use Rattle.vc_steps.specs.State.{open_step};
ghost use Rattle.vc_steps.specs.Steps.{StepsBy};

use crate::session::Session;
use vc_base::{Name, OutOfMemory};
use vc_commands::{HomeEntry, Labels};
use vc_region::Region;
use vc_script::{Refusal, Reply};
use vc_seg::{BoxedDisc, Method, SegDisc, Shelf, ShelfPlace};

// Why no discipline is taken from a place of the shelf.
fn not_here(place: ShelfPlace) -> Refusal
    ensures { result ≡ not_here place }
{
    match place {
        ShelfPlace::Missing => Refusal::NoSuchDiscipline,
        _ => Refusal::DisciplineInUse,
    }
}

impl<D> Session<D> {
    // Opens a region of that method over the discipline of that number.
    pub(crate) fn open_region(
        &mut self,
        shelf: &mut Shelf,
        name: Name,
        method: Method,
        n: u32,
    ) -> Result<Reply, OutOfMemory>
        requires { HoldsRegions state shelf.old self.old }
        ensures steps { (kinds : List Rules) (gone : List Gone) → HoldsDicts state kinds self.old
            → StepsBy result
            (moment_by state kinds gone shelf.old self.old)
            (moment_by state kinds gone shelf.new self.new)
            (OpenRegion name method n) (λ s need. open_step s name method n) }
        ensures regions { KeepsRegions state self.old shelf.new self.new }
        ensures settled { settled_over state shelf.new self.new
            ≡ settled_over state shelf.old self.old }
        ensures unarmed { ArmsNone (slots_on state shelf.old) (slots_on state shelf.new) }
    {
        if self.homes.contains_key(&name) {
            return Ok(Reply::Refused(Refusal::RegionExists));
        }
        self.homes.reserve(1)?;
        self.labels.reserve(1)?;
        let Some(mut disc) = shelf.take(n) else {
            return Ok(Reply::Refused(not_here(shelf.place(n))));
        };
        disc.arm(self.is_armed);
        match Region::open(self.alloc, method, disc) {
            Ok(region) => {
                // There is room, so this takes no memory and cannot fail.
                let _ = self.homes.insert(name, HomeEntry { place: n, region });
                self.labels.push_reserved(Labels::new(self.alloc));
                Ok(Reply::Opened(name))
            }
            Err((_, mut disc)) => {
                disc.arm(false);
                shelf.give_back(n, disc);
                Err(OutOfMemory)
            }
        }
    }
}
