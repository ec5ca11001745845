ghost use Rattle.std.specs.Prelude.{◌≡◌, IfOk};
ghost use Rattle.vc_base.specs.Prelude.{place_of};
ghost use Rattle.vc_best.specs.Parts.{blocks_in};
ghost use Rattle.vc_script.specs.declared.reply.Reply.TheVariants.{BlockList};
ghost use Rattle.vc_image_run.specs.Text.Text.{items_of, label_of};

use itoa::Buffer;
use std::alloc::Global;
use vc_base::{Addr, Name, OutOfMemory};
use vc_best::Best;
use vc_script::{BlockItems, Place, Reply};

// What stands for the name of a block of that tag.
fn label_of(tag: u32) -> Option<Name>
    ensures { result ≡ label_of tag }
{
    if tag == 0 {
        return None;
    }
    let mut buffer = Buffer::new();
    Some(Name::new(buffer.format(tag).as_bytes()))
}

// The segment and the offset of an address.
fn place_of(at: Addr) -> Place
    ensures seg { result.seg ≡ (place_of at.0).0 }
    ensures off { result.off ≡ (place_of at.0).1 }
{
    Place {
        seg: at.seg(),
        off: at.off(),
    }
}

// Lists the blocks by address.
pub(crate) fn blocks(alloc: Global, best: &Best) -> Result<Reply, OutOfMemory>
    ensures { IfOk result (λ reply. reply ≡ BlockList (items_of (blocks_in best.now))) }
{
    let mut items = Vec::new(alloc);
    let mut after = Addr::NONE;
    while let Some(block) = best.next_block(after) {
        items.push((label_of(best.tag(block)), place_of(block), best.size(block)))?;
        after = block;
    }
    Ok(Reply::BlockList(BlockItems::from_vec(items)))
}
