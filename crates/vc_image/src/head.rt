ghost use Rattle.std.specs.Prelude.{◌≡◌, ◌<◌, ◌≤◌, ◌++◌, ◌^◌, IfOk, OnOk, length, map};
ghost use Rattle.std.specs.List.{flat_map};
ghost use Rattle.vc_base.specs.Methods.{method_number};
ghost use Rattle.vc_seg.specs.Segment.{AreSegments, pair_of};
ghost use Rattle.vc_image_check.specs.Bytes.Image.{number_bytes, pair_bytes, row_bytes};
ghost use Rattle.vc_image.specs.Save.{contents_by, dict_row, head_of};

use std::alloc::{AllocError, Global};
use vc_base::{DictMethod, OutOfMemory};
use vc_dict::Dict;
use vc_seg::Segment;

// The place of a method among the seven, from 0 on.
fn number_of(method: DictMethod) -> u32
    ensures { result ≡ method_number method }
{
    match method {
        DictMethod::DtSet => 0,
        DictMethod::DtBag => 1,
        DictMethod::DtOset => 2,
        DictMethod::DtObag => 3,
        DictMethod::DtList => 4,
        DictMethod::DtStack => 5,
        DictMethod::DtQueue => 6,
    }
}

// Puts numbers behind what is there, each in four bytes, the lowest first.
fn put_numbers(head: &mut Vec<u8>, numbers: &[u32]) -> Result<(), AllocError>
    ensures { OnOk result (head.new.items ≡ head.old.items ++ flat_map number_bytes numbers.now) }
{
    for number in numbers {
        head.extend_from_slice(&number.to_le_bytes())?;
    }
    Ok(())
}

// Puts the number and the size of each segment behind what is there.
fn put_pairs(head: &mut Vec<u8>, segs: &[Segment]) -> Result<(), AllocError>
    ensures { OnOk result (head.new.items
        ≡ head.old.items ++ flat_map pair_bytes (map pair_of segs.now)) }
{
    for seg in segs {
        put_numbers(head, &[seg.number(), seg.size()])?;
    }
    Ok(())
}

// Puts the nine numbers of a dictionary behind what is there. Of its count the lower four bytes are put.
fn put_row(head: &mut Vec<u8>, dict: &Dict) -> Result<(), AllocError>
    ensures { OnOk result (head.new.items ≡ head.old.items ++ row_bytes (dict_row dict.now)) }
{
    let heads = dict.heads();
    put_numbers(
        head,
        &[
            number_of(dict.method),
            dict.kind,
            (dict.count % 4_294_967_296) as u32,
            dict.current.0,
            heads.first.0,
            heads.last.0,
            heads.table.0,
            heads.slots,
            heads.root.0,
        ],
    )
}

// Puts the nine numbers of each dictionary behind what is there.
fn put_rows(head: &mut Vec<u8>, dicts: &[Dict]) -> Result<(), AllocError>
    ensures { OnOk result (head.new.items
        ≡ head.old.items ++ flat_map row_bytes (map dict_row dicts.now)) }
{
    for dict in dicts {
        put_row(head, dict)?;
    }
    Ok(())
}

// What stands before the bytes of the segments.
pub(crate) fn head_bytes(
    alloc: Global,
    root: u32,
    segs: &[Segment],
    dicts: &[Dict],
) -> Result<Vec<u8>, OutOfMemory>
    requires segs { AreSegments segs.now }
    requires few { length dicts.now ≤ 256 }
    ensures { IfOk result (λ head. head.items ≡ head_of (contents_by root segs.now dicts.now)) }
{
    let mut head = Vec::new(alloc);
    head.extend_from_slice(b"VCIMAGE1")?;
    put_numbers(&mut head, &[segs.len() as u32, root, dicts.len() as u32])?;
    put_pairs(&mut head, segs)?;
    put_rows(&mut head, dicts)?;
    Ok(head)
}
