//! What the programs hand to their tools: the words behind a program's name, the disciplines of the shelf, and the kinds of
//! dictionaries. Each program puts the disciplines into boxes and these on the shelf itself.
#![tactic(auto)]

ghost use Rattle.std.specs.Prelude.{◌≡◌, map, IfOk};
ghost use Rattle.vc_main.specs.Places.{budgeted, growing_budget, heap_at, relieved_budget, shapes};

use std::alloc::{AllocError, Global};
use std::env::{self, Env};
use std::io::ErrorKind;
use vc_dtdisc::{BuiltIn, Shape};
use vc_seg::{BudgetDisc, HeapDisc, ReliefDisc, SbrkDisc};

/// The words behind the program's name. Where one isn't UTF-8 there's no list, and an empty word, which is refused, stands
/// in its place.
pub fn words_of<R: Env + Alloc<A = Global>>(rt: &R) -> Result<Vec<String>, AllocError> {
    let alloc = rt.alloc();
    let mut words = Vec::new(alloc);
    match env::args(rt) {
        Ok(mut all) => {
            let _ = all.next();
            words = all.collect(alloc)?;
        }
        Err(e) if e.kind() == ErrorKind::OutOfMemory => return Err(AllocError),
        Err(_) => words.push(String::new(alloc))?,
    }
    Ok(words)
}

/// The discipline at a place from 1 to 12 of the shelf: it rounds to 4,096 bytes up to place 8, and to 65,536 from 9 on.
pub fn heap_at(place: u32) -> HeapDisc
    ensures { result ≡ heap_at place }
{
    HeapDisc::new(if place <= 8 { 4096 } else { 65_536 })
}

/// The discipline at each place from 13 to 16: it rounds to 4,096 bytes, and has a budget of 1,048,576 bytes.
pub fn budgeted() -> BudgetDisc
    ensures { result ≡ budgeted }
{
    BudgetDisc::new(4096, 1_048_576)
}

/// The discipline at place 17: it makes a segment longer where more is asked for, rounds to 4,096 bytes, and has at most
/// 33,554,432 bytes out, as many as a segment can have.
pub fn growing() -> SbrkDisc
    ensures { result ≡ growing_budget }
{
    SbrkDisc::new(4096, 33_554_432)
}

/// The discipline at place 18: it rounds to 4,096 bytes, and has a budget of 1,048,576 bytes, which is raised by as much
/// where it is asked for an exception first.
pub fn relieved() -> ReliefDisc
    ensures { result ≡ relieved_budget }
{
    ReliefDisc::new(4096, 1_048_576, 1_048_576)
}

/// The kinds of dictionaries, of which a script names the first as 1: by all bytes, by the text before a zero byte, without
/// regard to the case of letters, in reverse order, by the first four bytes, and cut at eight bytes.
pub fn kinds(alloc: Global) -> Result<Vec<BuiltIn>, AllocError>
    ensures { IfOk result (λ kinds. map (λ kind. kind.shape) kinds.items ≡ shapes) }
{
    let mut kinds = Vec::new(alloc);
    kinds.push(BuiltIn::new(Shape::Whole))?;
    kinds.push(BuiltIn::new(Shape::Text { off: 0 }))?;
    kinds.push(BuiltIn::new(Shape::Fold))?;
    kinds.push(BuiltIn::new(Shape::Reverse))?;
    kinds.push(BuiltIn::new(Shape::Field { off: 0, size: 4 }))?;
    kinds.push(BuiltIn::new(Shape::Clip { n: 8 }))?;
    Ok(kinds)
}
