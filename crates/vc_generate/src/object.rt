ghost use Rattle.std.specs.Prelude.{◌≡◌, ◌/◌, ◌%◌, IfOk};
ghost use Rattle.vc_generate.specs.Generated.{object_command, generated_object};

use crate::fixed::dict;
use itoa::Buffer;
use std::alloc::AllocError;
use vc_script::{Bytes, Command};

// The object of a word, in the memory of other bytes: `k` and a number below 1000 in decimal.
fn object_of(room: Vec<u8>, word: u32) -> Result<Bytes, AllocError>
    ensures { IfOk result (λ object. object ≡ generated_object word) }
{
    let mut number = Buffer::new();
    let digits = number.format((word / 256 % 1000) as u16).as_bytes();
    let mut object = [b'k'; 6];
    let end = 1 + digits.len();
    object[1..end].copy_from_slice(digits);
    let mut bytes = room;
    bytes.clear();
    bytes.extend_from_slice(&object[..end])?;
    Ok(Bytes::from_vec(bytes))
}

// The command of a word, whose object lies in the memory of other bytes.
pub(crate) fn object_command(room: Vec<u8>, word: u32) -> Result<Command, AllocError>
    ensures { IfOk result (λ command. command ≡ object_command word) }
{
    let object = object_of(room, word)?;
    Ok(match word % 4 {
        0 | 1 => Command::Insert(dict(), object),
        2 => Command::Delete(dict(), Some(object)),
        _ => Command::Search(dict(), object),
    })
}
