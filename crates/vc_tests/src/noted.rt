mod disc;
mod kind;
mod streams;

pub(crate) use disc::{Answers, NotedDisc};
pub(crate) use kind::NotedKind;
use std::cell::RefCell;
use std::rc::Rc;
pub(crate) use streams::{NotedSink, NotedSource};

// What is asked of all that is handed in, in order. A letter tells a call, in capitals where it was refused:
//   R, W, E   a read, a write of replies, one of the line of what is wrong, whether it fails or not
//   a, u      a discipline is armed, unarmed
//   l, L      a segment is lent
//   x, X      a segment is made longer
//   m         one of these finds no memory
//   y, n      an exception is made, isn't made
//   <pns      a discipline takes a segment back: its place, the segment's number, and its size by 4,096 bytes
//   +kBYTES   a kind makes an object of that prototype, and a blank stands behind it
//   -kBYTES   a kind is told of an object that goes
pub(crate) type Notes = Rc<RefCell<Vec<u8>>>;

// Notes behind earlier ones, with ample memory.
pub(crate) fn note(notes: &Notes, text: &[u8]) {
    if let Ok(mut all) = notes.try_borrow_mut() {
        let _ = all.extend_from_slice(text);
    }
}

// The last digit of a number.
pub(crate) fn digit(n: u32) -> u8 {
    ((n % 10) as u8).wrapping_add(b'0')
}
