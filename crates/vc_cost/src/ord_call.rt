use crate::Key;
use vc_base::Addr;

/// A call on an ordered set or bag.
#[derive(Debug, Drop)]
pub enum OrdCall {
    /// Puts a holder in.
    Link(Addr),
    /// Finds the first holder whose object has the key and takes it out, where there is one.
    Take(Key),
    /// Finds the first holder whose object has the key.
    Find(Key),
    /// Finds the first holder whose object's key isn't less.
    AtLeast(Key),
}
