use vc_base::Name;
use vc_dict::Dict;

/// A dictionary that is open.
#[derive(Drop)]
pub struct DictEntry {
    /// The name of the region that it lies in.
    pub home: Name,
    /// Its number on view paths, from 0 to 255: that of no other dictionary that is open.
    pub number: u32,
    /// Its heads and its method.
    pub dict: Dict,
}
