ghost use Rattle.std.specs.Prelude.{◌≡◌, ◌<◌, IfSome, is_some, length, slice_get, bytes_eq};
ghost use Rattle.std.specs.HashMap.{get, values};
ghost use Rattle.std.specs.List.{position};
ghost use Rattle.std.specs.Map.{keys_of};

use crate::session::Session;
use vc_base::Name;
use vc_seg::{BoxedDisc, SegDisc};
use vc_views::index_near;

impl<D> Session<D> {
    /// The index of the region of that name among those that are open, from 0 on, in order of opening.
    #[inline(always)]
    pub fn region_index(&self, name: &Name) -> Option<usize>
        ensures index { result ≡ position (bytes_eq name.now) (keys_of self.now.homes.entries) }
        ensures found { is_some result ≡ is_some (get bytes_eq self.now.homes name.now) }
        ensures within { IfSome result (λ i. i < length self.now.homes.entries) }
        ensures value { IfSome result (λ i. slice_get (values self.now.homes) i
            ≡ get bytes_eq self.now.homes name.now) }
    {
        index_near(&self.homes, name, self.last_region)
    }

    /// The index of the dictionary of that name among those that are open, from 0 on, in order of opening.
    #[inline(always)]
    pub fn dict_index(&self, name: &Name) -> Option<usize>
        ensures index { result ≡ position (bytes_eq name.now) (keys_of self.now.dicts.entries) }
        ensures found { is_some result ≡ is_some (get bytes_eq self.now.dicts name.now) }
        ensures within { IfSome result (λ i. i < length self.now.dicts.entries) }
        ensures value { IfSome result (λ i. slice_get (values self.now.dicts) i
            ≡ get bytes_eq self.now.dicts name.now) }
    {
        index_near(&self.dicts, name, self.last_dict)
    }
}
