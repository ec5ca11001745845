ghost use Rattle.std.specs.Prelude.{◌≡◌, ◌<◌, Some, None, IfErr, IfOk, length};
ghost use Rattle.std.specs.Result.{result_err};
ghost use Rattle.vc_base.specs.Prelude.{contains};
ghost use Rattle.vc_paths.specs.Links.{ArePaths, are_too_long, below, is_link_to, is_too_long, is_viewed, links_with, no_links, numbers, path};
ghost use Rattle.vc_paths.specs.Path.{IsPath};
ghost use Rattle.vc_paths.specs.View.{are_alike, view_fault};

use crate::{Layers, ViewFault};
use std::alloc::Global;
use std::marker::Model;
use vc_base::OutOfMemory;

// There are so many numbers of dictionaries.
const NUMBERS: u32 = 256;

// A path has at most so many dictionaries.
const PATH_LIMIT: u32 = 16;

/// Which dictionary views which, by numbers from 0 to 255: from each at most one link, and along them at most 16
/// dictionaries. This project's own.
#[derive(Drop)]
pub struct Paths {
    // What each dictionary views.
    links: Vec<Option<u32>>,
}

impl Model for Paths {
    ghost use Rattle.vc_paths.specs.Links.{ArePaths, Links};

    ghost Value = { Links };

    ghost view = { λ p. p.links.items };

    ghost invariant = { λ p. ArePaths p.links.items };
}

// Whether a link is to a dictionary.
pub(crate) fn is_link_to(d: u32, link: Option<u32>) -> bool
    ensures { result ≡ is_link_to d link }
{
    match link {
        Some(e) => e == d,
        None => false,
    }
}

// Whether two dictionaries have one method, and kinds of one number.
fn are_alike<Y: Layers>(layers: &Y, d: u32, e: u32) -> bool
    requires first { (Y.layered layers.now).Has d }
    requires second { (Y.layered layers.now).Has e }
    ensures { result ≡ are_alike (Y.layered layers.now) d e }
{
    layers.method(d) == layers.method(e) && layers.kind_number(d) == layers.kind_number(e)
}

impl Paths {
    /// No dictionary views another. There is room for 256 of them. Refused where the memory for that isn't granted.
    pub fn new(alloc: Global) -> Result<Paths, OutOfMemory>
        ensures { IfOk result (λ paths. paths ≡ no_links) }
    {
        let mut links = Vec::with_capacity(alloc, NUMBERS as usize)?;
        for _number in 0..NUMBERS {
            links.push(None)?;
        }
        Ok(Paths { links })
    }

    /// What `d`, the number of a dictionary from 0 to 255, views: such a number, or none. It can't be refused.
    pub fn below(&self, d: u32) -> Option<u32>
        requires { d < numbers }
        ensures { result ≡ below self.now d }
    {
        self.links[d as usize]
    }

    /// What is always true of it: no path has more than 16 dictionaries, and each link leads to a number from 0 to 255.
    pub fn show_invariant(&self)
        ensures { ArePaths self.now }
    {
        let _links = &self.links;
    }

    /// Whether some dictionary views `d`, the number of one from 0 to 255. It can't be refused.
    pub fn is_viewed(&self, d: u32) -> bool
        requires { d < numbers }
        ensures { result ≡ is_viewed self.now d }
    {
        self.links.iter().any(|link| is_link_to(d, *link))
    }

    /// How many dictionaries, from 1 to 16, are on the path of `d`, the number of one from 0 to 255. It can't be refused.
    pub fn length(&self, d: u32) -> u32
        requires { d < numbers }
        ensures { result ≡ length (path self.now d) }
    {
        self.show_invariant();
        let mut count = 1;
        let mut at = d;
        while let Some(e) = self.below(at) {
            count += 1;
            at = e;
        }
        count
    }

    // Whether a dictionary is on the path of another one, or that one itself.
    fn is_on_path(&self, d: u32, e: u32) -> bool
        requires { e < numbers }
        ensures { result ≡ contains (path self.now e) d }
    {
        self.show_invariant();
        let mut at = e;
        while at != d {
            match self.below(at) {
                Some(next) => at = next,
                None => return false,
            }
        }
        true
    }

    // What the dictionary `from` would view if `d` viewed `e`.
    fn below_with(&self, d: u32, e: u32, from: u32) -> Option<u32>
        requires first { d < numbers }
        requires other { from < numbers }
        ensures { result ≡ below (links_with d (Some e) self.now) from }
    {
        self.show_invariant();
        let old = self.below(from);
        if from == d { Some(e) } else { old }
    }

    // Whether the path of the dictionary `from` would be too long if `d` viewed `e`.
    fn is_too_long_with(&self, d: u32, e: u32, from: u32) -> bool
        requires first { d < numbers }
        requires second { e < numbers }
        requires other { from < numbers }
        ensures { result ≡ is_too_long (links_with d (Some e) self.now) from }
    {
        self.show_invariant();
        let mut at = from;
        for _step in 0..PATH_LIMIT {
            match self.below_with(d, e, at) {
                Some(next) => at = next,
                None => return false,
            }
        }
        true
    }

    // Whether some path would be too long if `d` viewed `e`.
    fn are_too_long_with(&self, d: u32, e: u32) -> bool
        requires first { d < numbers }
        requires second { e < numbers }
        ensures { result ≡ are_too_long (links_with d (Some e) self.now) }
    {
        for from in 0..NUMBERS {
            if self.is_too_long_with(d, e, from) {
                return true;
            }
        }
        false
    }

    /// Lets `d` view `e`, both numbers of dictionaries from 0 to 255, in place of what `d` viewed before. Refused with
    /// nothing changed, in this order: as `Differs` where their methods or kinds differ, as `Cycle` where `d` is on the
    /// path of `e`, and as `TooDeep` where some path would have more than 16 dictionaries.
    pub fn view<Y: Layers>(&mut self, layers: &Y, d: u32, e: u32) -> Result<(), ViewFault>
        requires first { IsPath (Y.layered layers.now) self.old d }
        requires second { IsPath (Y.layered layers.now) self.old e }
        ensures fault { result_err result ≡ view_fault (Y.layered layers.now) self.old d e }
        ensures ok { IfOk result (λ _. self.new ≡ links_with d (Some e) self.old) }
        ensures err { IfErr result (λ _. self.new ≡ self.old) }
    {
        if !are_alike(layers, d, e) {
            return Err(ViewFault::Differs);
        }
        if self.is_on_path(d, e) {
            return Err(ViewFault::Cycle);
        }
        if self.are_too_long_with(d, e) {
            return Err(ViewFault::TooDeep);
        }
        self.links[d as usize] = Some(e);
        Ok(())
    }

    /// Lets `d`, the number of a dictionary from 0 to 255, view no other one. It can't be refused.
    pub fn end(&mut self, d: u32)
        requires { d < numbers }
        ensures { self.new ≡ links_with d None self.old }
    {
        self.links[d as usize] = None;
    }
}
