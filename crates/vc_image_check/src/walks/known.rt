ghost use Rattle.std.specs.Prelude.{◌≡◌};

use vc_splay::Links;

/// Links of which any number can be asked whether it names a node. This project's own.
pub trait Known: Links {
    /// Whether there is a node of that name.
    fn has(&self, n: u32) -> bool
        ensures { result ≡ (Self.store self.now).has n };
}
