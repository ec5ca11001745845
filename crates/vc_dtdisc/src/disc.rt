ghost use Rattle.std.specs.Prelude.{◌≡◌, ℕ, ◌+◌, [], OnOk, OnErr};
ghost use Rattle.vc_dtdisc.specs.Rules.{Gone, Rules, AreLawful, gone_after};

use std::cmp::Ordering;
use vc_base::{OutOfMemory, Steps};

/// The kind of a dictionary, after Cdt's disciplines. An object has 1 to 1,024 bytes. The laws of order and hashes, and
/// that what is made matches its prototype, hold for any lists of numbers; that it is an object is asked of objects alone.
pub trait DictDisc {
    /// Its rules: an object's key, the order and the hash of keys, and the object that is made of a prototype.
    ghost rules: { Self → Rules };

    /// Of how many objects and bytes it was told that they go.
    ghost gone: { Self → Gone };

    /// The key of an object: a part of its bytes.
    fn key<'a>(&self, obj: &'a [u8]) -> &'a [u8]
        ensures { result.now ≡ (rules self.now).key obj.now };

    /// How the first key stands to the second, in one step: `Less` where it stands before it, and `Equal` where the two
    /// objects match.
    fn compare<L>(&self, a: &[u8], b: &[u8], steps: &mut Steps<L>) -> Ordering
        ensures value { result ≡ (rules self.now).compare a.now b.now }
        ensures step { steps.new ≡ steps.old + 1 };

    /// The hash of a key, a number below 2^64.
    fn hash(&self, key: &[u8]) -> u64
        ensures { result ≡ (rules self.now).hash key.now };

    /// Makes an object of a prototype, into an empty vector. It is refused with no memory alone, and the vector stays
    /// empty.
    fn make(&self, obj: &[u8], out: &mut Vec<u8>) -> Result<(), OutOfMemory>
        requires { out.old.items ≡ [] }
        ensures ok { OnOk result (out.new.items ≡ (rules self.now).made obj.now) }
        ensures err { OnErr result (out.new.items ≡ []) };

    /// Is told that an object goes, and counts it and its bytes; each number stays at the greatest u64 once there. It
    /// cannot fail.
    fn freed(&mut self, obj: &[u8])
        ensures gone { gone self.new ≡ gone_after (gone self.old) obj.now }
        ensures rules { rules self.new ≡ rules self.old };

    /// Keys have a total preorder, equal keys have equal hashes, and a made object is an object with an equal key.
    ghost lawful: { (kind : Self) → AreLawful (rules kind) };
}
