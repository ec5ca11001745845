use crate::stores::copies::{are_few, copies};
use crate::stores::{Store, StoreSaveFault};
use vc_base::Sink;
use vc_dtdisc::DictDisc;
use vc_image::{SaveFault, save_best};

impl<D: DictDisc + Drop> Store<D> {
    ghost use Rattle.std.specs.Prelude.{◌≡◌, ◌≤◌, ◌++◌, ◌↔◌, Some, IfOk, IfSome, IsErrOf, OnOk, length};
    ghost use Rattle.vc_model.specs.Count.{Rose};
    ghost use Rattle.vc_store.specs.Stores.Copies.{AreFew, IsFrontWritten, copies_of, image_of_store};
    ghost use Rattle.vc_store.specs.declared.stores.fault.StoreSaveFault.TheVariants.{OutOfMemory as NoMemory, TooMany as Many, WriteFailed as NoWrite};

    /// Writes the image of its region with its dictionaries in order of number, and answers how many bytes it has. In the
    /// image the dictionary of number n has the kind n + 1, so that `load` gives it its number again; what the kinds are isn't
    /// in it. `TooMany` comes exactly where more than 256 dictionaries are there, or one has a number from 2^32 - 1 on. After
    /// a fault a front of the image is written: nothing but with `WriteFailed`. Nothing of the store changes. The call takes
    /// memory for the dictionaries' numbers and for the head of the image, as `vc_image::save` does, for as long as it lasts.
    pub fn save<O: Sink>(&self, out: &mut O) -> Result<u64, StoreSaveFault>
        ensures ok { OnOk result (IfSome (O.written out.old) (λ w.
            O.written out.new ≡ Some (w ++ image_of_store self.now))) }
        ensures length { IfOk result (λ n. n ≡ length (image_of_store self.now)) }
        ensures front { IsFrontWritten (image_of_store self.now)
            (O.written out.old) (O.written out.new) }
        ensures many { IsErrOf result Many ↔ ¬ AreFew (copies_of self.now) }
        ensures cause { IsErrOf result NoWrite → Rose (O.failures out.old) (O.failures out.new) }
        ensures untouched { IsErrOf result Many → O.written out.new ≡ O.written out.old }
        ensures nothing { IsErrOf result NoMemory → O.written out.new ≡ O.written out.old }
        ensures never_falls { O.failures out.old ≤ O.failures out.new }
    {
        if !are_few(&self.dicts) {
            return Err(StoreSaveFault::TooMany);
        }
        let alloc = self.best.alloc;
        let copies = match copies(alloc, &self.dicts) {
            Ok(copies) => copies,
            Err(_) => return Err(StoreSaveFault::OutOfMemory),
        };
        match save_best(alloc, &self.best, copies.as_slice(), out) {
            Ok(length) => Ok(length),
            Err(SaveFault::WriteFailed) => Err(StoreSaveFault::WriteFailed),
            Err(SaveFault::OutOfMemory) => Err(StoreSaveFault::OutOfMemory),
        }
    }
}
