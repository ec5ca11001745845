ghost use Rattle.std.specs.Prelude.{◌≡◌, ℕ, List};
ghost use Rattle.vc_model.specs.Discipline.{Discipline};
ghost use Rattle.vc_store.specs.Stores.Copies.{AreFew, copies_of, image_of_store};
ghost use Rattle.vc_store.specs.Stores.Loads.{HoldsImage};
ghost use Rattle.vc_store.specs.Stores.Stores.{IsOpen, shown};

use crate::stores::Store;
use vc_dtdisc::DictDisc;

/// A law: what is loaded from the image of a store that was open shows by each number what that store showed: its method, its
/// objects and the current one, or that there is none. This project's own.
pub fn loaded_shows_the_same<D: DictDisc + Drop>(saved: &Store<D>, loaded: &Store<D>)
    ensures { (lent old new : Discipline) (kinds : List D) → IsOpen D.rules saved.now lent
        → AreFew (copies_of saved.now)
        → HoldsImage D.rules (image_of_store saved.now) kinds loaded.now old new
        → (n : ℕ) → shown loaded.now n ≡ shown saved.now n }
{}
