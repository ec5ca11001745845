ghost use Rattle.std.specs.Prelude.{◌≡◌};
ghost use Rattle.vc_script.specs.Forms.{read_name};

use crate::LineFault;
use crate::word::is_name;
use std::marker::Model;
use vc_base::Name;

/// A word that is a name. Its bytes stay in the line.
#[derive(Drop)]
pub(crate) struct NameWord<'a> {
    word: &'a [u8],
}

impl<'a> Model for NameWord<'a> {
    ghost use Rattle.std.specs.Prelude.{ℕ, List, IsTrue};
    ghost use Rattle.vc_script.specs.Words.{is_name};

    ghost Value = { List ℕ };

    ghost view = { λ w. w.word.now };

    ghost invariant = { λ w. IsTrue (is_name w.word.now) };
}

impl<'a> NameWord<'a> {
    // The name of the word's bytes.
    #[tactic(auto, using(crate::proofs::NameBounds::name_bounds))]
    pub(crate) fn name(self) -> Name
        ensures { result ≡ self.entry }
    {
        Name::new(self.word)
    }
}

pub(crate) fn name_of(word: &[u8]) -> Result<NameWord<'_>, LineFault>
    ensures { result ≡ read_name word.now }
{
    if is_name(word) {
        Ok(NameWord { word })
    } else {
        Err(LineFault::BadName)
    }
}

// The name of a word that may be missing.
pub(crate) fn some_name(word: Option<NameWord<'_>>) -> Option<Name>
    ensures { result ≡ word.entry }
{
    match word {
        None => None,
        Some(word) => Some(word.name()),
    }
}
