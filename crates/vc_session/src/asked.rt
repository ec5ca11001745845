ghost use Rattle.std.specs.Prelude.{IsTrue};
ghost use Rattle.vc_session.specs.Asked.{is_in_range};

use vc_words::Words;

// Words whose count of generated commands, where one is given, is 1 to 1,000,000.
#[derive(Clone, Copy)]
pub(crate) struct Asked {
    pub words: Words,
    ghost in_range: { IsTrue (is_in_range words.generate) },
}
