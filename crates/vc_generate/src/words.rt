ghost use Rattle.std.specs.Prelude.{◌≡◌, ◌∷◌, drop};
ghost use Rattle.vc_generate.specs.Next.{IsNext};
ghost use Rattle.vc_generate.specs.Words.{generated_words};

use rand_core::utils::NextWord;
use rand_pcg::Lcg64Xsh32;
use std::marker::Model;

// The words that are still to come, of which the first was drawn already.
#[derive(Drop)]
pub(crate) struct Words {
    left: u32,
    word: u32,
    source: Lcg64Xsh32,
}

impl Model for Words {
    ghost use Rattle.std.specs.Prelude.{ℕ, List};
    ghost use Rattle.vc_generate.specs.Words.{words_ahead};

    ghost Value = { List ℕ };

    ghost view = { λ w. words_ahead w.left w.word w.source };
}

impl Words {
    // The first `count` words of a seed, at stream 54.
    pub fn new(seed: u32, count: u32) -> Words
        ensures { result ≡ generated_words seed count }
    {
        let mut source = Lcg64Xsh32::new(u64::from(seed), 54);
        let word = source.next_word();
        Words {
            left: count,
            word,
            source,
        }
    }

    // The next word, which stays.
    pub fn first(&self) -> Option<u32>
        ensures { IsNext result self.now (drop 1 self.now) }
    {
        if self.left == 0 {
            None
        } else {
            Some(self.word)
        }
    }

    // Drops the next word, if there's one.
    pub fn advance(&mut self)
        ensures { self.new ≡ drop 1 self.old }
    {
        if self.left > 0 {
            self.left -= 1;
            self.word = self.source.next_word();
        }
    }
}
