ghost use Rattle.std.specs.Prelude.{◌≡◌, ◌+◌, ◌*◌, ◌≤◌, ◌^◌, drop, length};
ghost use Rattle.vc_base.specs.Cells.{word, with_word};
ghost use Rattle.vc_base.specs.Prelude.{with_bytes};
ghost use Rattle.vc_cost.specs.Many.{many, many-address};

use vc_base::{Addr, Cells};

// Holders of 36 bytes each, at the addresses from 1 on: each at its place in the list. What stands at place 0 is none.
#[derive(Drop)]
pub(crate) struct ManyCells {
    pub held: Vec<[u8; 36]>,
    ghost few: { length held.items ≤ 2 ^ 32 },
}

impl Cells for ManyCells {
    ghost blocks = { λ s. many s.held.items };

    ghost RestStays = { λ s t. Unit {0} };

    fn load(&self, at: Addr, k: u32) -> u64 {
        word_of(&self.held[at.0 as usize], k)
    }

    fn store(&mut self, at: Addr, k: u32, v: u64) {
        self.held[at.0 as usize] = with_word_of(self.held[at.0 as usize], k, v);
    }

    fn slot(&self, at: Addr, k: u32) -> u64 {
        word_of(&self.held[at.0 as usize], k)
    }

    fn set_slot(&mut self, at: Addr, k: u32, v: u64) {
        self.held[at.0 as usize] = with_word_of(self.held[at.0 as usize], k, v);
    }

    fn body(&self, at: Addr) -> &[u8] {
        behind(&self.held[at.0 as usize])
    }

    fn set_body(&mut self, at: Addr, bytes: &[u8]) {
        self.held[at.0 as usize] = with_bytes_of(self.held[at.0 as usize], 32, bytes);
    }

    ghost addresses = { λ s a. many-address s.held.items s.few a };

    ghost reflexive = { λ s. tt };

    ghost transitive = { λ a b c p q. tt };
}

// The bytes behind four words.
fn behind(bytes: &[u8]) -> &[u8]
    requires { 32 ≤ length bytes.now }
    ensures { result.now ≡ drop 32 bytes.now }
{
    &bytes[32..]
}

// Word k of the bytes.
#[tactic(auto, unfolding(vc_base::specs::Cells::word))]
fn word_of(bytes: &[u8], k: u32) -> u64
    requires { 8 * k + 8 ≤ length bytes.now }
    ensures { result ≡ word k bytes.now }
{
    let from = 8 * k as usize;
    let mut eight = [0u8; 8];
    eight.copy_from_slice(&bytes[from..from + 8]);
    u64::from_le_bytes(eight)
}

// The bytes with others over them.
fn with_bytes_of(bytes: [u8; 36], off: usize, src: &[u8]) -> [u8; 36]
    requires { off + length src.now ≤ length bytes }
    ensures { result ≡ with_bytes off src.now bytes }
{
    let mut written = bytes;
    written[off..off + src.len()].copy_from_slice(src);
    written
}

// The bytes with that number in word k.
#[tactic(auto, unfolding(vc_base::specs::Cells::with_word))]
fn with_word_of(bytes: [u8; 36], k: u32, v: u64) -> [u8; 36]
    requires { 8 * k + 8 ≤ length bytes }
    ensures { result ≡ with_word k v bytes }
{
    with_bytes_of(bytes, 8 * k as usize, &v.to_le_bytes())
}
