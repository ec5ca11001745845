ghost use Rattle.std.specs.Prelude.{◌≡◌, ℕ, ◌+◌, ◌/◌, ◌%◌, ◌≤◌, ◌++◌, codes, decimal, length};
ghost use Rattle.vc_generate.specs.Generated.{block_command, is_resize, is_taken, place_in_word, taken_after};

use crate::fixed::region;
use itoa::Buffer;
use vc_base::Name;
use vc_script::Command;

// The place that a word names.
fn place_of(word: u32) -> u8
    ensures { result ≡ place_in_word word }
{
    (word % 256) as u8
}

// The block of a place: `x` and the place in decimal.
fn block_name(place: u8) -> Name
    ensures { result ≡ codes "x" ++ decimal place }
{
    let mut buffer = Buffer::new();
    let digits = buffer.format(place).as_bytes();
    let mut text = [b'x'; 4];
    let end = 1 + digits.len();
    text[1..end].copy_from_slice(digits);
    Name::new(&text[..end])
}

// A taken place is resized for one word of four.
fn is_resize(word: u32) -> bool
    ensures { result ≡ is_resize word }
{
    word / 256 % 4 == 0
}

// The command of a word, by whether its place is taken.
fn block_command(is_taken: bool, word: u32) -> Command
    ensures { result ≡ block_command is_taken word }
{
    let block = block_name(place_of(word));
    if !is_taken {
        Command::Alloc(region(), block, 1 + word / 256 % 1000, None)
    } else if is_resize(word) {
        Command::Resize(region(), block, 1 + word / 1024 % 1000, true)
    } else {
        Command::Free(region(), block)
    }
}

// The command of a word, which takes or gives back its place.
pub(crate) fn take_command(taken: &mut [bool; 256], word: u32) -> Command
    ensures command { result ≡ block_command (is_taken taken.old (place_in_word word)) word }
    ensures places { taken.new ≡ taken_after taken.old word }
{
    let place = usize::from(place_of(word));
    let was_taken = taken[place];
    taken[place] = !was_taken || is_resize(word);
    block_command(was_taken, word)
}
