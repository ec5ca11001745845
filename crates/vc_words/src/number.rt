ghost use Rattle.std.specs.Prelude.{◌≡◌, option_map};
ghost use Rattle.vc_words.specs.Words.{read_count, read_if_given, spelled};

use vc_script::number_of;

// The number that a text spells.
fn spelled(text: &str) -> Option<u32>
    ensures { result ≡ spelled text.now }
{
    number_of(text.as_bytes()).ok()
}

// The count of commands that a text spells.
fn count_of(text: &str) -> Option<u32>
    ensures { result ≡ read_count text.now }
{
    let n = spelled(text)?;
    if 1 <= n && n <= 1_000_000 {
        Some(n)
    } else {
        None
    }
}

// The count of commands, where a text is given for it.
pub(crate) fn count_if_given(text: Option<&str>) -> Option<Option<u32>>
    ensures { result ≡ read_if_given read_count (option_map (λ t. t.now) text.entry) }
{
    match text {
        None => Some(None),
        Some(text) => Some(Some(count_of(text)?)),
    }
}

// The seed, where a text is given for it.
pub(crate) fn seed_if_given(text: Option<&str>) -> Option<Option<u32>>
    ensures { result ≡ read_if_given spelled (option_map (λ t. t.now) text.entry) }
{
    match text {
        None => Some(None),
        Some(text) => Some(Some(spelled(text)?)),
    }
}
