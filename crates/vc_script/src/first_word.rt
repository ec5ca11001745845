ghost use Rattle.std.specs.Prelude.{◌≡◌, ◌↔◌, Some};
ghost use Rattle.vc_script.specs.FirstWords.{block_spelling, dictionary_spelling, numbers_spelling, object_spelling, one_dictionary_spelling, one_region_spelling, place_spelling, region_spelling, spelling};
ghost use Rattle.vc_script.specs.declared.first_word.FirstWord.{FirstWord};

use BlockWord::*;
use DictionaryWord::*;
use FirstWord::{Dictionary, Region};
use NumbersWord::*;
use ObjectWord::*;
use OneDictionary::*;
use OneRegion::*;
use PlaceWord::*;
use RegionWord::*;

/// A first word behind which `R` stands.
#[derive(Clone, Copy, Debug, PartialEq, Eq)]
pub(crate) enum OneRegion {
    Close,
    Clear,
    Compact,
    Stat,
    Segments,
    Blocks,
    Check,
    Profile,
}

/// A first word behind which `R X` stands.
#[derive(Clone, Copy, Debug, PartialEq, Eq)]
pub(crate) enum BlockWord {
    Free,
    Size,
    Watch,
}

/// A first word behind which `R S:O` stands.
#[derive(Clone, Copy, Debug, PartialEq, Eq)]
pub(crate) enum PlaceWord {
    Addr,
    Segment,
}

/// A first word behind which `R X`, and two numbers stands.
#[derive(Clone, Copy, Debug, PartialEq, Eq)]
pub(crate) enum NumbersWord {
    Align,
    Read,
}

/// A first word behind which `D` stands.
#[derive(Clone, Copy, Debug, PartialEq, Eq)]
pub(crate) enum OneDictionary {
    First,
    Last,
    Walk,
    Count,
    Empty,
    Shut,
}

/// A first word behind which `D OBJ` stands.
#[derive(Clone, Copy, Debug, PartialEq, Eq)]
pub(crate) enum ObjectWord {
    Insert,
    Append,
    Attach,
    Detach,
    Search,
    MatchKey,
    Next,
    Prev,
}

/// A first word of both tools.
#[derive(Clone, Copy, Debug, PartialEq, Eq)]
pub(crate) enum RegionWord {
    Open,
    Alloc,
    Resize,
    Write,
    Poke,
    One(OneRegion),
    Block(BlockWord),
    Place(PlaceWord),
    Numbers(NumbersWord),
}

/// A first word that dtrun has besides.
#[derive(Clone, Copy, Debug, PartialEq, Eq)]
pub(crate) enum DictionaryWord {
    Dict,
    Delete,
    View,
    Method,
    Alone(OneDictionary),
    Object(ObjectWord),
}

/// The first word of a command, by the words that stand behind it.
#[derive(Clone, Copy, Debug, PartialEq, Eq)]
pub(crate) enum FirstWord {
    Region(RegionWord),
    Dictionary(DictionaryWord),
}

// The first words, each in the slot of its spelling. No two have the same.
static SLOTS: [Option<FirstWord>; 64] = [
    Some(Region(One(Segments))),
    None,
    Some(Dictionary(Alone(Shut))),
    Some(Dictionary(View)),
    Some(Region(One(Check))),
    Some(Dictionary(Object(Prev))),
    None,
    Some(Dictionary(Dict)),
    Some(Dictionary(Object(Detach))),
    Some(Region(Resize)),
    Some(Region(Numbers(Align))),
    Some(Region(Place(Addr))),
    None,
    None,
    Some(Region(One(Close))),
    Some(Dictionary(Alone(Last))),
    Some(Dictionary(Delete)),
    Some(Region(One(Profile))),
    None,
    Some(Dictionary(Method)),
    None,
    None,
    None,
    None,
    None,
    Some(Dictionary(Object(MatchKey))),
    None,
    Some(Region(Block(Size))),
    Some(Region(One(Clear))),
    Some(Region(One(Blocks))),
    Some(Region(Open)),
    Some(Region(Block(Watch))),
    None,
    Some(Dictionary(Alone(Walk))),
    Some(Dictionary(Object(Next))),
    None,
    None,
    None,
    Some(Dictionary(Alone(First))),
    Some(Region(Numbers(Read))),
    Some(Region(Write)),
    None,
    Some(Region(Place(Segment))),
    Some(Region(Block(Free))),
    None,
    Some(Region(Alloc)),
    Some(Region(One(Stat))),
    None,
    Some(Dictionary(Alone(Count))),
    Some(Dictionary(Alone(Empty))),
    Some(Dictionary(Object(Search))),
    Some(Dictionary(Object(Attach))),
    None,
    None,
    None,
    Some(Region(Poke)),
    None,
    None,
    Some(Dictionary(Object(Insert))),
    None,
    Some(Region(One(Compact))),
    None,
    None,
    Some(Dictionary(Object(Append))),
];

// The only first word that may be spelled so, by the length and by the first, third and fourth byte.
fn likely(word: &[u8]) -> Option<FirstWord>
    ensures { (w : FirstWord) → word.now ≡ spelling w → result ≡ Some w }
{
    let len = word.len();
    if len < 4 || 8 < len {
        return None;
    }
    let slot = 22 * len
        + 7 * usize::from(word[0])
        + usize::from(word[2])
        + 20 * usize::from(word[3]);
    SLOTS[slot % 64]
}

fn one_region_spelling(word: OneRegion) -> &'static [u8]
    ensures { result.now ≡ one_region_spelling word }
{
    match word {
        OneRegion::Close => b"close",
        OneRegion::Clear => b"clear",
        OneRegion::Compact => b"compact",
        OneRegion::Stat => b"stat",
        OneRegion::Segments => b"segments",
        OneRegion::Blocks => b"blocks",
        OneRegion::Check => b"check",
        OneRegion::Profile => b"profile",
    }
}

fn block_spelling(word: BlockWord) -> &'static [u8]
    ensures { result.now ≡ block_spelling word }
{
    match word {
        BlockWord::Free => b"free",
        BlockWord::Size => b"size",
        BlockWord::Watch => b"watch",
    }
}

fn place_spelling(word: PlaceWord) -> &'static [u8]
    ensures { result.now ≡ place_spelling word }
{
    match word {
        PlaceWord::Addr => b"addr",
        PlaceWord::Segment => b"segment",
    }
}

fn numbers_spelling(word: NumbersWord) -> &'static [u8]
    ensures { result.now ≡ numbers_spelling word }
{
    match word {
        NumbersWord::Align => b"align",
        NumbersWord::Read => b"read",
    }
}

fn one_dictionary_spelling(word: OneDictionary) -> &'static [u8]
    ensures { result.now ≡ one_dictionary_spelling word }
{
    match word {
        OneDictionary::First => b"first",
        OneDictionary::Last => b"last",
        OneDictionary::Walk => b"walk",
        OneDictionary::Count => b"count",
        OneDictionary::Empty => b"empty",
        OneDictionary::Shut => b"shut",
    }
}

fn object_spelling(word: ObjectWord) -> &'static [u8]
    ensures { result.now ≡ object_spelling word }
{
    match word {
        ObjectWord::Insert => b"insert",
        ObjectWord::Append => b"append",
        ObjectWord::Attach => b"attach",
        ObjectWord::Detach => b"detach",
        ObjectWord::Search => b"search",
        ObjectWord::MatchKey => b"match",
        ObjectWord::Next => b"next",
        ObjectWord::Prev => b"prev",
    }
}

fn region_spelling(word: RegionWord) -> &'static [u8]
    ensures { result.now ≡ region_spelling word }
{
    match word {
        RegionWord::Open => b"open",
        RegionWord::Alloc => b"alloc",
        RegionWord::Resize => b"resize",
        RegionWord::Write => b"write",
        RegionWord::Poke => b"poke",
        RegionWord::One(word) => one_region_spelling(word),
        RegionWord::Block(word) => block_spelling(word),
        RegionWord::Place(word) => place_spelling(word),
        RegionWord::Numbers(word) => numbers_spelling(word),
    }
}

fn dictionary_spelling(word: DictionaryWord) -> &'static [u8]
    ensures { result.now ≡ dictionary_spelling word }
{
    match word {
        DictionaryWord::Dict => b"dict",
        DictionaryWord::Delete => b"delete",
        DictionaryWord::View => b"view",
        DictionaryWord::Method => b"method",
        DictionaryWord::Alone(word) => one_dictionary_spelling(word),
        DictionaryWord::Object(word) => object_spelling(word),
    }
}

fn spelling(word: FirstWord) -> &'static [u8]
    ensures { result.now ≡ spelling word }
{
    match word {
        FirstWord::Region(word) => region_spelling(word),
        FirstWord::Dictionary(word) => dictionary_spelling(word),
    }
}

// The first word that is spelled so: one look-up, and one compare of the whole word.
pub(crate) fn first_word(word: &[u8]) -> Option<FirstWord>
    ensures { (w : FirstWord) → (result ≡ Some w) ↔ (word.now ≡ spelling w) }
{
    match likely(word) {
        Some(found) => {
            if word == spelling(found) {
                Some(found)
            } else {
                None
            }
        }
        None => None,
    }
}
