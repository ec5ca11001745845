ghost use Rattle.std.specs.Prelude.{◌≡◌, ◌≤◌, [], ◌++◌, codes, decimal, length, option_map, unwrap_or};
ghost use Rattle.vc_script.specs.Print.{refusal_text};

use crate::Refusal;

// The words of the reply of a refusal, and the number behind them, where there is one.
pub(crate) fn refused_words(why: Refusal) -> (&'static [u8], Option<u32>)
    ensures words { result.0.now ++ unwrap_or (option_map decimal result.1) []
        ≡ codes "refused: " ++ refusal_text why }
    ensures short { length result.0.now ≤ 32 }
{
    match why {
        Refusal::NoRegion => (b"refused: no region", None),
        Refusal::RegionExists => (b"refused: region exists", None),
        Refusal::NoSuchDiscipline => (b"refused: no such discipline", None),
        Refusal::DisciplineInUse => (b"refused: discipline in use", None),
        Refusal::NoBlock => (b"refused: no block", None),
        Refusal::BlockExists => (b"refused: block exists", None),
        Refusal::FreedAt(number) => (b"refused: freed at line ", Some(number)),
        Refusal::NoDictionary => (b"refused: no dictionary", None),
        Refusal::DictionaryExists => (b"refused: dictionary exists", None),
        Refusal::NoSuchKind => (b"refused: no such kind", None),
        Refusal::WrongMethod => (b"refused: wrong method", None),
        Refusal::Size => (b"refused: size", None),
        Refusal::Range => (b"refused: range", None),
        Refusal::TooManyBlocks => (b"refused: too many blocks", None),
        Refusal::TooManyDictionaries => (b"refused: too many dictionaries", None),
        Refusal::PoolSize => (b"refused: pool size", None),
        Refusal::NotLast => (b"refused: not last", None),
        Refusal::CannotGrow => (b"refused: cannot grow here", None),
        Refusal::Busy => (b"refused: busy", None),
        Refusal::Viewed => (b"refused: viewed", None),
        Refusal::ViewDiffers => (b"refused: view differs", None),
        Refusal::ViewCycle => (b"refused: view cycle", None),
        Refusal::ViewTooDeep => (b"refused: view too deep", None),
        Refusal::TooManySegments => (b"refused: too many segments", None),
        Refusal::NoSegment => (b"refused: no segment", None),
        Refusal::NoSegmentForTable => (b"refused: no segment for table", None),
        Refusal::NoSegmentForObject => (b"refused: no segment for object", None),
    }
}
