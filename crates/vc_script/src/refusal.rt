/// Why a command was refused, in the order in which refusals are looked for. R is the region that the command names, X the
/// block, D the dictionary, E the one that it is to view, and K the kind.
#[derive(Clone, Copy, Debug, PartialEq, Eq)]
pub enum Refusal {
    /// R isn't the name of a region.
    NoRegion,
    /// At `open`: R is the name of a region already.
    RegionExists,
    /// At `open`: the shelf has no place of that number.
    NoSuchDiscipline,
    /// At `open`: the discipline of that place is taken.
    DisciplineInUse,
    /// X isn't a block of R, nor kept as freed.
    NoBlock,
    /// At `alloc` and `align`: X is a block of R already.
    BlockExists,
    /// R is a debug region, and keeps X as freed by the command of that line.
    FreedAt(u32),
    /// D, or E, isn't the name of a dictionary.
    NoDictionary,
    /// At `dict`: D is the name of a dictionary already.
    DictionaryExists,
    /// At `dict`: K is 0, or above the number of kinds.
    NoSuchKind,
    /// The command isn't allowed in the method of the region or of the dictionary.
    WrongMethod,
    /// A size isn't 1 to 16,777,216 bytes, an alignment isn't a power of two from 32 to 4,096 bytes, or an object or a key
    /// isn't 1 to 1,024 bytes.
    Size,
    /// An offset with its length passes the block's size, a length isn't 1 to 4,096 bytes, or at `poke` the offset isn't
    /// -32 to the block's size + 15, or the byte is above 255.
    Range,
    /// R has 1,000,000 names of blocks already, and X isn't one that it keeps as freed.
    TooManyBlocks,
    /// At `dict`: there are 256 dictionaries already.
    TooManyDictionaries,
    /// The size is above the size of the pool's elements.
    PoolSize,
    /// The block isn't the last one of its `last` region.
    NotLast,
    /// At `resize`: the block can't stay where it is, and the mode is `fixed`.
    CannotGrow,
    /// At `close` and `clear`: a dictionary lies in the region.
    Busy,
    /// At `shut` and `method`: another dictionary views D; at `method` also where D views one.
    Viewed,
    /// At `view`: the methods or the kinds of D and E differ.
    ViewDiffers,
    /// At `view`: D is on the path of E, or is E itself.
    ViewCycle,
    /// At `view`: some path would have more than 16 dictionaries.
    ViewTooDeep,
    /// A segment was needed, and R has 1,023 already, or its one that grows is full.
    TooManySegments,
    /// A segment was needed for a block, and the discipline refused it.
    NoSegment,
    /// A segment was needed for the table of a dictionary, and the discipline refused it.
    NoSegmentForTable,
    /// A segment was needed for an object of a dictionary, and the discipline refused it.
    NoSegmentForObject,
}
