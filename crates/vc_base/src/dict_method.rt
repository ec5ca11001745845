/// How a dictionary orders its objects and whether it keeps equal ones.
#[derive(Clone, Copy, Debug, PartialEq, Eq)]
pub enum DictMethod {
    /// A set in no order; no two objects match.
    DtSet,
    /// A bag in no order; objects may match.
    DtBag,
    /// A set in order of keys.
    DtOset,
    /// A bag in order of keys.
    DtObag,
    /// A list, in which objects stand where they are put.
    DtList,
    /// A list whose last object comes out first.
    DtStack,
    /// A list whose first object comes out first.
    DtQueue,
}

impl DictMethod {
    ghost use Rattle.std.specs.Prelude.{◌≡◌};
    ghost use Rattle.vc_base.specs.Methods.{has_table, is_list, is_ordered, is_set};

    /// Whether no two objects match: in sets and ordered sets. It can't fail.
    pub fn is_set(self) -> bool
        ensures { result ≡ is_set self }
    {
        match self {
            DictMethod::DtSet | DictMethod::DtOset => true,
            _ => false,
        }
    }

    /// Whether objects stand in order of their keys: in ordered sets and bags. It can't fail.
    pub fn is_ordered(self) -> bool
        ensures { result ≡ is_ordered self }
    {
        match self {
            DictMethod::DtOset | DictMethod::DtObag => true,
            _ => false,
        }
    }

    /// Whether a dictionary of this method has a table: sets and bags have one. It can't fail.
    pub fn has_table(self) -> bool
        ensures { result ≡ has_table self }
    {
        match self {
            DictMethod::DtSet | DictMethod::DtBag => true,
            _ => false,
        }
    }

    /// Whether objects are appended, and put before and behind others: to lists alone. It can't fail.
    pub fn is_list(self) -> bool
        ensures { result ≡ is_list self }
    {
        match self {
            DictMethod::DtList => true,
            _ => false,
        }
    }
}
