ghost use Rattle.std.specs.Prelude.{◌≡◌, ◌∷◌, [], None, Some, replicate, codes};
ghost use Rattle.vc_commands.specs.DictRows.{name};
ghost use Rattle.vc_commands.specs.LookRows.{own_there, reply_there};

use vc_script::{Command, Refusal, Reply};

/// `search` finds the first object with the key of a word, and `match` the first that has a key itself.
pub fn search_rows()
    ensures search { reply_there (Command.Search name (codes "bx")) ≡ Reply.Found (codes "b1") }
    ensures matching { reply_there (Command.MatchKey name (codes "c")) ≡ Reply.Found (codes "c3") }
    ensures whole { reply_there (Command.MatchKey name (codes "c3")) ≡ Reply.Nothing }
    ensures nothing { reply_there (Command.Search name (codes "d")) ≡ Reply.Nothing }
{}

/// The ends, and what stands behind the last match and before the first.
pub fn order_rows()
    ensures first { reply_there (Command.First name) ≡ Reply.Found (codes "a0") }
    ensures last { reply_there (Command.Last name) ≡ Reply.Found (codes "c3") }
    ensures next { reply_there (Command.Next name (codes "b")) ≡ Reply.Found (codes "c3") }
    ensures behind_last { reply_there (Command.Next name (codes "c")) ≡ Reply.Nothing }
    ensures prev { reply_there (Command.Prev name (codes "b")) ≡ Reply.Found (codes "a0") }
    ensures before_first { reply_there (Command.Prev name (codes "a")) ≡ Reply.Nothing }
{}

/// A walk tells all objects, of which equal ones too.
pub fn walk_row()
    ensures { reply_there (Command.Walk name)
        ≡ Reply.Objects (codes "a0" ∷ codes "b1" ∷ codes "b2" ∷ codes "c3" ∷ []) }
{}

/// An object or a key has 1 to 1,024 bytes.
pub fn look_size_rows()
    ensures empty { reply_there (Command.Search name []) ≡ Reply.Refused Refusal.Size }
    ensures most { reply_there (Command.Prev name (replicate 1024 98)) ≡ Reply.Found (codes "a0") }
    ensures search { reply_there (Command.Search name (replicate 1025 98))
        ≡ Reply.Refused Refusal.Size }
    ensures matching { reply_there (Command.MatchKey name (replicate 1025 98))
        ≡ Reply.Refused Refusal.Size }
    ensures next { reply_there (Command.Next name (replicate 1025 98))
        ≡ Reply.Refused Refusal.Size }
    ensures prev { reply_there (Command.Prev name (replicate 1025 98))
        ≡ Reply.Refused Refusal.Size }
{}

/// What is found is current where it is an object of the first dictionary, and else the current one stays.
pub fn own_rows()
    ensures upper { own_there (Command.First name) ≡ Some 64 }
    ensures lower { own_there (Command.Search name (codes "b")) ≡ None }
    ensures nothing { own_there (Command.Search name (codes "d")) ≡ None }
    ensures walk { own_there (Command.Walk name) ≡ None }
    ensures refused { own_there (Command.Search name []) ≡ None }
{}
