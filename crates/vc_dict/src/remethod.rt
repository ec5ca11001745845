ghost use Rattle.std.specs.Prelude.{◌≡◌, ◌≢◌, ℕ, List, true, false, ◌&&◌, if◌then◌else◌};
ghost use Rattle.vc_base.specs.Prelude.{Blocks, has_table};
ghost use Rattle.vc_dtlist.specs.TableWrites.{ChangesIn};
ghost use Rattle.vc_dict.specs.Methods.{slots_between};
ghost use Rattle.vc_dict.specs.Stands.{Stands, slots_in, table_in};
ghost use Rattle.vc_dict.specs.Turned.{CanRemethod, Remethoded, Unchanged};

use crate::dict::{Dict, Dropped};
use crate::dropping::weed_by;
use crate::forming::in_form;
use crate::pass::order_by;
use vc_base::{Addr, Cells, DictMethod, Steps};
use vc_dtdisc::DictDisc;
use vc_dthash::DtHash;

impl Dict {
    /// The slots of the table that a change to a method needs, by the count before any is dropped: 16, doubled until two
    /// objects for each are enough, at most 17 times. None where that method is neither set nor bag, or the present one
    /// is. This project's own.
    pub fn table_for(&self, method: DictMethod) -> Option<u32>
        ensures { result ≡ slots_between self.now.method method self.now.count }
    {
        if self.method.has_table() {
            None
        } else if method.has_table() {
            DtHash::new().wants_table(self.count)
        } else {
            None
        }
    }

    // The table that it has by a method, unless it has none: its own between set and bag, and else the one that was brought.
    fn table_by(&self, method: DictMethod, table: Addr, slots: u32) -> (Addr, u32)
        ensures table { result.0 ≡ (if has_table method && has_table self.now.method
            then table_in self.now else table) }
        ensures slots { result.1 ≡ (if has_table method && has_table self.now.method
            then slots_in self.now else slots) }
    {
        if method.has_table() && self.method.has_table() {
            (self.heads.table(), self.heads.slots())
        } else {
            (table, slots)
        }
    }

    // Its own table where a method needs none, or none.
    fn table_left(&self, method: DictMethod) -> Addr
        ensures { result.0 ≡ (if has_table method then 0 else (table_in self.now).0) }
    {
        if method.has_table() {
            Addr::NONE
        } else {
            self.heads.table()
        }
    }

    // Turns it to another method.
    fn change<C: Cells, D: DictDisc, L>(
        &mut self,
        cells: &mut C,
        kind: &D,
        method: DictMethod,
        table: Addr,
        slots: u32,
        steps: &mut Steps<L>,
    ) -> Dropped
        requires { CanRemethod (D.rules kind.now) self.old (C.blocks cells.old) method table.0
            slots }
        ensures { ChangesIn C.blocks C.RestStays cells.old cells.new
            (λ old new. (holders : List ℕ) → Stands (D.rules kind.now) self.old old holders
            → Remethoded (D.rules kind.now) method table.0 slots holders self.old old self.new new
            result) }
    {
        let list = self.heads.into_list(self.count, cells);
        let ordered = order_by(list, self.count, method, cells, kind, steps);
        let left = self.table_left(method);
        let (table, slots) = self.table_by(method, table, slots);
        let whole = DtHash {
            first: ordered.first,
            last: ordered.last,
            table,
            slots,
            count: self.count,
        };
        let weeded = weed_by(method, whole, cells, kind, steps);
        self.heads = in_form(
            method,
            weeded.kept,
            weeded.count,
            table,
            slots,
            cells,
            kind,
            steps,
        );
        self.method = method;
        self.count = weeded.count;
        self.current = Addr::NONE;
        Dropped {
            first: weeded.dropped.first,
            table: left,
        }
    }

    /// Turns the dictionary to a method, unless it is the present one. Ordered methods order the objects by key, stably,
    /// and sets then drop each object that matches an earlier one; else the order stays. No object is current then. A
    /// change for which `table_for` is a number takes a table of so many slots, a block as for `adopt_table`; any other
    /// takes `Addr::NONE` and 0 slots. After Cdt's dtmethod.
    pub fn remethod<C: Cells, D: DictDisc, L>(
        &mut self,
        cells: &mut C,
        kind: &D,
        method: DictMethod,
        table: Addr,
        slots: u32,
        steps: &mut Steps<L>,
    ) -> Dropped
        requires { CanRemethod (D.rules kind.now) self.old (C.blocks cells.old) method table.0
            slots }
        ensures dict { method ≢ self.old.method → (holders : List ℕ)
            → Stands (D.rules kind.now) self.old (C.blocks cells.old) holders
            → Remethoded (D.rules kind.now) method table.0 slots holders self.old
            (C.blocks cells.old) self.new (C.blocks cells.new) result }
        ensures same { method ≡ self.old.method
            → Unchanged self.old (C.blocks cells.old) self.new (C.blocks cells.new) result }
        ensures rest { C.RestStays cells.old cells.new }
    {
        if method == self.method {
            return Dropped {
                first: Addr::NONE,
                table: Addr::NONE,
            };
        }
        self.change(cells, kind, method, table, slots, steps)
    }
}
