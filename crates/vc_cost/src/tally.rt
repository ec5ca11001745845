ghost use Rattle.std.specs.Prelude.{◌≡◌, ◌+◌, ◌<◌, ◌≤◌, ◌^◌, max};
ghost use Rattle.vc_cost.specs.Made.{came, found_by, went};

// What a call did.
#[derive(Clone, Copy, Debug)]
pub(crate) enum Made {
    // It put a holder in.
    Linked,
    // It took a holder out.
    Taken,
    // It was a search that found an object.
    Found,
    // It found none.
    Missed,
}

// What is counted of calls that are made one after another.
#[derive(Clone, Copy, Debug)]
pub(crate) struct Tally {
    // How many holders there are.
    pub count: u64,
    // The most that there were after a call.
    pub greatest: u64,
    // How many searches found an object.
    pub found: u64,
}

impl Tally {
    // Counts one more call.
    pub fn note(&mut self, made: Made)
        requires room { self.old.count + came made < 2 ^ 64 }
        requires there { went made ≤ self.old.count }
        requires found { self.old.found + found_by made < 2 ^ 64 }
        ensures count { self.new.count + went made ≡ self.old.count + came made }
        ensures greatest { self.new.greatest ≡ max self.old.greatest self.new.count }
        ensures found { self.new.found ≡ self.old.found + found_by made }
    {
        match made {
            Made::Linked => self.count += 1,
            Made::Taken => self.count -= 1,
            Made::Found => self.found += 1,
            Made::Missed => {}
        }
        self.greatest = self.greatest.max(self.count);
    }
}
