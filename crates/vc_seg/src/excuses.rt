ghost use Rattle.std.specs.Prelude.{◌≡◌, true, false};
ghost use Rattle.vc_model.specs.Discipline.{excused, no_exceptions, pleaded};

use std::marker::Model;
use vc_base::one_more;

/// Whether a discipline is armed, and how often it was asked for an exception and made one.
#[derive(Drop)]
pub struct Excuses {
    armed: bool,
    told: u64,
    yes: u64,
}

impl Model for Excuses {
    ghost use Rattle.vc_model.specs.Discipline.{Exceptions};

    ghost Value = { Exceptions };

    ghost view = { λ e. record {
      armed = e.armed;
      told = e.told;
      yes = e.yes;
    } };
}

impl Excuses {
    pub fn new() -> Excuses
        ensures { result ≡ no_exceptions }
    {
        Excuses {
            armed: false,
            told: 0,
            yes: 0,
        }
    }

    pub fn armed(&self) -> bool
        ensures { result ≡ self.now.armed }
    {
        self.armed
    }

    pub fn told(&self) -> u64
        ensures { result ≡ self.now.told }
    {
        self.told
    }

    pub fn yes(&self) -> u64
        ensures { result ≡ self.now.yes }
    {
        self.yes
    }

    pub fn arm(&mut self, on: bool)
        ensures { self.new ≡ record {
          armed = on;
          told = self.old.told;
          yes = self.old.yes;
        } }
    {
        self.armed = on;
    }

    /// It was asked for an exception, and made none.
    pub fn refuse(&mut self)
        ensures { self.new ≡ pleaded self.old }
    {
        self.told = one_more(self.told);
    }

    /// It was asked for an exception, and made one.
    pub fn grant(&mut self)
        ensures { self.new ≡ excused self.old }
    {
        self.told = one_more(self.told);
        self.yes = one_more(self.yes);
    }
}
