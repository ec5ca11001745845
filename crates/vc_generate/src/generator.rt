ghost use Rattle.std.specs.Prelude.{◌≡◌, true, IfOk, OnErr};
ghost use Rattle.vc_generate.specs.Generated.{commands_of_seed};
ghost use Rattle.vc_generate.specs.Next.{IsNext, is_object_next};

use crate::block::take_command;
use crate::fixed::{closing_command, opening_command};
use crate::object::object_command;
use crate::words::Words;
use std::marker::Model;
use vc_base::OutOfMemory;
use vc_script::{Command, Tool};

/// The commands that a tool makes of a seed, one for each word of PCG32 between a fixed beginning and end (this
/// project's own rule). A generator stands for the commands that are still to come.
#[derive(Drop)]
pub struct Generator {
    tool: Tool,
    opened: u8,
    taken: [bool; 256],
    words: Words,
    closed: u8,
}

impl Model for Generator {
    ghost use Rattle.std.specs.Prelude.{List};
    ghost use Rattle.vc_script.specs.declared.command.Command.{Command};
    ghost use Rattle.vc_generate.specs.ToCome.{to_come};

    ghost Value = { List Command };

    ghost view = { λ g. to_come g.tool g.opened g.taken g.words g.closed };
}

impl Generator {
    /// The commands of `tool` for the first `count` words of `seed`, of which the tools ask for 1 to 1,000,000. Takes
    /// no memory.
    ///
    /// vmreplay opens `r`, allocates, resizes and frees blocks `x0` to `x255` of 1 to 1000 bytes, and closes `r`. dtrun
    /// opens `r` and the ordered set `d`, inserts, deletes and searches objects `k0` to `k999`, and ends both.
    pub fn new(tool: Tool, count: u32, seed: u32) -> Generator
        ensures { result ≡ commands_of_seed tool count seed }
    {
        Generator {
            tool,
            opened: 0,
            taken: [false; 256],
            words: Words::new(seed, count),
            closed: 0,
        }
    }

    /// The next command, or None behind the last one and at each later call. An object lies in the memory of `room`, which
    /// is made larger where it must be; what was in it doesn't matter.
    ///
    /// # Errors
    /// [`OutOfMemory`] where there's none for the object of the next command, which is then still to come.
    pub fn next(&mut self, room: Vec<u8>) -> Result<Option<Command>, OutOfMemory>
        ensures next { IfOk result (λ command. IsNext command self.old self.new) }
        ensures stays { OnErr result (self.new ≡ self.old) }
        ensures memory { OnErr result (is_object_next self.old ≡ true) }
    {
        if let Some(command) = opening_command(self.tool, self.opened) {
            self.opened += 1;
            return Ok(Some(command));
        }
        if let Some(word) = self.words.first() {
            let command = match self.tool {
                Tool::Vmreplay => take_command(&mut self.taken, word),
                Tool::Dtrun => object_command(room, word)?,
            };
            self.words.advance();
            return Ok(Some(command));
        }
        let Some(command) = closing_command(self.tool, self.closed) else {
            return Ok(None);
        };
        self.closed += 1;
        Ok(Some(command))
    }
}
