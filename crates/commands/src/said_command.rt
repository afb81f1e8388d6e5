//! A command together with the fact that a block says it.
ghost use Rattle.std.specs.Prelude.{◌≡◌};
ghost use Rattle.commands.specs.Command.{IsSaid, command_of};

use crate::command::Command;
use std::marker::Model;
use trb::Block;

/// A command that a block says (xHCI 6.4.3). Contracts see the command.
#[derive(Clone, Copy, Debug)]
pub struct SaidCommand {
    command: Command,
}

impl Model for SaidCommand {
    ghost use Rattle.commands.specs.declared.command.Command.{Command};

    ghost Value = { Command };

    ghost use Rattle.commands.specs.Command.{IsSaid};

    ghost view = { λ s. s.command };

    ghost invariant = { λ s. IsSaid s.command };

    ghost inverse = { λ c. record { command = c } };
}

impl SaidCommand {
    /// The command that a block says, whatever its Cycle bit; none where it says none of the profile.
    #[inline(always)]
    pub fn of(block: &Block) -> Option<SaidCommand>
        ensures { result ≡ command_of block.now }
    {
        match Command::read(block) {
            Ok(command) => Some(SaidCommand { command }),
            Err(_) => None,
        }
    }

    /// The command.
    #[inline(always)]
    pub fn get(self) -> Command
        ensures same { result ≡ self }
        ensures said { IsSaid self }
    {
        self.command
    }
}
