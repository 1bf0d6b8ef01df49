use crate::argument::Argument;
use clap::Command;
use std::alloc::{AllocError, Global};

/// A command of the program.
pub struct Subcommand {
    pub name: &'static str,
    /// The call that prints its help.
    pub help: &'static str,
    pub about: &'static str,
    pub after_help: &'static str,
    pub arguments: &'static [Argument],
}

impl Subcommand {
    /// The command for clap.
    pub fn to_clap<'a>(&self, alloc: Global) -> Result<Command<'a>, AllocError> {
        let mut command = Command::new(alloc, self.name)
            .about(self.about)
            .after_help(self.after_help);
        for argument in self.arguments {
            command = command.arg(argument.to_clap(alloc)?)?;
        }
        Ok(command)
    }
}
