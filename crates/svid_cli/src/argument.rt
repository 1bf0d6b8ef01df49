use crate::form::Form;
use clap::{Arg, ArgAction};
use std::alloc::{AllocError, Global};

/// An argument of a command.
pub struct Argument {
    /// Its name, without the two dashes.
    pub name: &'static str,
    /// An earlier name, which help does not show.
    pub alias: Option<&'static str>,
    /// What help calls its value, where it has one.
    pub value: &'static str,
    pub form: Form,
    pub required: bool,
    pub help: &'static str,
}

impl Argument {
    /// The argument for clap.
    pub fn to_clap<'a>(&self, alloc: Global) -> Result<Arg<'a>, AllocError> {
        let mut arg = Arg::new(alloc, self.name)
            .value_name(self.value)
            .required(self.required)
            .help(self.help);
        if let Some(alias) = self.alias {
            arg = arg.alias(alias)?;
        }
        Ok(match self.form {
            Form::Word => arg,
            Form::Words(least) => arg.num_args(least..).action(ArgAction::Append),
            Form::Named => arg.long(self.name),
            Form::Repeated => arg.long(self.name).action(ArgAction::Append),
            Form::Number => arg.long(self.name).value_parser(clap::value_parser!(u64)),
            Form::Flag => arg.long(self.name).action(ArgAction::SetTrue),
        })
    }
}
