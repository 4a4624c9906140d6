//! Finds the version script of a script.

ghost use Rattle.std.specs.Prelude.{◌≡◌};
ghost use Rattle.std.specs.Option.{option_copied};
ghost use Rattle.wild_script.specs.Versions as spec;

use crate::tree::LinkerScript;
use wild_names::Name;
use wild_script_tree::Command;

fn version_content(command: &Command) -> Option<&Name>
    ensures { option_copied result ≡ spec.version_content command.now }
{
    match command {
        Command::Version(content) => Some(content),
        _ => None,
    }
}

impl LinkerScript {
    /// The content of the first VERSION, if there is one. Those in brackets do not count.
    pub fn get_version_script_content(&self) -> Option<&Name>
        ensures { option_copied result ≡ spec.first_version self.now.commands }
    {
        for command in self.commands.as_slice() {
            let content = version_content(command);
            if content.is_some() {
                return content;
            }
        }
        None
    }
}
