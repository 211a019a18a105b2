ghost use Rattle.std.specs.Prelude.{◌≡◌, option_map};
ghost use Rattle.qvt_work.specs.Words.{command_of};
ghost use Rattle.qvt_cli.specs.Commands.{command_view};

use qvt_base::text::Text;

/// A command with its words.
#[derive(Clone, Copy, Debug)]
pub enum Command<'a> {
    /// Runs the job of this file.
    Run(&'a Text),
    /// Tells whether the model of a file conforms to the metamodel of another.
    Check(&'a Text, &'a Text),
    /// Prints the text of this file in its one printed form.
    Print(&'a Text),
}

/// The command that the words give.
#[tactic(auto, unfolding(qvt_work::specs::Words::command_of))]
pub fn command_of(words: &[Text]) -> Option<Command<'_>>
    ensures { option_map command_view result ≡ command_of words.now }
{
    match words {
        [word, file] => {
            if word.as_str() == "run" {
                Some(Command::Run(file))
            } else if word.as_str() == "print" {
                Some(Command::Print(file))
            } else {
                None
            }
        }
        [word, metamodel, model] => {
            if word.as_str() == "check" {
                Some(Command::Check(metamodel, model))
            } else {
                None
            }
        }
        _ => None,
    }
}
