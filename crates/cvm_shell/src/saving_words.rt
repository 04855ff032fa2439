// The words of a save and of a resume.
ghost use Rattle.std.specs.Prelude.{◌≡◌, IfSome, IfNone, Some, option_map};
ghost use Rattle.run_scripts.specs.Command as command;
ghost use Rattle.cvm_shell.specs.Views.{save_view};

use crate::command::{Boot, read_number, read_turns};
use run_scripts::StartPoint;

/// The command `save IMAGE SCHEDULE TURNS STEPS FILE`, or `resume IMAGE SCHEDULE TURNS STEPS FILE`.
#[derive(Clone, Copy, Drop)]
pub struct Save<'a> {
    /// What is booted, and how long it runs, counted from its start.
    pub boot: Boot<'a>,
    /// The name of the file of its saved machine.
    pub file: &'a str,
}

/// Reads the words of a save, None where they aren't those of one.
pub fn read_save(words: &Vec<String>) -> Option<Save<'_>>
    ensures found { IfSome result (λ c. command.IsSave (command.word_texts words.now.items) (save_view c)) }
    ensures only { (c : command.Save) → command.IsSave (command.word_texts words.now.items) c → option_map save_view result ≡ Some c }
    ensures none { IfNone result ((c : command.Save) → command.IsSave (command.word_texts words.now.items) c → ⊥) }
{
    read_by(words, "save")
}

/// Reads the words of a resume, None where they aren't those of one.
pub fn read_resume(words: &Vec<String>) -> Option<Save<'_>>
    ensures found { IfSome result (λ c. command.IsResume (command.word_texts words.now.items) (save_view c)) }
    ensures only { (c : command.Save) → command.IsResume (command.word_texts words.now.items) c → option_map save_view result ≡ Some c }
    ensures none { IfNone result ((c : command.Save) → command.IsResume (command.word_texts words.now.items) c → ⊥) }
{
    read_by(words, "resume")
}

// Reads the words of a boot behind this first word, with the name of a file behind them.
fn read_by<'a>(words: &'a Vec<String>, first: &str) -> Option<Save<'a>>
    ensures found { IfSome result (λ c. command.IsSaveBy first.now (command.word_texts words.now.items) (save_view c)) }
    ensures only { (c : command.Save) → command.IsSaveBy first.now (command.word_texts words.now.items) c → option_map save_view result ≡ Some c }
    ensures none { IfNone result ((c : command.Save) → command.IsSaveBy first.now (command.word_texts words.now.items) c → ⊥) }
{
    let [word, image, schedule, turns, steps, file] = words.as_slice() else {
        return None;
    };
    if word.as_str() != first {
        return None;
    }
    let turns = read_turns(turns.as_str())?;
    let steps = read_number(steps.as_str())?;
    Some(Save {
        boot: Boot {
            start: StartPoint::Loaded,
            image: image.as_str(),
            schedule: schedule.as_str(),
            turns,
            steps,
        },
        file: file.as_str(),
    })
}
