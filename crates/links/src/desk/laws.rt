//! Laws of desk commands, for callers to cite.
ghost use Rattle.std.specs.Prelude.{◌≡◌, ℕ, List};
ghost use Rattle.boxes.specs.Commands.{HasForm};
ghost use Rattle.boxes.specs.Steps.{Command};
ghost use Rattle.links.specs.CommandTexts.{IsCommand};

/// A text stands for at most one command.
pub fn law_of_commands()
    ensures one { (text : List ℕ) (a b : Command) → IsCommand text a → HasForm a
        → IsCommand text b → HasForm b → b ≡ a }
{}
