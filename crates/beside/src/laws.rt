//! A law: a function that does nothing when it runs, and whose contract is a fact about the definitions.

ghost use Rattle.std.specs.Prelude.{◌≡◌, ◌∷◌, ℕ, List, Some, true};
ghost use Rattle.answers.specs.Help.{is_of_workers};
ghost use Rattle.answers.specs.declared.answer.Answer.{Answer};
ghost use Rattle.answers.specs.declared.answer.Reason.{Reason};
ghost use Rattle.script_words.specs.Commands.{command_of};
ghost use Rattle.script_words.specs.declared.commands.Command.{Command};
ghost use Rattle.beside.specs.Beside.{BesideValue, DoesBeside, Tells};

/// The law: the words of which `help` says that they are refused beside workers are. A command that begins with one is answered so, and
/// changes nothing. It does nothing when it runs.
pub fn workers_law()
    ensures { (first : List ℕ) (rest : List (List ℕ)) (command : Command) (seats : ℕ) (old new : BesideValue) (answer : Answer) → command_of (first ∷ rest) ≡ Some command
        → is_of_workers first ≡ true → DoesBeside seats command old answer new → Tells (Answer.Refused Reason.BadLine) old answer new }
{}
