//! Laws: functions that do nothing when they run, and whose contracts are facts about the definitions.

ghost use Rattle.std.specs.Prelude.{◌≡◌, ℕ, ◌↔◌, List, ◌∷◌, Some, ◌^◌, ◌<◌};
ghost use Rattle.net_data.specs.declared.events.Event.{Event};
ghost use Rattle.script_words.specs.Commands.{command_of};
ghost use Rattle.script_words.specs.declared.commands.Command.{Command};
ghost use Rattle.script_words.specs.Events.{event_of};
ghost use Rattle.script_words.specs.EventWords.{IsEvent, IsWritten};
ghost use Rattle.script_words.specs.Forms.{IsExample, IsListed, command_forms};
ghost use Rattle.std.specs.Fmt.{decimal};
ghost use Rattle.std.specs.List.{All};
ghost use Rattle.script_words.specs.Numbers.{sequence_of};

/// The law: the words of an event are exactly what is written of it. It does nothing when it runs.
pub fn event_law()
    ensures { (event : Event) (words : List (List ℕ)) → (event_of words ≡ Some event) ↔ (IsEvent event × IsWritten event words) }
{}

/// The law: the sequence numbers' tokens are exactly what is written of the numbers below 2^64. It does nothing when it
/// runs.
pub fn sequence_law()
    ensures { (n : ℕ) (text : List ℕ) → (sequence_of text ≡ Some n) ↔ ((n < 2 ^ 64) × (text ≡ decimal n)) }
{}

/// The law: each example of the table, but those of `help` and `quit`, is a command that begins with its word, and each word that begins a
/// command stands in the table. It does nothing when it runs.
pub fn forms_law()
    ensures examples { All IsExample command_forms }
    ensures complete { (first : List ℕ) (rest : List (List ℕ)) (command : Command) → command_of (first ∷ rest) ≡ Some command → IsListed first }
{}
