//! Laws: functions that do nothing when they run, and whose contracts are facts about the definitions.

ghost use Rattle.std.specs.Prelude.{◌≡◌, ℕ, List};
ghost use Rattle.net_data.specs.Network.{Network};
ghost use Rattle.net_text.specs.Faults.{Answer};
ghost use Rattle.net_text.specs.Reading.{Says};

/// The law: a text says at most one answer, so what `load` answers is the answer.
pub fn one_answer_law()
    ensures { (text : List ℕ) (a b : Answer Network) → Says text a → Says text b → a ≡ b }
{}
