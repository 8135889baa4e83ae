//! A law: a function that does nothing when it runs, and whose contract is a fact about the definitions.

ghost use Rattle.std.specs.Prelude.{◌≡◌, ℕ, List, Option};
ghost use Rattle.net_data.specs.Network.{Network};
ghost use Rattle.net_data.specs.Valid.{IsValid};
ghost use Rattle.script_words.specs.declared.questions.Question.{Question};
ghost use Rattle.what_if.specs.declared.mending.SetLink.{SetLink};
ghost use Rattle.what_if.specs.declared.wanted.Wanted.{Wanted};
ghost use Rattle.answers.specs.Rows.{IsMendAt, answer_about};
ghost use Rattle.answers.specs.declared.answer.Answer.{Answer};
ghost use Rattle.answers.specs.declared.answer.RowAnswer.{RowAnswer};

/// The law: what `mend` and `mend allowed` answer about a valid network means what it says. The links that are told are the network's own,
/// restoring them does what is wanted, and no links that do take less; and if none are told, no restoring does it. It does nothing when
/// it runs.
pub fn mend_law()
    ensures reached { (net : Network) → IsValid net → (y x : ℕ) (told : Option (List SetLink)) → answer_about Question.Mend net y x ≡ Answer.Row (RowAnswer.Mend told) → IsMendAt net x Wanted.Reached y told }
    ensures allowed { (net : Network) → IsValid net → (y x : ℕ) (told : Option (List SetLink)) → answer_about Question.MendAllowed net y x ≡ Answer.Row (RowAnswer.Mend told) → IsMendAt net x Wanted.Allowed y told }
{}
