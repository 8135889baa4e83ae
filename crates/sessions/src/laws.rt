//! Laws: functions that do nothing when they run, and whose contracts are facts about the definitions.

ghost use Rattle.std.specs.Prelude.{◌≡◌, ◌≢◌, ◌==◌, ℕ, ◌++◌, List, [], ◌∷◌, codes, false, not, true};
ghost use Rattle.std.specs.List.{list_all};
ghost use Rattle.tokens.specs.Words.{words_of};
ghost use Rattle.sessions.specs.Lines.{whole_lines, rest_of, trimmed};
ghost use Rattle.sessions.specs.Quitting.{until_quit};
ghost use Rattle.sessions.specs.Input.{has_mark, text_part, script_part};

/// The law: an input that is put together from a text, whose lines are ended and are not `%%`, the line `%%`, and a
/// script, has them as its parts.
pub fn input_parts_law()
    ensures { (text script : List ℕ) → has_mark (whole_lines text) ≡ false → rest_of text ≡ []
        → (text_part (text ++ codes "%%" ++ 10 ∷ script) ≡ text) × (script_part (text ++ codes "%%" ++ 10 ∷ script) ≡ script) }
{}

/// The law: a line with the word `quit` alone ends an input, and no other line does. It does nothing when it runs.
pub fn quit_law()
    ensures ends { (line more : List ℕ) → list_all (λ b. not (b == 10)) line ≡ true → words_of (trimmed line) ≡ codes "quit" ∷ []
        → until_quit (line ++ 10 ∷ more) ≡ line ++ 10 ∷ [] }
    ensures goes_on { (line more : List ℕ) → list_all (λ b. not (b == 10)) line ≡ true → words_of (trimmed line) ≢ codes "quit" ∷ []
        → until_quit (line ++ 10 ∷ more) ≡ line ++ 10 ∷ until_quit more }
{}
