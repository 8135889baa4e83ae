//! Laws: functions that do nothing when they run, and whose contracts are facts about the definitions.

ghost use Rattle.std.specs.Prelude.{◌≡◌, ◌<◌, ◌≤◌, ◌↔◌, ℕ, List, Some, ◌^◌};
ghost use Rattle.point_codes.specs.Codes.{code_of, code_text, IsCode};
ghost use Rattle.std.specs.Fmt.{decimal};
ghost use Rattle.point_codes.specs.Numbers.{number_of};

/// The law: a text is read as a code exactly if it is that code's text.
pub fn code_law()
    ensures { (n : ℕ) (text : List ℕ) → (code_of text ≡ Some n) ↔ (IsCode n × (text ≡ code_text n)) }
{}

/// The law: a text is read as a number exactly if it is what `{}` writes of that number, and the number is within
/// the limit.
pub fn number_law()
    ensures { (most n : ℕ) (text : List ℕ) → most < 2 ^ 32 → (number_of most text ≡ Some n) ↔ ((n ≤ most) × (text ≡ decimal n)) }
{}
