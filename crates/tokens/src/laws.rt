//! Laws: functions that do nothing when they run, and whose contracts are facts about the definitions.

ghost use Rattle.std.specs.Prelude.{◌≡◌, ℕ, ◌≤◌, ◌↔◌, List, Some};
ghost use Rattle.std.specs.Fmt.{decimal};
ghost use Rattle.tokens.specs.Numbers.{id_of, slc_of, rank_of};
ghost use Rattle.net_items.specs.declared.lists.Row.{Row};
ghost use Rattle.tokens.specs.Rows.{row_of, row_text, IsRow};
ghost use Rattle.std.specs.List.{AllByRecursion, join_with_byte};
ghost use Rattle.tokens.specs.Words.{words_of, IsWord};
ghost use Rattle.net_items.specs.declared.items.Kind.{Kind};
ghost use Rattle.tokens.specs.Kinds.{kind_of, kind_text};
ghost use Rattle.net_items.specs.declared.links.Link.{Link};
ghost use Rattle.tokens.specs.declared.marked.Format.{Format};
ghost use Rattle.tokens.specs.Marked.{marked_of, marked_text, IsMarked};

/// The law: the ids' tokens are exactly what is written of the ids.
pub fn id_law()
    ensures { (n : ℕ) (text : List ℕ) → (id_of text ≡ Some n) ↔ ((n ≤ 65535) × (text ≡ decimal n)) }
{}

/// The law: the link codes' tokens are exactly what is written of the link codes.
pub fn slc_law()
    ensures { (n : ℕ) (text : List ℕ) → (slc_of text ≡ Some n) ↔ ((n ≤ 255) × (text ≡ decimal n)) }
{}

/// The law: the ranks' tokens are exactly what is written of the ranks.
pub fn rank_law()
    ensures { (n : ℕ) (text : List ℕ) → (rank_of text ≡ Some n) ↔ ((n ≤ 255) × (text ≡ decimal n)) }
{}

/// The rows' tokens are exactly what is written of rows with vias in each class.
pub fn row_law()
    ensures { (row : Row) (text : List ℕ) → (row_of text ≡ Some row) ↔ (IsRow row × (text ≡ row_text row)) }
{}

/// The law: the words of what is joined by spaces are the words that were joined.
pub fn words_law()
    ensures { (ws : List (List ℕ)) → AllByRecursion IsWord ws → words_of (join_with_byte 32 ws) ≡ ws }
{}

/// The law: the kinds' tokens are exactly their words.
pub fn kind_law()
    ensures { (kind : Kind) (text : List ℕ) → (kind_of text ≡ Some kind) ↔ (text ≡ kind_text kind) }
{}

/// The tokens of links with marks are exactly what is written of the links that the format can say.
pub fn marked_law()
    ensures { (format : Format) (link : Link) (text : List ℕ) → (marked_of format text ≡ Some link) ↔ (IsMarked format link × (text ≡ marked_text format link)) }
{}
