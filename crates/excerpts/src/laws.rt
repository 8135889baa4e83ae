//! Laws: functions that do nothing when they run, and whose contracts are facts about the definitions.

ghost use Rattle.std.specs.Prelude.{◌≡◌};
ghost use Rattle.profile.specs.Whole.{scratch};
ghost use Rattle.excerpts.specs.Excerpt.{ExcerptValue, content_of, content_source, source_of, IsRight};

/// The law: the table of an excerpt is the one of what it reads alone. So excerpts that are equal have equal tables.
pub fn same_table_law()
    ensures alone { (x : ExcerptValue) → IsRight x → scratch (content_source (content_of x)) ≡ scratch (source_of x) }
    ensures equal { (x y : ExcerptValue) → IsRight x → IsRight y → content_of x ≡ content_of y → scratch (source_of x) ≡ scratch (source_of y) }
{}
