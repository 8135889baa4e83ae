//! All explanations, and the one that a word calls.

ghost use Rattle.std.specs.Prelude.{◌≡◌, option_map, map, find as first_that};
ghost use Rattle.explanations.specs.Titles.{titles, title_found, is_called_by, warning_found, warning_titles};

use crate::explanation::Explanation;
use crate::{causes, complaints, desk, edits, faults, lines, warned};

/// All explanations but those of warnings, in the order of the tables of docs/SCRIPT.md.
const EXPLANATIONS: &[Explanation] = &[
    desk::OLD,
    desk::CLASH,
    desk::GAP,
    desk::END_OF_NUMBERS,
    desk::BACKLOG_FULL,
    desk::BUSY,
    desk::NOTHING,
    desk::STALE,
    desk::UNASKED,
    desk::DIFFERS,
    desk::NOT_OPEN,
    desk::NOT_READY,
    edits::NO_POINT,
    edits::POINT_THERE,
    edits::POINT_USED,
    edits::NOT_STP,
    edits::PAIRED,
    edits::NOT_PAIRED,
    edits::PAIR_USED,
    edits::NO_SET,
    edits::SET_THERE,
    edits::JOINED,
    edits::SAME_ENDS,
    edits::BAD_LINKS,
    edits::NO_LINK,
    edits::LINK_THERE,
    edits::LAST_LINK,
    edits::SET_USED,
    edits::NO_PLAN,
    edits::BAD_ROW,
    edits::LIMIT,
    lines::NO_ROW,
    lines::NOT_KEPT,
    lines::BAD_LINE,
    causes::IS_DEST,
    causes::TWICE,
    causes::NOT_JOINED,
    causes::VIA_TWICE,
    causes::NOT_LOWER,
    causes::VIA_MATE,
    causes::BAD_MATE,
    causes::NO_ROUTE,
    complaints::POINTS,
    complaints::ROUTE,
    complaints::STATUS,
    complaints::LINKS,
    complaints::MESSAGES,
    faults::OUT_OF_MEMORY,
    faults::NOT_TOML,
    faults::BAD_KEY,
    faults::READ,
    faults::WRITE,
    faults::NO_PLACE,
    lines::BAD_CODE,
    lines::LIMITS,
];

/// All explanations but those of warnings, each number once: of refusals of the desk, of an event and of a line, causes, complaints, faults,
/// and others.
pub fn explanations() -> &'static [Explanation]
    ensures { map (λ e. e.title.now) result.now ≡ titles }
{
    EXPLANATIONS
}

/// The explanations of warnings, in the order of their table in docs/SCRIPT.md.
const WARNINGS: &[Explanation] = &[
    warned::MISSING_ROW,
    warned::MISSING_PLAN,
    warned::UNREACHED,
    warned::UNNAMED,
    warned::UNUSED,
    warned::SINGLE_FAILURE,
];

/// The explanations of warnings.
pub fn warnings() -> &'static [Explanation]
    ensures { map (λ e. e.title.now) result.now ≡ warning_titles }
{
    WARNINGS
}

/// Whether a word calls the explanation of that title: it is the title, or the number, the letter or the name in it.
fn is_called(word: &str, title: &str) -> bool
    ensures { result ≡ is_called_by word.now title.now }
{
    if word == title {
        return true;
    }
    match title.split_once(' ') {
        Some((mark, name)) => !word.is_empty() && (word == mark || word == name),
        None => false,
    }
}

/// The first explanation of a list that a word calls.
fn find_among<'a>(list: &'a [Explanation], word: &str) -> Option<&'a Explanation>
    ensures { option_map (λ e. e.now.title.now) result ≡ first_that (is_called_by word.now) (map (λ e. e.title.now) list.entry.now) }
{
    let mut rest = list;
    while let Some((first, more)) = rest.split_first() {
        if is_called(word, first.title) {
            return Some(first);
        }
        rest = more;
    }
    None
}

/// The first explanation that a word calls: by its number or its name, as `27` or `BadRow`, by both, or by its letter, as `e`. Causes
/// and complaints have the same letters, and a letter alone is of the cause, which stands first.
pub fn find(word: &str) -> Option<&'static Explanation>
    ensures { option_map (λ e. e.now.title.now) result ≡ title_found word.now }
{
    find_among(explanations(), word)
}

/// The explanation of a warning that a word calls: by its name.
pub fn find_warning(word: &str) -> Option<&'static Explanation>
    ensures { option_map (λ e. e.now.title.now) result ≡ warning_found word.now }
{
    find_among(warnings(), word)
}
