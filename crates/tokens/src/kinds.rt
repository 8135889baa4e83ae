//! KIND.

ghost use Rattle.std.specs.Prelude.{◌≡◌, Some};
ghost use Rattle.net_items.specs.declared.items.Kind.{Kind};
ghost use Rattle.tokens.specs.Kinds.{kind_of, kind_text};

use net_items::Kind;

/// The kind that a token is: `sep` or `stp` (Q.705).
pub fn read_kind(word: &[u8]) -> Option<Kind>
    ensures { result ≡ kind_of word.now }
{
    if word == b"sep".as_slice() {
        return Some(Kind::Sep);
    }
    if word == b"stp".as_slice() {
        return Some(Kind::Stp);
    }
    None
}

/// KIND: `sep` or `stp` (Q.705).
pub fn point_kind_word(kind: Kind) -> &'static str
    ensures { result.now ≡ kind_text kind }
{
    match kind {
        Kind::Sep => "sep",
        Kind::Stp => "stp",
    }
}
