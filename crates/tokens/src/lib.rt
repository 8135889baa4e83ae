//! The tokens of scripts and of the entries of a network text.
//!
//! 1. Tokens are words between spaces; any other byte outside the tokens makes a text unreadable (own).
//! 2. Numbers are decimal without sign or leading zeros: ID up to 65,535, SLC and RANK up to 255 (own).
//! 3. CODE is a signalling point code's text, `zone-area-point` (Q.708). KIND is `sep` or `stp` (Q.705).
//! 4. MARKED is an SLC and then its marks, each at most once and in this order (own): in format 1 `f`, `b`, `i`, where
//!    `b` and `i` are marks of the first end; in format 2 `f`, `ba`, `bb`, `ia`, `ib`.
//! 5. ROW is `CODE:RANK:CLASSES` or `CODE:RANK:CLASSES:m`, the last with the mate flag (own). CLASSES is empty or
//!    classes joined by `/`; a class is one or more CODEs joined by `+`.
//! 6. Each token is read exactly if it is what is written of its value, so no value has two tokens.
//!
//! Stands on `net_items`, `smallvec`. A change here also changes specs/ (Entries, Kinds, Marked, Numbers, Pieces, Rows, Words),
//! proofs/, must-fail/ and wrong-bodies/.
#![tactic(auto)]

pub mod entries;
pub mod kinds;
pub mod laws;
pub mod marked;
pub mod numbers;
pub mod rows;
pub mod words;

pub use entries::{write_pair, write_plan, write_point, write_set};
pub use kinds::{point_kind_word, read_kind};
pub use laws::{id_law, kind_law, marked_law, rank_law, row_law, slc_law, words_law};
pub use marked::{Format, put_links, read_marked, write_marked};
pub use numbers::{read_code, read_id, read_rank, read_slc};
pub use rows::read_row;
pub use words::{put_if, split_words};
