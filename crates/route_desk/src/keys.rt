//! The keys of a network text and of SEATS: what each has to be, and which is nearest to one that there isn't.

use net_text::Key;
use toml::{Table, Value};

/// A key of a text, with what it has to be, and an example.
#[derive(Clone, Copy)]
pub struct KeyForm {
    pub name: &'static str,
    /// What its value has to be.
    pub value: &'static str,
    /// A line with it.
    pub example: &'static str,
    /// What an entry of its array is, if it has one.
    pub entry: &'static str,
}

/// A table of a text, by the keys that it may have.
#[derive(Clone, Copy)]
pub enum Keys {
    /// A network text.
    Network,
    /// The text SEATS.
    Seats,
    /// A seat of it.
    Seat,
}

/// All keys of a network text, in the order in which they are read.
const NETWORK_KEYS: &[KeyForm] = &[
    KeyForm {
        name: "format",
        value: "1 or 2",
        example: "format = 2",
        entry: "",
    },
    KeyForm {
        name: "ni",
        value: "the network indicator, 0 to 3",
        example: "ni = 2",
        entry: "",
    },
    KeyForm {
        name: "tfr",
        value: "true or false",
        example: "tfr = true",
        entry: "",
    },
    KeyForm {
        name: "points",
        value: "an array of strings",
        example: "points = [\"2-1-1 sep\", \"2-10-1 stp\"]",
        entry: "CODE sep or CODE stp, as 2-10-1 stp",
    },
    KeyForm {
        name: "pairs",
        value: "an array of strings",
        example: "pairs = [\"2-10-1 2-10-2\"]",
        entry: "CODE CODE, as 2-10-1 2-10-2",
    },
    KeyForm {
        name: "sets",
        value: "an array of strings",
        example: "sets = [\"1 2-1-1 2-10-1 0\"]",
        entry: "ID CODE CODE LINK LINK .., as 1 2-1-1 2-10-1 0 1f",
    },
    KeyForm {
        name: "plans",
        value: "an array of strings",
        example: "plans = [\"2-1-2 2-1-1:2:2-10-1 2-10-1:1:2-1-2\"]",
        entry: "CODE ROW ROW .., as 2-1-2 2-1-1:2:2-10-1 2-10-1:1:2-1-2",
    },
];

/// The one key of SEATS.
const SEATS_KEYS: &[KeyForm] = &[KeyForm {
    name: "seat",
    value: "a list of tables, at least one",
    example: "[[seat]]",
    entry: "",
}];

/// All keys of a seat, in the order in which they are read.
const SEAT_KEYS: &[KeyForm] = &[
    KeyForm {
        name: "name",
        value: "1 to 32 letters, digits, - or _",
        example: "name = \"console\"",
        entry: "",
    },
    KeyForm {
        name: "in",
        value: "the name of a file or a FIFO, or - for standard input",
        example: "in = \"console.in\"",
        entry: "",
    },
    KeyForm {
        name: "out",
        value: "the name of a file or a FIFO, or - for standard output",
        example: "out = \"console.out\"",
        entry: "",
    },
    KeyForm {
        name: "answers",
        value: "text or json",
        example: "answers = \"json\"",
        entry: "",
    },
    KeyForm {
        name: "posts",
        value: "true or false",
        example: "posts = false",
        entry: "",
    },
    KeyForm {
        name: "collector",
        value: "a number from 0 to 255",
        example: "collector = 1",
        entry: "",
    },
    KeyForm {
        name: "reopen",
        value: "true or false",
        example: "reopen = false",
        entry: "",
    },
];

impl Keys {
    /// The form of each key.
    pub fn forms(self) -> &'static [KeyForm] {
        match self {
            Keys::Network => NETWORK_KEYS,
            Keys::Seats => SEATS_KEYS,
            Keys::Seat => SEAT_KEYS,
        }
    }

    /// All keys, in a sentence.
    pub fn told(self) -> &'static str {
        match self {
            Keys::Network => "the keys are format, ni, tfr, points, pairs, sets and plans",
            Keys::Seats => "the one key is seat, as [[seat]]",
            Keys::Seat => "the keys are name, in, out, answers, posts, collector and reopen",
        }
    }
}

/// The name of a key, none of one that isn't known.
pub fn name_of(key: Key) -> Option<&'static str> {
    match key {
        Key::Format => Some("format"),
        Key::Ni => Some("ni"),
        Key::Tfr => Some("tfr"),
        Key::Points => Some("points"),
        Key::Pairs => Some("pairs"),
        Key::Sets => Some("sets"),
        Key::Plans => Some("plans"),
        Key::Unknown => None,
    }
}

/// The form of a key of this name.
pub fn form_of(keys: Keys, name: &str) -> Option<&'static KeyForm> {
    keys.forms().iter().find(|form| form.name == name)
}

/// How many bytes two names have in common at their front and at their end.
fn likeness(one: &str, other: &str) -> usize {
    let front = one
        .bytes()
        .zip(other.bytes())
        .take_while(|pair| pair.0 == pair.1);
    let end = one
        .bytes()
        .rev()
        .zip(other.bytes().rev())
        .take_while(|pair| pair.0 == pair.1);
    front.count().saturating_add(end.count())
}

/// The key that is nearest to a name, none if none has half of it.
pub fn nearest(keys: Keys, name: &str) -> Option<&'static str> {
    let (mut found, mut most) = (None, (name.len() / 2).max(1));
    for form in keys.forms() {
        let like = likeness(form.name, name);
        if like > most || (like == most && found.is_none()) {
            most = like;
            found = Some(form.name);
        }
    }
    found
}

/// The place of the first entry of an array that is no string, from 1.
pub fn entry_without_text(value: &Value) -> Option<usize> {
    let entries = value.as_array()?;
    let position = entries.iter().position(|entry| entry.as_str().is_none())?;
    Some(position.saturating_add(1))
}

/// The text of an entry of a key's array, from 1.
pub fn entry_at<'a>(table: &'a Table, name: &str, place: usize) -> Option<&'a str> {
    let entries = table.get(name)?.as_array()?;
    entries.get(place.checked_sub(1)?)?.as_str()
}
