//! The first word of a command that is no event.

ghost use Rattle.std.specs.Prelude.{◌≡◌};
ghost use Rattle.script_words.specs.Commands.{command_word_of, desk_word_of, net_word_of};

use crate::words::is_word;

/// What a command that is no event begins with.
#[derive(Clone, Copy, Debug, PartialEq, Eq)]
pub enum CommandWord {
    /// `status`.
    Status,
    /// `sls`.
    Sls,
    /// `messages`.
    Messages,
    /// `octets`.
    Octets,
    /// `why`.
    Why,
    /// `mend`.
    Mend,
    /// `remedy`.
    Remedy,
    /// `trace`.
    Trace,
    /// `sync`.
    Sync,
    /// `whatif`.
    WhatIf,
    /// `reroutes`.
    Reroutes,
    /// `survey`.
    Survey,
    /// `warn`.
    Warn,
    /// `post`.
    Post,
    /// `open`.
    Open,
    /// `take`.
    Take,
    /// `give`.
    Give,
    /// `abandon`.
    Abandon,
    /// `publish`.
    Publish,
    /// `version`.
    Version,
    /// `last`.
    Last,
    /// `who`.
    Who,
    /// `show`.
    Show,
    /// `statuses`.
    Statuses,
    /// `audit`.
    Audit,
    /// `changes`.
    Changes,
    /// `watch`.
    Watch,
    /// `picture`.
    Picture,
    /// `save`.
    Save,
}

/// The first word of a command about the published network, or what moved it.
fn read_net_word(word: &[u8]) -> Option<CommandWord>
    ensures { result ≡ net_word_of word.now }
{
    match word {
        _ if is_word(word, "whatif") => Some(CommandWord::WhatIf),
        _ if is_word(word, "reroutes") => Some(CommandWord::Reroutes),
        _ if is_word(word, "survey") => Some(CommandWord::Survey),
        _ if is_word(word, "warn") => Some(CommandWord::Warn),
        _ if is_word(word, "show") => Some(CommandWord::Show),
        _ if is_word(word, "statuses") => Some(CommandWord::Statuses),
        _ if is_word(word, "audit") => Some(CommandWord::Audit),
        _ if is_word(word, "changes") => Some(CommandWord::Changes),
        _ if is_word(word, "watch") => Some(CommandWord::Watch),
        _ if is_word(word, "picture") => Some(CommandWord::Picture),
        _ if is_word(word, "save") => Some(CommandWord::Save),
        _ => None,
    }
}

/// The first word of a command that is neither an event nor a question about a row.
fn read_desk_word(word: &[u8]) -> Option<CommandWord>
    ensures { result ≡ desk_word_of word.now }
{
    match word {
        _ if is_word(word, "sync") => Some(CommandWord::Sync),
        _ if is_word(word, "post") => Some(CommandWord::Post),
        _ if is_word(word, "open") => Some(CommandWord::Open),
        _ if is_word(word, "take") => Some(CommandWord::Take),
        _ if is_word(word, "give") => Some(CommandWord::Give),
        _ if is_word(word, "abandon") => Some(CommandWord::Abandon),
        _ if is_word(word, "publish") => Some(CommandWord::Publish),
        _ if is_word(word, "version") => Some(CommandWord::Version),
        _ if is_word(word, "last") => Some(CommandWord::Last),
        _ if is_word(word, "who") => Some(CommandWord::Who),
        _ => read_net_word(word),
    }
}

/// The first word of a command that is no event.
pub fn read_command_word(word: &[u8]) -> Option<CommandWord>
    ensures { result ≡ command_word_of word.now }
{
    match word {
        _ if is_word(word, "status") => Some(CommandWord::Status),
        _ if is_word(word, "sls") => Some(CommandWord::Sls),
        _ if is_word(word, "messages") => Some(CommandWord::Messages),
        _ if is_word(word, "octets") => Some(CommandWord::Octets),
        _ if is_word(word, "why") => Some(CommandWord::Why),
        _ if is_word(word, "mend") => Some(CommandWord::Mend),
        _ if is_word(word, "remedy") => Some(CommandWord::Remedy),
        _ if is_word(word, "trace") => Some(CommandWord::Trace),
        _ => read_desk_word(word),
    }
}
