//! The words of a command line.

ghost use Rattle.std.specs.Prelude.{◌≡◌, ◌∷◌, IfOk, IfErr, OnOk, map, []};
ghost use Rattle.clap.specs.Words.{FailsBy, HasKind, fault_of, subcommand_of, subcommand_rows_of};
ghost use Rattle.clap.specs.declared.error.kind.ErrorKind.TheVariants.{MissingSubcommand};
ghost use Rattle.command_line.specs.Words.{desk_app, IsOrder, IsWithin, IsWordFault};

use crate::commands::desk_command;
use crate::orders::{NoOrder, order_of};
use clap::error::ErrorKind;
use clap::{ArgMatches, Command, Error};
use std::alloc::Global;

/// What a command line orders: a task, and what is wanted with it.
#[derive(Clone, Copy)]
pub struct Order<'a> {
    /// What is to be done.
    pub task: Task<'a>,
    /// What is wanted with it.
    pub options: Options<'a>,
}

/// What is to be done. `net` is always the file with the network.
#[derive(Clone, Copy)]
pub enum Task<'a> {
    /// To answer the script on standard input with this many worker threads beside it, 0 to 32. The network is read from standard
    /// input itself, in front of the script, where `net` is `-`.
    Run {
        net: &'a str,
        workers: u32,
    },
    /// To answer the script of the file `steps`.
    Play {
        net: &'a str,
        steps: &'a str,
    },
    /// To answer the sessions that the file `seats` says at one desk, with this many worker threads beside them, 0 to 32.
    Serve {
        net: &'a str,
        seats: &'a str,
        workers: u32,
    },
    /// To check the settled tables of the network, and to warn of what a planner should look at, if that is wanted.
    Check {
        net: &'a str,
        warned: bool,
    },
    /// To survey the single failures of the network's link sets, or else of its transfer points, if `points`.
    Survey {
        net: &'a str,
        points: bool,
    },
    /// To draw the network, with the traffic to the destination `about` if there is one: as an SVG text if `svg`, else as a Graphviz
    /// DOT text.
    Picture {
        net: &'a str,
        about: Option<&'a str>,
        svg: bool,
    },
    /// To write a report of the network, with a picture of the traffic to the destination `about` if there is one.
    Report {
        net: &'a str,
        about: Option<&'a str>,
    },
    /// To make a network text from the tables of the folder `dir`.
    Import {
        dir: &'a str,
    },
    /// To write the network as tables in the folder `dir`, with the ranks of its rows if `ranks`.
    Export {
        net: &'a str,
        dir: &'a str,
        ranks: bool,
    },
    /// To tell what the number or name `what` means, or what each of them means if there is none.
    Explain {
        what: Option<&'a str>,
    },
}

/// What is wanted with a task; what its subcommand hasn't is `None` or `false`.
#[derive(Clone, Copy)]
pub struct Options<'a> {
    /// The file to which the network is written in the end, if one is named.
    pub save: Option<&'a str>,
    /// Whether to explain what is refused, and faults.
    pub explained: bool,
    /// Whether to answer with JSON objects.
    pub json: bool,
    /// Whether to save nothing and to end with status 1 if a line was refused.
    pub strict: bool,
    /// Whether to refuse what would write a file for a script.
    pub no_files: bool,
}

/// Why a command line isn't read.
#[derive(Drop)]
pub enum WordFault {
    /// It isn't one of the desk's, or asks for help; `clap` has the text and the exit status.
    Clap(Error),
    /// The number of workers isn't a number 0 to 32, written without sign or leading zeros; and whether the command line asks
    /// for faults to be explained.
    Workers { explained: bool },
}

/// What `clap` makes of the words.
fn desk_matches<'a>(alloc: Global, words: &'a [&'a str]) -> Result<ArgMatches<'a>, Error>
    ensures rows { IfOk result (λ m. subcommand_rows_of m ≡ subcommand_of desk_app (map (λ w. w.now) words.entry.now)) }
    ensures kinds { FailsBy (fault_of desk_app (map (λ w. w.now) words.entry.now)) result }
{
    let command = match desk_command(alloc) {
        Ok(command) => command,
        Err(e) => return Err(Error::from(e)),
    };
    command.try_get_matches_from(words)
}

/// The error that a subcommand is missing, with the usage of the command.
fn missing_from(command: &mut Command) -> Error
    ensures { HasKind (MissingSubcommand ∷ []) result }
{
    match command.error(ErrorKind::MissingSubcommand, "a subcommand is missing") {
        Ok(error) => error,
        Err(e) => Error::from(e),
    }
}

/// The error of a command line without what it needs.
fn missing(alloc: Global) -> Error
    ensures { HasKind (MissingSubcommand ∷ []) result }
{
    match desk_command(alloc) {
        Ok(mut command) => missing_from(&mut command),
        Err(e) => Error::from(e),
    }
}

/// Reads the words of a command line, the program's name first. Words are refused for a fault of theirs that `clap` tells, for
/// want of memory, or, if they have no fault, for a missing subcommand, or for a text that says no number of workers.
pub fn read_words<'a>(alloc: Global, words: &'a [&'a str]) -> Result<Order<'a>, WordFault>
    ensures order { IfOk result (λ order. IsOrder order (subcommand_of desk_app (map (λ w. w.now) words.entry.now))) }
    ensures within { IfOk result IsWithin }
    ensures accepted { OnOk result (fault_of desk_app (map (λ w. w.now) words.entry.now) ≡ []) }
    ensures fault { IfErr result (IsWordFault (fault_of desk_app (map (λ w. w.now) words.entry.now)) (subcommand_of desk_app (map (λ w. w.now) words.entry.now))) }
{
    let matches = match desk_matches(alloc, words) {
        Ok(matches) => matches,
        Err(e) => return Err(WordFault::Clap(e)),
    };
    match order_of(&matches) {
        Ok(order) => Ok(order),
        Err(NoOrder::NotWhole) => Err(WordFault::Clap(missing(alloc))),
        Err(NoOrder::Workers { explained }) => Err(WordFault::Workers { explained }),
    }
}
