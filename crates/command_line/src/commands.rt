//! The commands, as `clap` is told them: a table of subcommands, each with its arguments.

ghost use Rattle.std.specs.Prelude.{◌≡◌, IfOk, false, fold, map};
ghost use Rattle.clap.specs.declared.builder.command.Command.TheViews.{out-Command};
ghost use Rattle.clap.specs.Words.{app_of, rule_of, with_rule};
ghost use Rattle.command_line.specs.Words.{app_by, apps, bare_app, desk_app, rule_by, with_app};

use clap::{Arg, ArgAction, Command};
use std::alloc::{AllocError, Global};

/// The version that is told, with the kit by which the program is proved.
const VERSION: &str = "1.0.0, proved with rattle-kit-13f";

/// An argument of a command: its name, what help has in the place of its value, and what it is for.
#[derive(Clone, Copy)]
pub(crate) enum Argument {
    /// A file or a folder, which has to be given.
    Required(&'static str, &'static str, &'static str),
    /// A word that may be left out.
    Optional(&'static str, &'static str, &'static str),
    /// `--NAME VALUE`.
    Valued(&'static str, &'static str, &'static str),
    /// `--NAME`, which has no value.
    Flag(&'static str, &'static str),
}

/// A subcommand: its name, what it does, and its arguments.
pub(crate) struct Subcommand {
    pub name: &'static str,
    pub about: &'static str,
    pub arguments: &'static [Argument],
}

/// The network of a command.
const NET: Argument = Argument::Required("net", "NET", "File with the network");

/// `--explain` where a script is answered.
const EXPLAIN_LINES: Argument = Argument::Flag(
    "explain",
    "Say of each refused line and of a fault, on standard error, what is wrong",
);

/// `--explain` where no script is answered.
const EXPLAIN: Argument = Argument::Flag(
    "explain",
    "Say on standard error what is wrong, and where",
);

/// `--save FILE` where a script is answered.
const SAVE: Argument = Argument::Valued(
    "save",
    "FILE",
    "Write the network to this file after a script that ended without a fault",
);

/// `--json`.
const JSON: Argument = Argument::Flag("json", "Write each answer as a JSON object");

/// `--strict`.
const STRICT: Argument = Argument::Flag(
    "strict",
    "If a line is refused, save nothing and end with status 1",
);

/// `--no-files`.
const NO_FILES: Argument = Argument::Flag(
    "no-files",
    "Refuse what would write a file: the script words picture and save",
);

/// The subcommands.
const SUBCOMMANDS: &[Subcommand] = &[
    Subcommand {
        name: "run",
        about: "Answer a script of commands, read from standard input",
        arguments: &[
            Argument::Required(
                "net",
                "NET",
                "File with the network, or - for standard input up to the line %%",
            ),
            Argument::Valued(
                "workers",
                "N",
                "Threads that settle jobs beside the script, 0 to 32; 0 if it isn't given",
            ),
            SAVE,
            EXPLAIN_LINES,
            JSON,
            STRICT,
            NO_FILES,
        ],
    },
    Subcommand {
        name: "play",
        about: "Answer a script of commands, read from a file",
        arguments: &[
            NET,
            Argument::Required("steps", "STEPS", "File with the script"),
            SAVE,
            EXPLAIN_LINES,
            JSON,
            STRICT,
            NO_FILES,
        ],
    },
    Subcommand {
        name: "serve",
        about: "Answer many sessions at one desk, each with its own input and output",
        arguments: &[
            NET,
            Argument::Required(
                "seats",
                "SEATS",
                "File with the sessions, each with its input and its output",
            ),
            Argument::Valued(
                "workers",
                "N",
                "Threads that settle jobs beside the sessions, 0 to 32; 1 if it isn't given",
            ),
            Argument::Valued(
                "save",
                "FILE",
                "Write the network to this file once all sessions have ended",
            ),
            EXPLAIN_LINES,
            JSON,
            NO_FILES,
        ],
    },
    Subcommand {
        name: "check",
        about: "Work out the tables of all destinations, and check each by the local rule",
        arguments: &[
            NET,
            Argument::Flag(
                "warn",
                "Warn of rows and plans that are missing, of points and sets that no plan uses, and of single failures",
            ),
            EXPLAIN,
            JSON,
        ],
    },
    Subcommand {
        name: "survey",
        about: "Tell how many pairs of a point and a destination the failure of each link set alone would take",
        arguments: &[
            NET,
            Argument::Flag(
                "points",
                "Fail each transfer point in the place of each link set",
            ),
            EXPLAIN,
            JSON,
        ],
    },
    Subcommand {
        name: "picture",
        about: "Draw the network as a Graphviz DOT text, or as an SVG text",
        arguments: &[
            NET,
            Argument::Valued(
                "about",
                "X",
                "Show how each point leads its traffic to this destination",
            ),
            Argument::Flag("svg", "Draw an SVG text, which needs no Graphviz"),
            EXPLAIN,
        ],
    },
    Subcommand {
        name: "report",
        about: "Write a report of the network as one page of HTML, for a planner to hand on",
        arguments: &[
            NET,
            Argument::Valued(
                "about",
                "X",
                "Show in its first picture how each point leads its traffic to this destination",
            ),
            EXPLAIN,
        ],
    },
    Subcommand {
        name: "import",
        about: "Make a network text from the tables network.csv, points.csv, sets.csv and routes.csv of a folder",
        arguments: &[
            Argument::Required("dir", "DIR", "Folder with the tables"),
            EXPLAIN,
        ],
    },
    Subcommand {
        name: "export",
        about: "Write a network as the tables network.csv, points.csv, sets.csv and routes.csv in a folder",
        arguments: &[
            NET,
            Argument::Required("dir", "DIR", "Folder that gets the tables"),
            Argument::Flag(
                "ranks",
                "Write the rank of each row too, which is else the least when it is read",
            ),
            EXPLAIN,
        ],
    },
    Subcommand {
        name: "explain",
        about: "Tell what a refusal, a fault or a cause means, and what to do",
        arguments: &[
            Argument::Optional(
                "what",
                "WHAT",
                "Its number or its name, as 27, BadRow or IsDest; all are listed if it isn't given",
            ),
            JSON,
        ],
    },
];

fn subcommands() -> &'static [Subcommand]
    ensures { map app_by result.now ≡ apps }
{
    SUBCOMMANDS
}

/// An argument as `clap` is told it.
fn told_argument<'a>(alloc: Global, argument: Argument) -> Arg<'a>
    ensures rule { rule_of result ≡ rule_by argument }
    ensures local { result.global ≡ false }
{
    match argument {
        Argument::Required(name, value, help) => Arg::new(alloc, name)
            .required(true)
            .value_name(value)
            .help(help),
        Argument::Optional(name, value, help) => {
            Arg::new(alloc, name).value_name(value).help(help)
        }
        Argument::Valued(name, value, help) => Arg::new(alloc, name)
            .long(name)
            .value_name(value)
            .help(help),
        Argument::Flag(name, help) => Arg::new(alloc, name)
            .long(name)
            .action(ArgAction::SetTrue)
            .help(help),
    }
}

/// A command with more arguments.
fn with_arguments<'a>(
    alloc: Global,
    bare: Command<'a>,
    arguments: &[Argument],
) -> Result<Command<'a>, AllocError>
    requires { (out-Command bare).has_globals ≡ false }
    ensures app { IfOk result (λ c. app_of c ≡ fold with_rule (app_of bare.entry) (map rule_by arguments.now)) }
    ensures local { IfOk result (λ c. (out-Command c).has_globals ≡ false) }
{
    let mut command = bare;
    let mut rest = arguments;
    while let Some((first, more)) = rest.split_first() {
        command = command.arg(told_argument(alloc, *first))?;
        rest = more;
    }
    Ok(command)
}

/// A subcommand as `clap` is told it.
fn told_subcommand<'a>(alloc: Global, subcommand: &Subcommand) -> Result<Command<'a>, AllocError>
    ensures app { IfOk result (λ c. app_of c ≡ app_by subcommand.now) }
    ensures local { IfOk result (λ c. (out-Command c).has_globals ≡ false) }
{
    let bare = Command::new(alloc, subcommand.name).about(subcommand.about);
    with_arguments(alloc, bare, subcommand.arguments)
}

/// The command `route_desk` alone, with its version.
fn bare_command<'a>(alloc: Global) -> Command<'a>
    ensures { app_of result ≡ bare_app }
{
    Command::new(alloc, "route_desk").version(VERSION).about(
        "Settled routing state of a Signalling System No. 7 network (ITU-T Q.704, MTP level 3)",
    )
}

/// The whole command.
pub(crate) fn desk_command<'a>(alloc: Global) -> Result<Command<'a>, AllocError>
    ensures app { IfOk result (λ c. app_of c ≡ desk_app) }
{
    let mut command = bare_command(alloc);
    let mut rest = subcommands();
    while let Some((first, more)) = rest.split_first() {
        command = command.subcommand(told_subcommand(alloc, first)?)?;
        rest = more;
    }
    Ok(command)
}
