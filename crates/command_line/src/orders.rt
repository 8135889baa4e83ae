//! The order that matches say.

ghost use Rattle.std.specs.Prelude.{◌≡◌, ◌≤◌, ◌↔◌, Bool, IsTrue, Some, codes, IfOk, IfErr, IfSome, IsSomeAnd, option_map, false};
ghost use Rattle.std.specs.Fmt.{decimal};
ghost use Rattle.clap.specs.Words.{first_of, found_of, rows_of, subcommand_rows_of};
ghost use Rattle.command_line.specs.Words.{HasBadCount, HasBadWorkers, HasFlag, HasOptions, IsNoCount, IsOrder, IsPadded, IsWithin, IsWorkers, Tells, has_value, is_whole};

use crate::words::{Options, Order, Task};
use clap::ArgMatches;

/// Why matches are no order.
#[derive(Clone, Copy)]
pub(crate) enum NoOrder {
    /// They name no subcommand of the desk's, or not each file or folder that it needs.
    NotWhole,
    /// A text is given that says no number of workers; and whether faults are to be explained.
    Workers { explained: bool },
}

/// The subcommand that the words name, with its own matches.
fn entered<'m, 'a>(matches: &'m ArgMatches<'a>) -> Option<(&'a str, &'m ArgMatches<'a>)>
    ensures { option_map (λ p. (p.0.now, rows_of (found_of p.1.now))) result ≡ subcommand_rows_of matches.entry.now }
{
    matches.subcommand()
}

/// The first value of an argument.
fn value_at<'a>(matches: &ArgMatches<'a>, id: &str) -> Option<&'a str>
    ensures { option_map (λ s. s.now) result ≡ first_of id.now (rows_of (found_of matches.now)) }
{
    matches.get_str(id)
}

/// Whether a text begins with a plus or a zero, and goes on. `parse` takes such texts of numbers too.
fn is_padded(text: &str) -> bool
    ensures { IsTrue result ↔ IsPadded text.now }
{
    match text.as_bytes() {
        [first, _, ..] => *first == b'+' || *first == b'0',
        _ => false,
    }
}

/// The number of workers that a text says.
fn worker_count(text: &str) -> Option<u32>
    ensures some { IfSome result (λ n. (text.now ≡ decimal n) × (n ≤ 32)) }
    ensures none { result ≡ None → IsNoCount text.now }
{
    if is_padded(text) {
        return None;
    }
    match text.parse::<u32>() {
        Ok(count) if count <= 32 => Some(count),
        _ => None,
    }
}

/// Whether the matches have a flag.
fn flag_at(matches: &ArgMatches, id: &str) -> bool
    ensures { IsTrue result ↔ HasFlag id.now (rows_of (found_of matches.now)) }
{
    // `get_flag` doesn't say what it makes of a value that is neither `true` nor `false`.
    value_at(matches, id) == Some("true")
}

/// The first value of an argument that is needed.
fn needed<'a>(matches: &ArgMatches<'a>, id: &str) -> Result<&'a str, NoOrder>
    ensures some { IfOk result (λ s. first_of id.now (rows_of (found_of matches.now)) ≡ Some s.now) }
    ensures none { IfErr result (λ e. (e ≡ NoOrder.NotWhole) × (has_value id.now (rows_of (found_of matches.now)) ≡ false)) }
{
    value_at(matches, id).ok_or(NoOrder::NotWhole)
}

/// The number of workers that matches say, which is another one if they say none.
fn workers_at(matches: &ArgMatches, otherwise: u32) -> Result<u32, NoOrder>
    requires { otherwise ≤ 32 }
    ensures some { IfOk result (λ n. IsWorkers otherwise (first_of (codes "workers") (rows_of (found_of matches.now))) n × (n ≤ 32)) }
    ensures none { IfErr result (λ e. (explained : Bool) × (e ≡ NoOrder.Workers explained) × HasBadCount explained (rows_of (found_of matches.now))) }
{
    let count = match value_at(matches, "workers") {
        Some(text) => worker_count(text),
        None => Some(otherwise),
    };
    let explained = flag_at(matches, "explain");
    count.ok_or(NoOrder::Workers { explained })
}

/// The task that the matches of `run` say.
fn run_task<'a>(matches: &ArgMatches<'a>) -> Result<Task<'a>, NoOrder>
    ensures { Tells result (codes "run", rows_of (found_of matches.now)) }
{
    let net = needed(matches, "net")?;
    let workers = workers_at(matches, 0)?;
    Ok(Task::Run { net, workers })
}

/// The task that the matches of `play` say.
fn play_task<'a>(matches: &ArgMatches<'a>) -> Result<Task<'a>, NoOrder>
    ensures { Tells result (codes "play", rows_of (found_of matches.now)) }
{
    let net = needed(matches, "net")?;
    let steps = needed(matches, "steps")?;
    Ok(Task::Play { net, steps })
}

/// The task that the matches of `serve` say.
fn serve_task<'a>(matches: &ArgMatches<'a>) -> Result<Task<'a>, NoOrder>
    ensures { Tells result (codes "serve", rows_of (found_of matches.now)) }
{
    let net = needed(matches, "net")?;
    let seats = needed(matches, "seats")?;
    let workers = workers_at(matches, 1)?;
    Ok(Task::Serve {
        net,
        seats,
        workers,
    })
}

/// The task that the matches of `check` say.
fn check_task<'a>(matches: &ArgMatches<'a>) -> Result<Task<'a>, NoOrder>
    ensures { Tells result (codes "check", rows_of (found_of matches.now)) }
{
    let net = needed(matches, "net")?;
    let warned = flag_at(matches, "warn");
    Ok(Task::Check { net, warned })
}

/// The task that the matches of `survey` say.
fn survey_task<'a>(matches: &ArgMatches<'a>) -> Result<Task<'a>, NoOrder>
    ensures { Tells result (codes "survey", rows_of (found_of matches.now)) }
{
    let net = needed(matches, "net")?;
    let points = flag_at(matches, "points");
    Ok(Task::Survey { net, points })
}

/// The task that the matches of `picture` say.
fn picture_task<'a>(matches: &ArgMatches<'a>) -> Result<Task<'a>, NoOrder>
    ensures { Tells result (codes "picture", rows_of (found_of matches.now)) }
{
    let net = needed(matches, "net")?;
    let about = value_at(matches, "about");
    let svg = flag_at(matches, "svg");
    Ok(Task::Picture { net, about, svg })
}

/// The task that the matches of `report` say.
fn report_task<'a>(matches: &ArgMatches<'a>) -> Result<Task<'a>, NoOrder>
    ensures { Tells result (codes "report", rows_of (found_of matches.now)) }
{
    let net = needed(matches, "net")?;
    let about = value_at(matches, "about");
    Ok(Task::Report { net, about })
}

/// The task that the matches of `import` say.
fn import_task<'a>(matches: &ArgMatches<'a>) -> Result<Task<'a>, NoOrder>
    ensures { Tells result (codes "import", rows_of (found_of matches.now)) }
{
    let dir = needed(matches, "dir")?;
    Ok(Task::Import { dir })
}

/// The task that the matches of `export` say.
fn export_task<'a>(matches: &ArgMatches<'a>) -> Result<Task<'a>, NoOrder>
    ensures { Tells result (codes "export", rows_of (found_of matches.now)) }
{
    let net = needed(matches, "net")?;
    let dir = needed(matches, "dir")?;
    let ranks = flag_at(matches, "ranks");
    Ok(Task::Export { net, dir, ranks })
}

/// The task that the matches of the subcommand of this name say.
fn task_of<'a>(name: &str, matches: &ArgMatches<'a>) -> Result<Task<'a>, NoOrder>
    ensures { Tells result (name.now, rows_of (found_of matches.now)) }
{
    match name {
        "run" => run_task(matches),
        "play" => play_task(matches),
        "serve" => serve_task(matches),
        "check" => check_task(matches),
        "survey" => survey_task(matches),
        "picture" => picture_task(matches),
        "report" => report_task(matches),
        "import" => import_task(matches),
        "export" => export_task(matches),
        "explain" => Ok(Task::Explain {
            what: value_at(matches, "what"),
        }),
        _ => Err(NoOrder::NotWhole),
    }
}

/// What the matches say is wanted with the task.
fn options_of<'a>(matches: &ArgMatches<'a>) -> Options<'a>
    ensures { HasOptions result (rows_of (found_of matches.now)) }
{
    Options {
        save: value_at(matches, "save"),
        explained: flag_at(matches, "explain"),
        json: flag_at(matches, "json"),
        strict: flag_at(matches, "strict"),
        no_files: flag_at(matches, "no-files"),
    }
}

/// What the matches order.
pub(crate) fn order_of<'a>(matches: &ArgMatches<'a>) -> Result<Order<'a>, NoOrder>
    ensures order { IfOk result (λ order. IsOrder order (subcommand_rows_of matches.now)) }
    ensures within { IfOk result IsWithin }
    ensures not_whole { result ≡ Err NoOrder.NotWhole → IfSome (subcommand_rows_of matches.now) (λ found. is_whole found ≡ false) }
    ensures workers { (explained : Bool) → result ≡ Err (NoOrder.Workers explained) → IsSomeAnd (subcommand_rows_of matches.now) (HasBadWorkers explained) }
{
    let Some((name, inner)) = entered(matches) else {
        return Err(NoOrder::NotWhole);
    };
    let task = task_of(name, inner)?;
    let options = options_of(inner);
    Ok(Order { task, options })
}
