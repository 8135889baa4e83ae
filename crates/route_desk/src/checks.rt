//! The order `check`: the check of a network, and what a planner is warned of in it.

use crate::loading::load_file;
use crate::reports::{Done, Teller};
use crate::saying::say;
use crate::surveying::{Progress, open, print_in};
use answers::{Answer, NetAnswer, put_warning_lines};
use console::{CheckEnd, check_net, warn_by};
use excerpts::Frozen;
use explanations::{Explanation, explain_warning};
use json_answers::{Form, write_right, write_wrong};
use net_versions::Version;
use std::alloc::{AllocError, Global};
use std::process::ExitCode;
use std::thread::Threads;
use what_if::{Warning, Warnings};

/// What a check found, on a line.
fn line_of(alloc: Global, end: &CheckEnd, form: Form) -> Result<String, AllocError> {
    match (form, end.wrong) {
        (Form::Objects, None) => write_right(alloc, end.count),
        (Form::Objects, Some(wrong)) => write_wrong(alloc, wrong.dest, wrong.complaint),
        (Form::Text, _) => {
            let mut line = end.write(alloc)?;
            line.push('\n')?;
            Ok(line)
        }
    }
}

/// Says what a check found.
fn report_check(teller: Teller<'_>, end: &CheckEnd, form: Form) -> Done {
    let told = teller.tell(line_of(teller.alloc(), end, form))?;
    if end.wrong.is_none() {
        return Ok(told);
    }
    Ok(ExitCode::from(1))
}

/// Warnings as an object of JSON on a line.
fn object_of(alloc: Global, warnings: Warnings) -> Result<String, AllocError> {
    let answer = Answer::Net(NetAnswer::Warned(warnings));
    print_in(alloc, &answer, Form::Objects)
}

/// Warnings as they are told: each on a line, and their number on the last, or as an object.
fn told_warnings(alloc: Global, warnings: Warnings, form: Form) -> Result<String, AllocError> {
    if let Form::Objects = form {
        return object_of(alloc, warnings);
    }
    let mut text = String::new(alloc);
    put_warning_lines(&mut text, &warnings)?;
    Ok(text)
}

/// Says on standard error what each kind of warning means that is among these, once.
fn explain_kinds(rt: &HostRuntime, warnings: &[Warning]) -> Result<(), AllocError> {
    let mut said = Vec::new(rt.alloc());
    for warning in warnings {
        let Explanation { title, meaning, .. } = *explain_warning(warning);
        if !said.as_slice().contains(&title) {
            said.push(title)?;
            say(rt, &[title, ": ", meaning]);
        }
    }
    Ok(())
}

/// What a planner should look at in the network of a version.
fn warnings_of(
    rt: &HostRuntime,
    threads: &(impl Threads + Sync),
    version: &Version,
) -> Result<Warnings, AllocError> {
    let progress = Progress::new(rt);
    let warnings = warn_by(threads, rt.alloc(), version, &progress)?;
    progress.end();
    Ok(warnings)
}

/// Checks the tables of the network of a file, and says what a planner should look at there.
fn check_and_warn(
    teller: Teller<'_>,
    threads: &(impl Threads + Sync),
    net: &str,
    form: Form,
) -> Done {
    let version = open(teller, net)?;
    let end = check_net(threads, teller.alloc(), version.net())?;
    let warnings = warnings_of(teller.rt, threads, &version)?;
    let checked = report_check(teller, &end, form)?;
    if teller.explained {
        explain_kinds(teller.rt, warnings.as_slice())?;
    }
    teller.tell(told_warnings(teller.alloc(), warnings, form))?;
    Ok(checked)
}

/// Checks the tables of the network of a file, and says what a planner should look at there, if that is wanted.
pub fn check(
    teller: Teller<'_>,
    threads: &(impl Threads + Sync),
    net: &str,
    warned: bool,
    form: Form,
) -> Done {
    if warned {
        return check_and_warn(teller, threads, net, form);
    }
    let net = Frozen::new(teller.alloc(), load_file(teller, net)?)?;
    let end = check_net(threads, teller.alloc(), &net)?;
    report_check(teller, &end, form)
}
