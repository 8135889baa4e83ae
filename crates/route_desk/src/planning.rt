//! The order `report`: the report of a network for who hands it on, one page of HTML.

use crate::drawing::{no_plan, read_about};
use crate::findings::{put_failures, put_warnings};
use crate::page::Page;
use crate::reports::{Done, Teller};
use crate::sections::{put_destinations, put_down, put_overview, put_pictures};
use crate::surveying::{Progress, open};
use console::survey_by;
use net_building::Surveyed;
use net_versions::Version;
use point_codes::PointCode;
use std::alloc::{AllocError, Global};
use std::thread::Threads;
use what_if::{Survey, warnings_by};

/// What surveys found.
#[derive(Drop)]
struct Surveys {
    sets: Survey,
    points: Survey,
}

/// The surveys of a version's network.
fn survey_both(
    rt: &HostRuntime,
    threads: &(impl Threads + Sync),
    version: &Version,
) -> Result<Surveys, AllocError> {
    let progress = Progress::new(rt);
    let sets = survey_by(threads, rt.alloc(), version, Surveyed::Sets, &progress)?;
    let points = survey_by(threads, rt.alloc(), version, Surveyed::Points, &progress)?;
    progress.end();
    Ok(Surveys { sets, points })
}

/// Adds what the surveys found, and what a planner is warned of by them.
fn put_found(page: &mut Page, version: &Version, surveys: &Surveys) -> Result<(), AllocError> {
    let net = version.net().net();
    let warnings = warnings_by(page.alloc, net, &surveys.sets, &surveys.points)?;
    put_failures(page, net, &surveys.sets, &surveys.points)?;
    put_warnings(page, warnings.as_slice())
}

/// The page of a name, by what surveys found.
fn write_page(
    alloc: Global,
    version: &Version,
    name: &str,
    about: &Option<PointCode>,
    surveys: &Surveys,
) -> Result<String, AllocError> {
    let mut page = Page::new(alloc);
    page.begin(name)?;
    put_overview(&mut page, version, *about)?;
    put_down(&mut page, version)?;
    put_destinations(&mut page, version)?;
    put_found(&mut page, version, surveys)?;
    put_pictures(&mut page, version)?;
    page.end()?;
    Ok(page.into_text())
}

/// Whether a report can't be about this, since it has no plan.
fn lacks_plan(version: &Version, about: &Option<PointCode>) -> bool {
    match about {
        Some(dest) => version.routing(*dest).is_none(),
        None => false,
    }
}

/// Writes the report of the network of a file, with a picture about a destination if one is named.
pub fn report_net(
    teller: Teller<'_>,
    threads: &(impl Threads + Sync),
    net: &str,
    about: Option<&str>,
) -> Done {
    let code = read_about(teller, about)?;
    let version = open(teller, net)?;
    if lacks_plan(&version, &code) {
        return Err(no_plan(teller, about));
    }
    let surveys = survey_both(teller.rt, threads, &version)?;
    teller.tell(write_page(teller.alloc(), &version, net, &code, &surveys))
}
