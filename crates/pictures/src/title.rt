//! The title of a picture.

ghost use Rattle.std.specs.Prelude.{◌≡◌, ◌++◌, IfOk, OnOk, string_bytes};
ghost use Rattle.pictures.specs.Title.{about_title, network_title, plural_text, title_text, version_title};

use crate::shown::Shown;
use net_data::Net;
use point_codes::PointCode;
use std::alloc::{AllocError, Global};

/// The ending of a word for so many.
fn plural_word(count: u64) -> &'static str
    ensures { result.now ≡ plural_text count }
{
    if count == 1 { "" } else { "s" }
}

/// The network, by its size.
fn write_network(alloc: Global, points: u64, sets: u64) -> Result<String, AllocError>
    ensures { IfOk result (λ text. string_bytes text ≡ network_title points sets) }
{
    let more = plural_word(points);
    let others = plural_word(sets);
    let text = format!(in alloc; "network of {points} point{more} and {sets} link set{others}")?;
    Ok(text)
}

/// Adds the destination, if one is asked about.
fn put_about(alloc: Global, text: &mut String, dest: Option<PointCode>) -> Result<(), AllocError>
    ensures { OnOk result (string_bytes text.new ≡ string_bytes text.old ++ about_title dest) }
{
    match dest {
        Some(dest) => {
            let part = format!(in alloc; ", traffic to {dest}")?;
            text.push_str(part.as_str())
        }
        None => Ok(()),
    }
}

/// Adds the version, if it is one.
fn put_version(alloc: Global, text: &mut String, version: Option<u64>) -> Result<(), AllocError>
    ensures { OnOk result (string_bytes text.new ≡ string_bytes text.old ++ version_title version) }
{
    match version {
        Some(number) => {
            let more = plural_word(number);
            let part = format!(in alloc;
                ", version {number}: after {number} accepted event{more}"
            )?;
            text.push_str(part.as_str())
        }
        None => Ok(()),
    }
}

/// The whole title: the network, the destination and the version.
#[tactic(auto, unfolding(crate::specs::Title::title_text))]
pub(crate) fn write_title(
    alloc: Global,
    shown: &Shown,
    version: Option<u64>,
    net: &Net,
) -> Result<String, AllocError>
    ensures { IfOk result (λ text. string_bytes text ≡ title_text shown.now version net.now) }
{
    let mut text = write_network(alloc, net.points().len() as u64, net.sets().len() as u64)?;
    put_about(alloc, &mut text, shown.dest())?;
    put_version(alloc, &mut text, version)?;
    Ok(text)
}
