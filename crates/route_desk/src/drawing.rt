//! The order `picture`: the picture of a network.

use crate::loading::load_file;
use crate::reports::{Done, Stop, Teller};
use console::Fault;
use excerpts::Frozen;
use pictures::{PictureFault, write_dot, write_svg};
use point_codes::PointCode;

/// The destination that a picture is asked about, if one is named.
pub fn read_about(teller: Teller<'_>, word: Option<&str>) -> Result<Option<PointCode>, Stop> {
    let Some(word) = word else {
        return Ok(None);
    };
    match PointCode::parse(word.as_bytes()) {
        Ok(code) => Ok(Some(code)),
        Err(_) => {
            teller.say(&[
                word,
                ": a code is z-a-p, as 2-1-1: z 0 to 7, a 0 to 255, p 0 to 7",
            ]);
            Err(Stop::NoCode)
        }
    }
}

/// Why there is no picture about a destination without a plan, which is said if faults are explained.
pub fn no_plan(teller: Teller<'_>, about: Option<&str>) -> Stop {
    teller.say(&[
        "the network has no plan of ",
        about.unwrap_or(""),
        "; a picture shows the traffic to a destination that has one",
    ]);
    Stop::NoPlan
}

/// Draws the network of a file, about a destination if one is named, as an SVG text or as a DOT text.
pub fn draw(teller: Teller<'_>, net: &str, about: Option<&str>, svg: bool) -> Done {
    let alloc = teller.alloc();
    let code = read_about(teller, about)?;
    let net = Frozen::new(alloc, load_file(teller, net)?)?;
    let picture = if svg {
        write_svg(alloc, &net, code, None)
    } else {
        write_dot(alloc, &net, code, None)
    };
    match picture {
        Ok(text) => teller.tell(Ok(text)),
        Err(PictureFault::NoPlan) => Err(no_plan(teller, about)),
        Err(PictureFault::OutOfMemory) => Err(Stop::Fault(Fault::OutOfMemory)),
    }
}
