//! Pictures of the published network, and the network after all accepted events, for files.

ghost use Rattle.std.specs.Prelude.{◌≡◌, false, IfErr, IfOk, string_bytes};
ghost use Rattle.pictures.specs.Shown.{picture_fault, lacks_plan};
ghost use Rattle.desk_console.specs.Does.{save_told};
ghost use Rattle.desk_console.specs.Pictures.{is_svg as ends_in_svg, picture_for, picture_told};

use answers::{Answer, Boxed, NetAnswer, Reason, Text};
use net_data::Net;
use net_versions::Version;
use pictures::{PictureFault, write_dot, write_svg};
use point_codes::PointCode;
use std::alloc::{AllocError, Global};
use std::path::Path;

/// Whether the name of a file ends in `.svg`, in small letters or in capitals.
fn is_svg(file: &str) -> bool
    ensures { result ≡ ends_in_svg file.now }
{
    match Path::new(file).extension() {
        Some(ending) => ending.eq_ignore_ascii_case("svg"),
        None => false,
    }
}

/// The picture of a version for a file: an SVG document if its name ends in `.svg`, in either case, else a DOT text.
fn draw(
    alloc: Global,
    file: &str,
    version: &Version,
    about: Option<PointCode>,
) -> Result<String, PictureFault>
    ensures text { IfOk result (λ text. string_bytes text ≡ picture_for file.now version.now.network about version.now.number) }
    ensures planned { IfOk result (λ _. lacks_plan version.now.network about ≡ false) }
    ensures fault { IfErr result (λ fault. fault ≡ picture_fault version.now.network about) }
{
    if is_svg(file) {
        return write_svg(alloc, version.net(), about, Some(version.number()));
    }
    write_dot(alloc, version.net(), about, Some(version.number()))
}

/// The picture for a file, as an answer.
fn told(alloc: Global, file: &str, picture: String) -> Result<Answer, AllocError>
    ensures { IfOk result (λ answer. answer ≡ Answer.Net (NetAnswer.Picture file.now (string_bytes picture))) }
{
    let file = Text::from_string(String::from_str(alloc, file)?);
    let picture = Boxed::new(alloc, Text::from_string(picture))?;
    Ok(Answer::Net(NetAnswer::Picture(file, picture)))
}

/// The answer to `picture FILE` and `picture FILE X`: a picture of a version, about a destination if one is named, for that
/// file. It is refused 26 NoPlan if the destination has no plan, and fails if memory is refused.
pub fn answer_picture(
    alloc: Global,
    version: &Version,
    file: &str,
    about: Option<PointCode>,
) -> Result<Answer, AllocError>
    ensures { IfOk result (λ answer. answer ≡ picture_told file.now version.now.network about version.now.number) }
{
    match draw(alloc, file, version, about) {
        Ok(picture) => told(alloc, file, picture),
        Err(PictureFault::NoPlan) => Ok(Answer::Refused(Reason::NoPlan)),
        Err(PictureFault::OutOfMemory) => Err(AllocError),
    }
}

/// The answer to `save FILE`: a copy of a network for that file. It fails if memory is refused.
pub fn answer_save(alloc: Global, net: &Net, file: &str) -> Result<Answer, AllocError>
    ensures { IfOk result (λ answer. answer ≡ save_told file.now net.now) }
{
    let file = Text::from_string(String::from_str(alloc, file)?);
    let copy = Boxed::new(alloc, net.copy(alloc)?)?;
    Ok(Answer::Net(NetAnswer::Saving(file, copy)))
}
