//! A check of a file as an object.

ghost use Rattle.std.specs.Prelude.{◌≡◌, IfOk, string_bytes};
ghost use Rattle.json_answers.specs.Checks.{right_members, wrong_members};
ghost use Rattle.json_answers.specs.Form.{object_line};

use crate::members::{put_numbered, put_word};
use crate::nets::put_complaint;
use crate::objects::put_line;
use crate::told::Told;
use json::Writer;
use point_codes::PointCode;
use std::alloc::{AllocError, Global};
use transfer_state::Complaint;

/// So many tables, each right.
#[derive(Clone, Copy)]
struct Right {
    plans: u64,
}

impl Told for Right {
    ghost use Rattle.json_answers.specs.Checks.{right_members};

    ghost members = { λ right. right_members right.plans };

    fn put_members(&self, _alloc: Global, writer: &mut Writer) -> Result<(), AllocError> {
        put_numbered(writer, "ok", "plans", self.plans)
    }
}

/// The first wrong table: its destination, and the first complaint about it.
#[derive(Clone, Copy)]
struct Wrong {
    dest: PointCode,
    complaint: Complaint,
}

impl Told for Wrong {
    ghost use Rattle.json_answers.specs.Checks.{wrong_members};

    ghost members = { λ wrong. wrong_members wrong.dest wrong.complaint };

    fn put_members(&self, alloc: Global, writer: &mut Writer) -> Result<(), AllocError> {
        put_word(writer, "bad")?;
        put_complaint(alloc, writer, self.dest, self.complaint)
    }
}

/// The object of a check that finds so many tables right, on a line of its own. It fails if memory is refused.
pub fn write_right(alloc: Global, plans: usize) -> Result<String, AllocError>
    ensures { IfOk result (λ text. string_bytes text ≡ object_line (right_members plans)) }
{
    let mut text = String::new(alloc);
    let right = Right {
        plans: plans as u64,
    };
    put_line(alloc, &mut text, &right)?;
    Ok(text)
}

/// The object of a check that finds a wrong table, on a line of its own. It fails if memory is refused.
pub fn write_wrong(
    alloc: Global,
    dest: PointCode,
    complaint: Complaint,
) -> Result<String, AllocError>
    ensures { IfOk result (λ text. string_bytes text ≡ object_line (wrong_members dest complaint)) }
{
    let mut text = String::new(alloc);
    put_line(alloc, &mut text, &Wrong { dest, complaint })?;
    Ok(text)
}
