//! Objects whose values are texts.

ghost use Rattle.std.specs.Prelude.{◌≡◌, ◌∷◌, ◌++◌, [], OnOk, IfOk, map};
ghost use Rattle.json.specs.Json.{string};
ghost use Rattle.json.specs.Print.{print};
ghost use Rattle.json.specs.Tree.{json_tokens};
ghost use Rattle.json_answers.specs.Members.{Adds, member_tokens, object_with};
ghost use Rattle.json_answers.specs.Values.{members_text};

use crate::members::put_text;
use json::Writer;
use std::alloc::AllocError;

/// Writes members whose values are texts.
fn put_texts(writer: &mut Writer, texts: &[(&str, &str)]) -> Result<(), AllocError>
    ensures { OnOk result (Adds writer.old writer.new (member_tokens (map (λ f. (f.0.now, string f.1.now)) texts.now))) }
{
    let [(name, text), rest @ ..] = texts else {
        return Ok(());
    };
    put_text(writer, *name, *text)?;
    put_texts(writer, rest)
}

/// Writes an object whose values are texts.
fn put_texts_object(writer: &mut Writer, texts: &[(&str, &str)]) -> Result<(), AllocError>
    ensures { OnOk result (Adds writer.old writer.new (json_tokens (object_with (map (λ f. (f.0.now, string f.1.now)) texts.now)))) }
{
    writer.begin_object()?;
    put_texts(writer, texts)?;
    writer.end_object()
}

/// What a writer has written, with a line feed.
fn end_line(writer: Writer) -> Result<Vec<u8>, AllocError>
    ensures { IfOk result (λ all. all.items ≡ writer.before ++ (print writer.tokens ++ 10 ∷ [])) }
{
    let mut out = writer.into_inner();
    out.push(b'\n')?;
    Ok(out)
}

/// Writes an object whose values are texts after what a buffer holds, on a line of its own.
///
/// # Errors
///
/// `AllocError` if memory is refused; the buffer is gone then.
pub fn write_texts(out: Vec<u8>, texts: &[(&str, &str)]) -> Result<Vec<u8>, AllocError>
    ensures { IfOk result (λ all. all.items ≡ out.items ++ (members_text (map (λ f. (f.0.now, string f.1.now)) texts.now) ++ 10 ∷ [])) }
{
    let mut writer = Writer::new(out);
    put_texts_object(&mut writer, texts)?;
    end_line(writer)
}
