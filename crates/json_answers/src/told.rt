//! Values that are told as objects.

ghost use Rattle.std.specs.Prelude.{◌∷◌, [], OnOk, map};
ghost use Rattle.json.specs.Json.{array};
ghost use Rattle.json.specs.Tree.{json_tokens};
ghost use Rattle.json.specs.Value.{items_of};
ghost use Rattle.json_answers.specs.Members.{Adds, member_tokens, object_with};
ghost use Rattle.json_answers.specs.Values.{list_member};

use json::Writer;
use std::alloc::{AllocError, Global};

/// A value that is told as an object.
pub trait Told {
    ghost use Rattle.std.specs.Prelude.{List, OnOk};
    ghost use Rattle.json_answers.specs.Members.{Adds, Member, member_tokens};

    // The members of its object.
    ghost members: { Self → List Member };

    /// Writes the members of its object.
    fn put_members(&self, alloc: Global, writer: &mut Writer) -> Result<(), AllocError>
        ensures { OnOk result (Adds writer.old writer.new (member_tokens (members self.now))) };
}

/// Writes the object of a value.
pub fn put_object<T: Told>(alloc: Global, writer: &mut Writer, value: &T) -> Result<(), AllocError>
    ensures { OnOk result (Adds writer.old writer.new (json_tokens (object_with (T.members value.now)))) }
{
    writer.begin_object()?;
    value.put_members(alloc, writer)?;
    writer.end_object()
}

/// Writes the object of a value under a name.
pub fn put_told<T: Told>(
    alloc: Global,
    writer: &mut Writer,
    name: &str,
    value: &T,
) -> Result<(), AllocError>
    ensures { OnOk result (Adds writer.old writer.new (member_tokens ((name.now, object_with (T.members value.now)) ∷ []))) }
{
    writer.key(name)?;
    put_object(alloc, writer, value)
}

/// Writes the objects of some values as an array.
fn put_objects<T: Told>(alloc: Global, writer: &mut Writer, values: &[T]) -> Result<(), AllocError>
    ensures { OnOk result (Adds writer.old writer.new (json_tokens (array (items_of (map (λ x. object_with (T.members x)) values.now))))) }
{
    writer.begin_array()?;
    for value in values {
        put_object(alloc, writer, value)?;
    }
    writer.end_array()
}

/// Writes a list of objects under a name.
pub fn put_list<T: Told>(
    alloc: Global,
    writer: &mut Writer,
    name: &str,
    values: &[T],
) -> Result<(), AllocError>
    ensures { OnOk result (Adds writer.old writer.new (member_tokens (list_member name.now T.members values.now ∷ []))) }
{
    writer.key(name)?;
    put_objects(alloc, writer, values)
}
