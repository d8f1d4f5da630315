//! Calls that are passed over, without taking memory.
ghost use Rattle.std.specs.Prelude.{◌≡◌};
ghost use Rattle.std.specs.Option.{option_map};
ghost use Rattle.call_grammar.specs.Reading.{Skips, rest_of, values_at, xdr_item};
ghost use Rattle.pt_calls.specs.Calls.{call_kind};
ghost use Rattle.pt_calls.specs.Reading.{call_of};
ghost use Rattle.pt_calls.specs.Shapes.{shape_at, value};

use crate::kinds::CallKind;
use crate::limits::MAX_LIST;
use crate::shapes::Shape;
use call_grammar::{NoValue, SignedItem, Source, TextItem, skip_list};
use ubik_types::Bytes;
use xdr_base::XdrReader;

/// The kind of the call that these bytes spell, all of them; none where they spell no call. It takes no memory.
pub fn kind_of(bytes: &[u8]) -> Option<CallKind>
    ensures { result ≡ option_map call_kind (call_of bytes.now) }
{
    let mut from = XdrReader::new(bytes);
    let Ok(number) = from.get_u32() else {
        return None;
    };
    let kind = CallKind::numbered(number)?;
    let Ok(()) = skip_all(&mut from, kind.shapes()) else {
        return None;
    };
    let Ok(()) = from.end() else {
        return None;
    };
    Some(kind)
}

/// Passes over a value of each of these shapes.
fn skip_all(from: &mut XdrReader<'_>, shapes: &[Shape]) -> Result<(), NoValue>
    ensures { Skips from.new result (rest_of (values_at value (shape_at xdr_item) shapes.now from.old)) }
{
    for shape in shapes {
        skip(from, *shape)?;
    }
    Ok(())
}

/// Passes over a value of this shape.
fn skip(from: &mut XdrReader<'_>, shape: Shape) -> Result<(), NoValue>
    ensures { Skips from.new result (rest_of (shape_at xdr_item shape from.old)) }
{
    match shape {
        Shape::Number => skip_number(from),
        Shape::Id => skip_id(from),
        Shape::Truth => skip_truth(from),
        Shape::Name => skip_name(from),
        Shape::Names => skip_list::<XdrReader<'_>, Bytes, TextItem>(from, MAX_LIST),
        Shape::Ids => skip_list::<XdrReader<'_>, i32, SignedItem>(from, MAX_LIST),
    }
}

fn skip_number(from: &mut XdrReader<'_>) -> Result<(), NoValue>
    ensures { Skips from.new result (rest_of (shape_at xdr_item Shape.Number from.old)) }
{
    from.number()?;
    Ok(())
}

fn skip_id(from: &mut XdrReader<'_>) -> Result<(), NoValue>
    ensures { Skips from.new result (rest_of (shape_at xdr_item Shape.Id from.old)) }
{
    from.signed()?;
    Ok(())
}

fn skip_truth(from: &mut XdrReader<'_>) -> Result<(), NoValue>
    ensures { Skips from.new result (rest_of (shape_at xdr_item Shape.Truth from.old)) }
{
    from.truth()?;
    Ok(())
}

fn skip_name(from: &mut XdrReader<'_>) -> Result<(), NoValue>
    ensures { Skips from.new result (rest_of (shape_at xdr_item Shape.Name from.old)) }
{
    from.text()?;
    Ok(())
}
