//! Writing mappings.

ghost use Rattle.std.specs.Prelude.{◌≡◌, ◌++◌, IfOk, OnOk};
ghost use Rattle.source_map.specs.Shortest.{short_name, short_original, short_segment, spelling};

use crate::fields::Fields;
use crate::mapping::{Mapping, Original};
use crate::number::write_field;
use std::alloc::{AllocError, Global};

/// Appends the name of a segment, if it has one.
fn write_name(out: &mut Vec<u8>, before: u32, name: Option<u32>) -> Result<(), AllocError>
    ensures { OnOk result (out.new.items ≡ out.old.items ++ short_name before name) }
{
    match name {
        None => Ok(()),
        Some(name) => write_field(out, before, name),
    }
}

/// Appends the fields of a segment after the first.
fn write_original(
    out: &mut Vec<u8>,
    fields: Fields,
    original: Option<Original>,
) -> Result<(), AllocError>
    ensures { OnOk result (out.new.items ≡ out.old.items ++ short_original fields original) }
{
    let Some(original) = original else {
        return Ok(());
    };
    write_field(out, fields.source, original.source)?;
    write_field(out, fields.line, original.line)?;
    write_field(out, fields.column, original.column)?;
    write_name(out, fields.name, original.name)
}

/// Appends a segment.
pub(crate) fn write_segment(
    out: &mut Vec<u8>,
    fields: Fields,
    mapping: Mapping,
) -> Result<(), AllocError>
    ensures { OnOk result (out.new.items ≡ out.old.items ++ short_segment fields mapping) }
{
    write_field(out, fields.generated, mapping.generated)?;
    write_original(out, fields, mapping.original)
}

/// Appends the text of `mappings`: each number with as few digits as possible.
pub(crate) fn write_mappings(out: &mut Vec<u8>, mappings: &[Mapping]) -> Result<(), AllocError>
    ensures { OnOk result (out.new.items ≡ out.old.items ++ spelling mappings.now) }
{
    let [first, others @ ..] = mappings else {
        return Ok(());
    };
    let mut fields = Fields::start();
    write_segment(out, fields, *first)?;
    fields = fields.after(*first);
    for mapping in others {
        out.push(b',')?;
        write_segment(out, fields, *mapping)?;
        fields = fields.after(*mapping);
    }
    Ok(())
}

/// The text of `mappings`: each number with as few digits as possible. If the mappings are sorted
/// by their generated columns, it is read back as the same mappings.
///
/// # Errors
///
/// Out of memory.
pub fn encode(alloc: Global, mappings: &[Mapping]) -> Result<Vec<u8>, AllocError>
    ensures { IfOk result (λ text. text.items ≡ spelling mappings.now) }
{
    let mut out = Vec::new(alloc);
    write_mappings(&mut out, mappings)?;
    Ok(out)
}
