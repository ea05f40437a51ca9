//! Contexts as text, a line for each index space.
use hex::FromHexError;
use std::alloc::{AllocError, Global};
use std::test::Fail;
use wasm_context::{AddressType, CompositeType, Context, DefinedType, FieldType, StorageType};

// Appends the bytes of a part of a module that is written in hexadecimal.
fn push_bytes(bytes: &mut Vec<u8>, module: &str) -> Result<(), FromHexError> {
    let alloc = *bytes.allocator();
    for part in module.split(' ') {
        bytes.extend_from_slice(&hex::decode(alloc, part)?)?;
    }
    Ok(())
}

/// The bytes of a module that is written as its preamble and its sections in hexadecimal, with spaces
/// between them.
pub(crate) fn bytes_of(alloc: Global, module: &str) -> Result<Vec<u8>, Fail> {
    let mut bytes = Vec::new(alloc);
    match push_bytes(&mut bytes, module) {
        Ok(()) => Ok(bytes),
        Err(error) => Err(Fail::from(error)),
    }
}

fn push_field(text: &mut String, field: FieldType) -> Result<(), AllocError> {
    let mutability = if field.mutable { "var" } else { "const" };
    match field.storage {
        StorageType::I8 => write!(text, " {mutability} i8"),
        StorageType::I16 => write!(text, " {mutability} i16"),
        StorageType::Value(ty) => write!(text, " {mutability} {ty:?}"),
    }
}

fn push_fields(text: &mut String, fields: &[FieldType]) -> Result<(), AllocError> {
    for field in fields {
        push_field(text, *field)?;
    }
    Ok(())
}

fn push_composite(text: &mut String, composite: &CompositeType) -> Result<(), AllocError> {
    match composite {
        CompositeType::Function { params, results } => {
            write!(text, "func {params:?} {results:?}")
        }
        CompositeType::Struct(fields) => {
            write!(text, "struct")?;
            push_fields(text, fields)
        }
        CompositeType::Array(element) => {
            write!(text, "array")?;
            push_field(text, *element)
        }
    }
}

fn push_types(text: &mut String, types: &[DefinedType]) -> Result<(), AllocError> {
    for ty in types {
        push_composite(text, &ty.composite)?;
        writeln!(text, "; supertype {:?}; first {}", ty.supertype, ty.first)?;
    }
    Ok(())
}

fn push_address(text: &mut String, address: AddressType) -> Result<(), AllocError> {
    match address {
        AddressType::Address32 => write!(text, "i32"),
        AddressType::Address64 => write!(text, "i64"),
    }
}

fn push_tables(text: &mut String, context: &Context) -> Result<(), AllocError> {
    for table in &context.tables {
        write!(text, "table ")?;
        push_address(text, table.address)?;
        writeln!(text, " {:?}", table.element)?;
    }
    Ok(())
}

fn push_memories(text: &mut String, context: &Context) -> Result<(), AllocError> {
    for memory in &context.memories {
        write!(text, "memory ")?;
        push_address(text, *memory)?;
        writeln!(text, "")?;
    }
    Ok(())
}

fn push_globals(text: &mut String, context: &Context) -> Result<(), AllocError> {
    for global in &context.globals {
        let mutability = if global.mutable { "var" } else { "const" };
        writeln!(text, "global {mutability} {:?}", global.ty)?;
    }
    Ok(())
}

/// Appends what is in a context.
pub(crate) fn push_context(text: &mut String, context: &Context) -> Result<(), AllocError> {
    push_types(text, &context.types)?;
    writeln!(text, "functions {:?}", context.functions)?;
    writeln!(text, "referenced {:?}", context.referenced)?;
    push_tables(text, context)?;
    push_memories(text, context)?;
    push_globals(text, context)?;
    writeln!(text, "elements {:?}", context.elements)?;
    writeln!(text, "data segments {}", context.data_segments)?;
    writeln!(text, "tags {:?}", context.tags)
}
