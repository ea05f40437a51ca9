//! Reading source maps.

ghost use Rattle.std.specs.Prelude.{◌≡◌, ◌↔◌, List, ℕ, Some, IfOk, IfErr, IsSome, IsTrue, codes};
ghost use Rattle.json.specs.Find.{get, as_object};
ghost use Rattle.json.specs.Json.{Members, document, string};
ghost use Rattle.json.specs.Tree.{HasNumbers};
ghost use Rattle.json.specs.Value.{value_view};
ghost use Rattle.source_map.specs.declared.mapping.Mapping.{Mapping as AMapping};
ghost use Rattle.source_map.specs.Spelling.{SpellsMappings};
ghost use Rattle.source_map.specs.Refusals.{HasVersion3, IsErrorOf};
ghost use Rattle.source_map.specs.WrittenSourceMaps.{IsReadFrom};

use crate::fault::MappingsError;
use crate::json_text::fault::{SourceMapError, SourceMapFault};
use crate::json_text::parts::{back_of, front_of};
use crate::json_text::source_map::SourceMap;
use crate::unread_segments::check;
use json::{Error as JsonError, MAX_DEPTH, Reader, Scratch, Value};
use std::alloc::Global;

/// The value of a JSON text.
fn read_text<'a>(
    alloc: Global,
    text: &'a str,
    scratch: &'a mut Scratch,
) -> Result<Value<'a>, SourceMapError>
    ensures value { IfOk result (λ v. document text.now ≡ Some (value_view v)) }
    ensures refused { IfErr result (IsErrorOf text.now) }
{
    let Ok(mut reader) = Reader::new(text, scratch) else {
        return Err(SourceMapError::Memory);
    };
    let value = match Value::read(alloc, &mut reader, MAX_DEPTH) {
        Ok(value) => value,
        Err(JsonError::Invalid) => {
            return Err(SourceMapError::not_json(text.as_bytes(), reader.offset()));
        }
        Err(_) => return Err(SourceMapError::Memory),
    };
    let end = reader.offset();
    match reader.next() {
        None => Ok(value),
        Some(_) => Err(SourceMapError::not_json(text.as_bytes(), end)),
    }
}

/// Whether the version is the number 3.
fn is_version_3(value: &Value<'_>) -> bool
    ensures { IsTrue result ↔ HasVersion3 (value_view value.now) }
{
    match value.get("version") {
        Some(Value::Number(text)) => *text == "3",
        _ => false,
    }
}

/// The text of the mappings of a JSON object, which has the version 3. They can be read.
fn mappings_of<'v>(value: &'v Value<'_>) -> Result<&'v [u8], SourceMapError>
    requires { IsSome (as_object (value_view value.now)) }
    ensures mappings { IfOk result (λ text. HasVersion3 (value_view value.now)
        × (get (codes "mappings") (value_view value.now) ≡ Some (string text.now))
        × (all : List AMapping) × SpellsMappings all text.now) }
    ensures refused { IfErr result (λ e. (source : List ℕ)
        → document source ≡ Some (value_view value.now) → IsErrorOf source e) }
{
    if !is_version_3(value) {
        return Err(SourceMapError::Fault(SourceMapFault::BadSourceMapVersion));
    }
    let Some(Value::String(text)) = value.get("mappings") else {
        return Err(SourceMapError::Fault(SourceMapFault::NoMappings));
    };
    let text = text.as_bytes();
    match check(text) {
        Ok(()) => Ok(text),
        Err(fault) => Err(SourceMapError::from(MappingsError::Fault(fault))),
    }
}

/// The source map of a JSON value.
fn source_map_of(alloc: Global, value: &Value<'_>) -> Result<SourceMap, SourceMapError>
    requires { HasNumbers (value_view value.now) }
    ensures map { IfOk result (λ map. (source : List ℕ)
        → document source ≡ Some (value_view value.now)
        → (members : Members) × IsReadFrom source members map) }
    ensures refused { IfErr result (λ e. (source : List ℕ)
        → document source ≡ Some (value_view value.now) → IsErrorOf source e) }
{
    let Value::Object(members) = value else {
        return Err(SourceMapError::Fault(SourceMapFault::NotASourceMap));
    };
    let text = match mappings_of(value) {
        Ok(text) => text,
        Err(error) => return Err(error),
    };
    let Ok(mappings) = Vec::from_slice(alloc, text) else {
        return Err(SourceMapError::Memory);
    };
    let front = match front_of(alloc, value) {
        Ok(front) => front,
        Err(_) => return Err(SourceMapError::Memory),
    };
    let back = match back_of(alloc, members) {
        Ok(back) => back,
        Err(_) => return Err(SourceMapError::Memory),
    };
    Ok(SourceMap {
        front,
        back,
        mappings,
    })
}

impl SourceMap {
    /// Reads a source map: a JSON text in UTF-8. The generated program has one line, so a column is
    /// an offset.
    ///
    /// # Errors
    ///
    /// What is wrong with it; or `Memory`.
    pub fn read(alloc: Global, bytes: &[u8]) -> Result<SourceMap, SourceMapError>
        ensures read { IfOk result (λ map. (members : Members) × IsReadFrom bytes.now members map) }
        ensures refused { IfErr result (IsErrorOf bytes.now) }
    {
        let text = match std::str::from_utf8(bytes) {
            Ok(text) => text,
            Err(error) => return Err(SourceMapError::not_json(bytes, error.valid_up_to())),
        };
        let mut scratch = Scratch::new(alloc);
        match read_text(alloc, text, &mut scratch) {
            Ok(value) => source_map_of(alloc, &value),
            Err(error) => Err(error),
        }
    }
}
