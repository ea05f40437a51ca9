//! The parts of a JSON text that are written around the text of the mappings.

ghost use Rattle.std.specs.Prelude.{◌≡◌, [], ◌∷◌, ◌++◌, IfOk, OnOk, IsUtf8, codes, drop};
ghost use Rattle.json.specs.Find.{get};
ghost use Rattle.json.specs.Print.{print};
ghost use Rattle.json.specs.Token.{begin_object, end_object, key, string};
ghost use Rattle.json.specs.Tree.{HasNumbers, MembersHaveNumbers};
ghost use Rattle.json.specs.Value.{value_view, members_view};
ghost use Rattle.source_map.specs.WrittenSourceMaps.{is_ordered, order};
ghost use Rattle.source_map.specs.Tokens.{AddsTokens, named_tokens, ordered_tokens, other_tokens};

use json::{Value, Writer};
use std::alloc::{AllocError, Global};

/// Whether a member with this name has a place in the order of those that the specification names.
fn is_ordered(name: &str) -> bool
    ensures { result ≡ is_ordered name.now }
{
    name == "version"
        || name == "file"
        || name == "sourceRoot"
        || name == "sources"
        || name == "sourcesContent"
        || name == "names"
        || name == "mappings"
}

/// Writes the last member with this name, if there is one.
fn put_named(out: &mut Writer, value: &Value<'_>, name: &str) -> Result<(), AllocError>
    requires { HasNumbers (value_view value.now) }
    ensures { OnOk result (AddsTokens out.old out.new
        (named_tokens name.now (get name.now (value_view value.now)))) }
{
    let Some(member) = value.get(name) else {
        return Ok(());
    };
    out.key(name)?;
    out.value(member)
}

/// Writes the members that have a place in the order, except the mappings.
fn put_ordered(out: &mut Writer, value: &Value<'_>) -> Result<(), AllocError>
    requires { HasNumbers (value_view value.now) }
    ensures { OnOk result (AddsTokens out.old out.new (ordered_tokens order (value_view value.now))) }
{
    put_named(out, value, "version")?;
    put_named(out, value, "file")?;
    put_named(out, value, "sourceRoot")?;
    put_named(out, value, "sources")?;
    put_named(out, value, "sourcesContent")?;
    put_named(out, value, "names")?;
    Ok(())
}

/// Writes all members that have no place in the order.
fn put_others(out: &mut Writer, members: &Vec<(&str, Value<'_>)>) -> Result<(), AllocError>
    requires { MembersHaveNumbers (members_view members.now.items) }
    ensures { OnOk result (AddsTokens out.old out.new
        (other_tokens (members_view members.now.items))) }
{
    'members: for member in members {
        if !is_ordered(member.0) {
            out.key(member.0)?;
            out.value(&member.1)?;
        }
    }
    Ok(())
}

/// The text that is written.
fn text_of(out: Writer) -> Vec<u8>
    requires { out.before ≡ [] }
    ensures text { result.items ≡ print out.tokens }
    ensures utf8 { IsUtf8 result.items }
{
    out.into_inner()
}

/// The text of an object up to the quotation mark before its mappings.
pub(crate) fn front_of(alloc: Global, value: &Value<'_>) -> Result<Vec<u8>, AllocError>
    requires { HasNumbers (value_view value.now) }
    ensures text { IfOk result (λ text. text.items
        ≡ print (begin_object ∷ (ordered_tokens order (value_view value.now)
        ++ key (codes "mappings") ∷ [])) ++ 34 ∷ []) }
    ensures utf8 { IfOk result (λ text. IsUtf8 text.items) }
{
    let mut out = Writer::new(Vec::new(alloc));
    out.begin_object()?;
    put_ordered(&mut out, value)?;
    out.key("mappings")?;
    let mut text = text_of(out);
    text.push(b'"')?;
    Ok(text)
}

/// The text without its first byte.
fn without_first(text: &[u8]) -> &[u8]
    ensures { result.now ≡ drop 1 text.now }
{
    match text {
        [] => text,
        [_, rest @ ..] => rest,
    }
}

/// The text of an object from the quotation mark after its mappings on.
pub(crate) fn back_of(
    alloc: Global,
    members: &Vec<(&str, Value<'_>)>,
) -> Result<Vec<u8>, AllocError>
    requires { MembersHaveNumbers (members_view members.now.items) }
    ensures text { IfOk result (λ text. text.items
        ≡ drop 1 (print (string [] ∷ (other_tokens (members_view members.now.items)
        ++ end_object ∷ [])))) }
    ensures utf8 { IfOk result (λ text. IsUtf8 text.items) }
{
    let mut out = Writer::new(Vec::new(alloc));
    // No mappings: a comma is written before what comes after them.
    out.string("")?;
    put_others(&mut out, members)?;
    out.end_object()?;
    let text = text_of(out);
    let mut back = Vec::new(alloc);
    back.extend_from_slice(without_first(&text))?;
    Ok(back)
}
