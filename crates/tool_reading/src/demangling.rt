//! The names that Rust's compiler gives to functions, as a reader knows them: without the hash at the
//! end, and with `::` between their parts. Of the two ways in which it writes them, this is the one
//! that begins with `_ZN`.

use std::alloc::AllocError;

/// What the name of a function begins with.
const PREFIXES: [&str; 3] = ["_ZN", "__ZN", "ZN"];

/// What follows the prefix of a name, if it has one.
fn without_prefix(name: &str) -> Option<&str> {
    for prefix in &PREFIXES {
        if let Some(rest) = name.strip_prefix(*prefix) {
            return Some(rest);
        }
    }
    None
}

/// The first part of a name, before which its length is written, and what follows it.
fn first_part(text: &str) -> Option<(&str, &str)> {
    let digits = text.find(|c: char| !c.is_ascii_digit())?;
    let (number, rest) = text.split_at_checked(digits)?;
    match number.parse::<usize>() {
        Ok(len) => rest.split_at_checked(len),
        Err(_) => None,
    }
}

/// Whether a part of a name is the hash at its end.
fn is_hash(part: &str) -> bool {
    match part.strip_prefix('h') {
        Some(digits) => digits.len() == 16 && digits.bytes().all(|digit| digit.is_ascii_hexdigit()),
        None => false,
    }
}

/// The character for which an escape is written, which is between two `$`.
fn unescaped(escape: &str) -> Option<char> {
    match escape {
        "SP" => Some('@'),
        "BP" => Some('*'),
        "RF" => Some('&'),
        "LT" => Some('<'),
        "GT" => Some('>'),
        "LP" => Some('('),
        "RP" => Some(')'),
        "C" => Some(','),
        _ => match u32::from_str_radix(escape.strip_prefix('u')?, 16) {
            Ok(code) => char::from_u32(code),
            Err(_) => None,
        },
    }
}

/// Appends text that has no escapes, with `::` for two points.
fn push_plain(text: &str, out: &mut String) -> Result<(), AllocError> {
    let mut is_first = true;
    for piece in text.split("..") {
        if !is_first {
            out.push_str("::")?;
        }
        is_first = false;
        out.push_str(piece)?;
    }
    Ok(())
}

/// Appends a part of a name.
fn push_part(part: &str, out: &mut String) -> Result<(), AllocError> {
    let part = match part.strip_prefix('_') {
        Some(rest) if rest.starts_with('$') => rest,
        _ => part,
    };
    let mut is_escape = false;
    for piece in part.split('$') {
        match unescaped(piece) {
            Some(character) if is_escape => out.push(character)?,
            _ => push_plain(piece, out)?,
        }
        is_escape = !is_escape;
    }
    Ok(())
}

/// Writes a name as a reader knows it, if it is written in that way.
fn demangle_parts(name: &str, out: &mut String) -> Result<bool, AllocError> {
    let Some(mut rest) = without_prefix(name) else {
        return Ok(false);
    };
    for _ in 0..name.len() {
        let Some((part, after)) = first_part(rest) else {
            break;
        };
        rest = after;
        if is_hash(part) && rest.starts_with('E') {
            break;
        }
        if !out.is_empty() {
            out.push_str("::")?;
        }
        push_part(part, out)?;
    }
    Ok(rest.starts_with('E') && !out.is_empty())
}

/// Writes a name as a reader knows it, in the place of what is there: one of Rust demangled, and one
/// that some tool has demangled without its hash. Returns whether it then differs from the name.
///
/// # Errors
///
/// Where memory runs out.
pub(crate) fn demangle(name: &str, out: &mut String) -> Result<bool, AllocError> {
    out.clear();
    if demangle_parts(name, out)? {
        return Ok(true);
    }
    match name.rsplit_once("::") {
        Some((path, last)) if is_hash(last) => {
            out.clear();
            out.push_str(path)?;
            Ok(true)
        }
        _ => Ok(false),
    }
}
