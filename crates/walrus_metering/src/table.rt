//! Tables of costs, as JSON texts.
use crate::costs::Costs;
use json::{Error as JsonError, Scratch, Value};
use std::alloc::Global;

/// The greatest cost of an operator. A body has fewer than 2^32 operators, so that what they cost is
/// an i64.
pub const MAX_COST: u64 = 0x7fff_ffff;

/// Why a table of costs isn't read.
#[derive(Drop)]
pub enum CostsError {
    /// Memory ran out.
    Memory,
    /// The text is no JSON text in UTF-8.
    NotJson,
    /// The JSON text isn't an object.
    NotATable,
    /// A name comes twice.
    GivenTwice,
    /// No operator has this name.
    NoOperator(String),
    /// What the operators with this name cost is no integer from 0 to `MAX_COST`.
    NotACost(String),
}

/// The JSON value of a text.
fn value_of<'t>(
    alloc: Global,
    bytes: &'t [u8],
    scratch: &'t mut Scratch,
) -> Result<Value<'t>, CostsError> {
    let Ok(text) = std::str::from_utf8(bytes) else {
        return Err(CostsError::NotJson);
    };
    match Value::parse_strict(alloc, text, scratch) {
        Ok(value) => Ok(value),
        Err(JsonError::Invalid) => Err(CostsError::NotJson),
        Err(JsonError::DuplicateKey) => Err(CostsError::GivenTwice),
        Err(_) => Err(CostsError::Memory),
    }
}

/// The cost that a JSON value is.
fn cost_of(value: &Value<'_>) -> Option<u32> {
    match value.as_u64() {
        Some(cost) if cost <= MAX_COST => Some(cost as u32),
        _ => None,
    }
}

/// Sets the costs of these members of an object.
fn set_members(
    alloc: Global,
    costs: &mut Costs,
    members: &Vec<(&str, Value<'_>)>,
) -> Result<(), CostsError> {
    for member in members {
        let Some(cost) = cost_of(&member.1) else {
            return Err(CostsError::not_a_cost(alloc, member.0));
        };
        if !costs.set_named(member.0, cost) {
            return Err(CostsError::no_operator(alloc, member.0));
        }
    }
    Ok(())
}

impl CostsError {
    /// No operator has this name.
    fn no_operator(alloc: Global, name: &str) -> CostsError {
        match String::from_str(alloc, name) {
            Ok(name) => CostsError::NoOperator(name),
            Err(_) => CostsError::Memory,
        }
    }

    /// The cost of the operators with this name is none.
    fn not_a_cost(alloc: Global, name: &str) -> CostsError {
        match String::from_str(alloc, name) {
            Ok(name) => CostsError::NotACost(name),
            Err(_) => CostsError::Memory,
        }
    }
}

/// The costs of the members of a JSON object.
fn costs_of(alloc: Global, value: &Value<'_>) -> Result<Costs, CostsError> {
    let Value::Object(members) = value else {
        return Err(CostsError::NotATable);
    };
    let Ok(mut costs) = Costs::new(alloc) else {
        return Err(CostsError::Memory);
    };
    match set_members(alloc, &mut costs, members) {
        Ok(()) => Ok(costs),
        Err(error) => Err(error),
    }
}

impl Costs {
    /// Reads a table of costs: a JSON object, whose members have the names of operators, as the
    /// standard's text format has them, and what these cost, integers from 0 to `MAX_COST`. All others
    /// cost 1.
    ///
    /// # Errors
    ///
    /// What is wrong with it; or `Memory`.
    pub fn read(alloc: Global, bytes: &[u8]) -> Result<Costs, CostsError> {
        let mut scratch = Scratch::new(alloc);
        match value_of(alloc, bytes, &mut scratch) {
            Ok(value) => costs_of(alloc, &value),
            Err(error) => Err(error),
        }
    }
}
