//! Lists of depositors, as they are written in TOML.
ghost use Rattle.std.specs.Prelude.{◌≡◌, IfOk, option_map, codes};
ghost use Rattle.toml.specs.Data.{get_member};
ghost use Rattle.toml.specs.View.{items_view, table_view, view};
ghost use Rattle.command_line.specs.Rosters as meant;

use segments::Who;
use std::alloc::{AllocError, Global};
use toml::{Table, Value};

// The partner that a value names; None where it is no text that names one.
fn partner(value: &Value) -> Option<Who>
    ensures { result ≡ meant.partner_in (view value.now) }
{
    match value.as_str() {
        Some(text) => Who::new(text.as_bytes()),
        None => None,
    }
}

// The depositors that the values name; None where one of them is no text that names one.
fn partners(alloc: Global, values: &[Value]) -> Result<Option<Vec<Who>>, AllocError>
    ensures { IfOk result
        (λ found. option_map (λ v. v.items) found ≡ meant.partners_in (items_view values.now)) }
{
    let mut found = Vec::new(alloc);
    for value in values {
        match partner(value) {
            Some(who) => found.push(who)?,
            None => return Ok(None),
        }
    }
    Ok(Some(found))
}

// The depositors that a table's key `depositors` names; None where that is no array of partners.
fn listed(alloc: Global, table: &Table) -> Result<Option<Vec<Who>>, AllocError>
    ensures { IfOk result
        (λ found. option_map (λ v. v.items) found
        ≡ meant.listed (get_member (codes "depositors") (table_view table.now))) }
{
    let Some(value) = table.get("depositors") else {
        return Ok(None);
    };
    match value.as_array() {
        Some(values) => partners(alloc, values),
        None => Ok(None),
    }
}

/// The depositors that a list names, in its order: a TOML text whose key `depositors` is an array
/// of partners as `ZZ-ACME`; its other keys say nothing. None where it is another text. The one
/// error is want of memory.
pub fn depositors(alloc: Global, text: &[u8]) -> Result<Option<Vec<Who>>, AllocError>
    ensures { IfOk result (λ found. meant.IsRosterRead text.now (option_map (λ v. v.items) found)) }
{
    match toml::table_from_slice(alloc, text) {
        Ok(table) => listed(alloc, &table),
        Err(error) if error.is_memory() => Err(AllocError),
        Err(_) => Ok(None),
    }
}
