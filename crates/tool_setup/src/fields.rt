//! Reads the values of single fields.
ghost use Rattle.std.specs.Prelude.{◌≡◌, map, option_map, IfOk};
ghost use Rattle.serde_json.specs.View.{view, members_view};
ghost use Rattle.tool_setup.specs.declared.config.ConfigFault.TheVariants.{Memory};
ghost use Rattle.tool_setup.specs.Gives.{Gives};
ghost use Rattle.tool_setup.specs.Fields.{all_named, is_named, text_in, text_or};
ghost use Rattle.tool_setup.specs.Fields.{flag_or, number_or, export_or};

use crate::config::{ConfigFault, Field};
use sector_extent::Bytes;
use serde_json::{Map, Value};
use std::alloc::{AllocError, Global};

/// Whether each name of an object is one of these.
pub fn has_only(members: &Map<String, Value>, names: &[&str]) -> bool
    ensures { result ≡ all_named (is_named (map (λ known. known.now) names.now)) (members_view members.now.entries) }
{
    for (name, _value) in members.iter() {
        if !is_among(name.as_str(), names) {
            return false;
        }
    }
    true
}

fn is_among(name: &str, names: &[&str]) -> bool
    ensures { result ≡ is_named (map (λ known. known.now) names.now) name.now }
{
    names.contains(&name)
}

/// A text as bytes.
pub fn copy(alloc: Global, text: &str) -> Result<Bytes, AllocError>
    ensures { IfOk result (λ bytes. bytes ≡ text.now) }
{
    Ok(Bytes::from_vec(Vec::from_slice(alloc, text.as_bytes())?))
}

/// A text that is not empty.
pub fn read_text(alloc: Global, field: Field, value: &Value) -> Result<Bytes, ConfigFault>
    ensures { Gives Memory (text_in field (view value.now)) result }
{
    match value.as_str() {
        Some(text) => {
            if text.is_empty() {
                return Err(ConfigFault::BadField(field));
            }
            Ok(copy(alloc, text)?)
        }
        None => Err(ConfigFault::BadField(field)),
    }
}

/// A text that is not empty, or where there is no value, this one.
pub fn read_text_or(
    alloc: Global,
    field: Field,
    value: Option<&Value>,
    default: &str,
) -> Result<Bytes, ConfigFault>
    ensures { Gives Memory (text_or field default.now (option_map (λ v. view v.now) value.entry)) result }
{
    match value {
        Some(value) => read_text(alloc, field, value),
        None => Ok(copy(alloc, default)?),
    }
}

/// The name of the export, which is empty where there is no value.
pub fn read_export(alloc: Global, value: Option<&Value>) -> Result<Bytes, ConfigFault>
    ensures { Gives Memory (export_or (option_map (λ v. view v.now) value.entry)) result }
{
    match value {
        Some(value) => match value.as_str() {
            Some(text) => {
                if text.len() > 4096 {
                    return Err(ConfigFault::BadField(Field::Export));
                }
                Ok(copy(alloc, text)?)
            }
            None => Err(ConfigFault::BadField(Field::Export)),
        },
        None => Ok(copy(alloc, "")?),
    }
}

/// A truth value, which is false where there is none.
pub fn read_flag(field: Field, value: Option<&Value>) -> Result<bool, ConfigFault>
    ensures { result ≡ flag_or field (option_map (λ v. view v.now) value.entry) }
{
    match value {
        Some(value) => match value.as_bool() {
            Some(flag) => Ok(flag),
            None => Err(ConfigFault::BadField(field)),
        },
        None => Ok(false),
    }
}

/// A number from 1 to that most, or where there is no value, this one.
pub fn read_number(
    field: Field,
    value: Option<&Value>,
    most: u32,
    default: u32,
) -> Result<u32, ConfigFault>
    ensures { result ≡ number_or field most default (option_map (λ v. view v.now) value.entry) }
{
    match value {
        Some(value) => match value.as_u64() {
            Some(number) => {
                if number < 1 || number > most as u64 {
                    return Err(ConfigFault::BadField(field));
                }
                Ok(number as u32)
            }
            None => Err(ConfigFault::BadField(field)),
        },
        None => Ok(default),
    }
}
