//! Reads where the lower layers stand.
ghost use Rattle.std.specs.Prelude.{◌≡◌, ◌≤◌, length, map, option_map, Some};
ghost use Rattle.std.specs.List.{list_all};
ghost use Rattle.serde_json.specs.Find.{as_object};
ghost use Rattle.serde_json.specs.View.{view, members_view};
ghost use Rattle.tool_setup.specs.declared.config.ConfigFault.TheVariants.{Memory};
ghost use Rattle.tool_setup.specs.Gives.{Gives};
ghost use Rattle.tool_setup.specs.Fields.{files_in, host_in, is_host, is_path, is_path_byte, is_visible, lowers_in, lowers_or, paths_in, texts_in};

use crate::config::{ConfigFault, Field, Lowers, TextList};
use crate::fields::{copy, has_only};
use sector_extent::Bytes;
use serde_json::{Map, Value};
use std::alloc::Global;

/// Why the lowers are refused.
const BAD: ConfigFault = ConfigFault::BadField(Field::Lowers);

/// The lowers of a configuration, which are none where there is no value.
pub fn read_lowers(alloc: Global, value: Option<&Value>) -> Result<Lowers, ConfigFault>
    ensures { Gives Memory (lowers_or (option_map (λ v. view v.now) value.entry)) result }
{
    match value {
        Some(value) => match value.as_object() {
            Some(members) => read_form(alloc, value, members),
            None => Err(BAD),
        },
        None => Ok(Lowers::Files(TextList::from_vec(Vec::new(alloc)))),
    }
}

fn read_form(
    alloc: Global,
    value: &Value,
    members: &Map<String, Value>,
) -> Result<Lowers, ConfigFault>
    requires { Some (members_view members.now.entries) ≡ as_object (view value.now) }
    ensures { Gives Memory (lowers_in (members_view members.now.entries)) result }
{
    if has_only(members, &["files"]) {
        Ok(Lowers::Files(read_texts(alloc, value.get("files"))?))
    } else if has_only(members, &["host", "paths"]) {
        let host = read_host(alloc, value.get("host"))?;
        let paths = read_paths(alloc, value.get("paths"))?;
        Ok(Lowers::Remote { host, paths })
    } else {
        Err(BAD)
    }
}

fn read_host(alloc: Global, value: Option<&Value>) -> Result<Bytes, ConfigFault>
    ensures { Gives Memory (host_in (option_map (λ v. view v.now) value.entry)) result }
{
    match value {
        Some(value) => match value.as_str() {
            Some(text) => {
                if !is_host(text.as_bytes()) {
                    return Err(BAD);
                }
                Ok(copy(alloc, text)?)
            }
            None => Err(BAD),
        },
        None => Err(BAD),
    }
}

// Texts that are paths on a host.
fn read_paths(alloc: Global, value: Option<&Value>) -> Result<TextList, ConfigFault>
    ensures { Gives Memory (paths_in (option_map (λ v. view v.now) value.entry)) result }
{
    let paths = read_texts(alloc, value)?;
    if are_paths(paths.as_slice()) {
        Ok(paths)
    } else {
        Err(BAD)
    }
}

fn are_paths(paths: &[Bytes]) -> bool
    ensures { result ≡ list_all is_path paths.now }
{
    paths.iter().all(|path| is_path(path.as_slice()))
}

// At most 255 texts.
fn read_texts(alloc: Global, value: Option<&Value>) -> Result<TextList, ConfigFault>
    ensures { Gives Memory (files_in (option_map (λ v. view v.now) value.entry)) result }
{
    match value {
        Some(value) => match value.as_array() {
            Some(items) => {
                if items.len() > 255 {
                    return Err(BAD);
                }
                copy_texts(alloc, items.as_slice())
            }
            None => Err(BAD),
        },
        None => Err(BAD),
    }
}

fn copy_texts(alloc: Global, items: &[Value]) -> Result<TextList, ConfigFault>
    ensures { Gives Memory (texts_in (map view items.now)) result }
{
    let mut texts = Vec::new(alloc);
    for item in items {
        match item.as_str() {
            Some(text) => texts.push(copy(alloc, text)?)?,
            None => return Err(BAD),
        }
    }
    Ok(TextList::from_vec(texts))
}

// The name of a host has only visible ASCII characters.
fn is_host(host: &[u8]) -> bool
    ensures { result ≡ is_host host.now }
{
    host.iter().all(|byte| is_visible(*byte))
}

// A path begins with a slash and has only visible ASCII characters, and none of `"`, `<` and `>`.
fn is_path(path: &[u8]) -> bool
    ensures { result ≡ is_path path.now }
{
    match path.first() {
        Some(first) => *first == b'/' && are_path_bytes(path),
        None => false,
    }
}

fn are_path_bytes(path: &[u8]) -> bool
    ensures { result ≡ list_all is_path_byte path.now }
{
    path.iter().all(|byte| is_path_byte(*byte))
}

fn is_path_byte(byte: u8) -> bool
    ensures { result ≡ is_path_byte byte }
{
    is_visible(byte) && byte != b'"' && byte != b'<' && byte != b'>'
}

fn is_visible(byte: u8) -> bool
    ensures { result ≡ is_visible byte }
{
    b' ' < byte && byte < 127
}
