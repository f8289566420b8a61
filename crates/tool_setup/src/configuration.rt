//! Reads a configuration.
ghost use Rattle.std.specs.Prelude.{◌≡◌, Err};
ghost use Rattle.serde_json.specs.Data.{Data};
ghost use Rattle.serde_json.specs.View.{view};
ghost use Rattle.tool_setup.specs.declared.config.ConfigFault.TheVariants.{Memory, NotJson};
ghost use Rattle.tool_setup.specs.Gives.{Gives};
ghost use Rattle.tool_setup.specs.Configs.{IsJson, config_in, disk_in, fields_in};

use crate::config::{Config, ConfigFault, Field};
use crate::fields::{has_only, read_export, read_flag, read_number, read_text, read_text_or};
use crate::lowers::read_lowers;
use sector_extent::Bytes;
use serde_json::Value;
use std::alloc::Global;

/// The configuration that a text is. Only want of memory has no cause.
pub fn read_config(alloc: Global, text: &[u8]) -> Result<Config, ConfigFault>
    ensures json { (value : Data) → IsJson text.now value → Gives Memory (config_in value) result }
    ensures not_json { ((value : Data) → IsJson text.now value → ⊥) → Gives Memory (Err NotJson) result }
{
    match Value::from_slice(alloc, text) {
        Ok(value) => read_value(alloc, &value),
        Err(error) => Err(if error.is_memory() {
            ConfigFault::Memory
        } else {
            ConfigFault::NotJson
        }),
    }
}

fn read_value(alloc: Global, value: &Value) -> Result<Config, ConfigFault>
    ensures { Gives Memory (config_in (view value.now)) result }
{
    let names = [
        "disk",
        "lowers",
        "export",
        "read_only",
        "cache_blocks",
        "lanes",
        "listen",
        "control",
    ];
    match value.as_object() {
        Some(members) => {
            if !has_only(members, &names) {
                return Err(ConfigFault::UnknownField);
            }
            read_fields(alloc, value)
        }
        None => Err(ConfigFault::NotObject),
    }
}

fn read_disk(alloc: Global, value: &Value) -> Result<Bytes, ConfigFault>
    ensures { Gives Memory (disk_in (view value.now)) result }
{
    match value.get("disk") {
        Some(disk) => read_text(alloc, Field::Disk, disk),
        None => Err(ConfigFault::Missing(Field::Disk)),
    }
}

#[tactic(auto, using(crate::proofs::Exits::gives_exit, crate::proofs::Exits::gives_then))]
fn read_fields(alloc: Global, value: &Value) -> Result<Config, ConfigFault>
    ensures { Gives Memory (fields_in (view value.now)) result }
{
    let disk = read_disk(alloc, value)?;
    let lowers = read_lowers(alloc, value.get("lowers"))?;
    let export = read_export(alloc, value.get("export"))?;
    let read_only = read_flag(Field::ReadOnly, value.get("read_only"))?;
    let cache_blocks = read_number(Field::CacheBlocks, value.get("cache_blocks"), 16_384, 1_024)?;
    let lanes = read_number(Field::Lanes, value.get("lanes"), 16, 2)?;
    let listen = read_text_or(alloc, Field::Listen, value.get("listen"), "127.0.0.1:10809")?;
    let control = read_text_or(
        alloc,
        Field::Control,
        value.get("control"),
        "127.0.0.1:10810",
    )?;
    Ok(Config {
        disk,
        lowers,
        export,
        read_only,
        cache_blocks,
        lanes,
        listen,
        control,
    })
}
