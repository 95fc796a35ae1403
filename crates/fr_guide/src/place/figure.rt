//! Which figure of a cluster file is out of its range.
ghost use Rattle.std.specs.Prelude.{◌<◌, ◌^◌};

use crate::place::field::range;
use fr_base::{NoMemory, ParamFault};
use std::alloc::Global;
use toml::{Table, Value};

/// The figure that makes the fault, and what it may be.
pub fn bad_figure(alloc: Global, fault: ParamFault, file: &Table) -> Result<String, NoMemory> {
    let key = match fault {
        ParamFault::BadSlots => "static_slots",
        ParamFault::BadPayload => "payload_words",
        ParamFault::BadMacroticks if number(file, "slot_macroticks") == 0 => "slot_macroticks",
        ParamFault::BadMacroticks if number(file, "idle_macroticks") == 0 => "idle_macroticks",
        ParamFault::BadMacroticks => "macroticks_per_cycle",
        ParamFault::BadSum => return bad_sum(alloc, file),
        ParamFault::BadCycleCount => "cycles",
    };
    let (number, range) = (number(file, key), range(key));
    format!(in alloc; "{key} is {number}, it may be {range}")
}

// The sum of the segments, and the cycle's length.
fn bad_sum(alloc: Global, file: &Table) -> Result<String, NoMemory> {
    let sum = (number(file, "static_slots") * number(file, "slot_macroticks"))
        .saturating_add(number(file, "dynamic_macroticks"))
        .saturating_add(number(file, "symbol_macroticks"))
        .saturating_add(number(file, "idle_macroticks"));
    let cycle = number(file, "macroticks_per_cycle");
    format!(in alloc; "the segments take {sum} macroticks, macroticks_per_cycle is {cycle}")
}

// The number at a key, below 2^32; 0 where there is none.
fn number(file: &Table, key: &str) -> u64
    ensures { result < 2 ^ 32 }
{
    let number = file.get(key).and_then(Value::as_integer);
    number.map_or(0, |number| u64::from(u32::try_from(number).unwrap_or(0)))
}
