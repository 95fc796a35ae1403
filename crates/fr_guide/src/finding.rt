//! What a planner is told of a cluster file: its figures, or its fault and where that is.
ghost use Rattle.std.specs.Prelude.{◌≡◌, ◌++◌, IfOk, List, ℕ, codes};
ghost use Rattle.fr_guide.specs.Examining.{IsFinding};
ghost use Rattle.fr_text.specs.ClusterFile.{config_fault_word};

use crate::place::place;
use fr_base::{Config, NoMemory};
use fr_text::{ConfigFault, read_config};
use std::alloc::{AllocError, Global};

/// What is told of a cluster file: a text for a line.
#[derive(Debug, Drop)]
pub enum Finding {
    /// The bytes are a cluster file. The text has the cluster's figures.
    Good { text: Vec<u8> },
    /// The bytes are not a cluster file. The text has the fault's word, and where the fault is.
    Bad { text: Vec<u8> },
}

/// Reads a cluster file, and says which fault it has, by its word, and where; or what its figures are. Behind the word, and
/// of the figures, the text is fixed by no clause.
pub fn examine(alloc: Global, bytes: &[u8]) -> Result<Finding, NoMemory>
    ensures { IfOk result (IsFinding bytes.now) }
{
    match read_config(alloc, bytes) {
        Ok(config) => Ok(Finding::Good {
            text: figures(alloc, &config)?,
        }),
        Err(ConfigFault::NoMemory) => Err(AllocError),
        Err(fault) => Ok(Finding::Bad {
            text: bad_text(alloc, fault, bytes)?,
        }),
    }
}

// The text of a fault.
fn bad_text(alloc: Global, fault: ConfigFault, bytes: &[u8]) -> Result<Vec<u8>, NoMemory>
    ensures { IfOk result (λ text. (place : List ℕ)
        × (text.items ≡ config_fault_word fault ++ codes ": " ++ place)) }
{
    let place = place(alloc, fault, bytes)?;
    let mut text = Vec::new(alloc);
    text.extend_from_slice(fault.word().as_bytes())?;
    text.extend_from_slice(b": ")?;
    text.extend_from_slice(place.as_bytes())?;
    Ok(text)
}

// The text of a cluster's figures.
fn figures(alloc: Global, config: &Config) -> Result<Vec<u8>, NoMemory> {
    let params = config.params();
    let (channels, slots) = (params.channels().as_str(), params.static_slots());
    let (length, cycle) = (params.slot_macroticks(), params.macroticks_per_cycle());
    let cycles = params.cycles();
    let (payload, suppliers) = (2 * params.payload_words(), config.suppliers().len());
    let text = format!(in alloc;
        "channels {channels}, {slots} static slots of {length} macroticks, {cycles} cycles of {cycle} macroticks, payload of {payload} bytes, suppliers: {suppliers}"
    )?;
    Ok(text.into_bytes())
}
