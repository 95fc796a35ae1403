//! The suppliers or keys that make the fault of a cluster file.
use crate::shown::shown;
use fr_base::{Key, MAX_SUPPLIERS, Name, NoMemory};
use std::alloc::Global;
use toml::{Table, Value};

/// The owner of a key, and the key, as they stand in the file.
#[derive(Clone, Copy)]
struct Owner<'a> {
    name: &'a str,
    key: &'a str,
}

/// How many suppliers there are.
pub fn too_many(alloc: Global, file: &Table) -> Result<String, NoMemory> {
    let count = suppliers(file).map_or(0, |table| table.len());
    format!(in alloc; "there are {count} suppliers, at most {MAX_SUPPLIERS} may be there")
}

/// The first supplier whose name has not the form of a name.
pub fn bad_name(alloc: Global, file: &Table) -> Result<String, NoMemory> {
    let owners = owners(alloc, file)?;
    let bad = owners
        .iter()
        .skip(1)
        .find(|owner| Name::read(owner.name).is_none());
    let name = shown(alloc, bad.map_or("", |owner| owner.name))?;
    format!(in alloc;
        "the supplier's name \"{name}\" is not 1 to 32 ASCII letters, digits and underscores, a letter first"
    )
}

/// The first key that has not the form of a key: the integrator's, else a supplier's.
pub fn bad_key(alloc: Global, file: &Table) -> Result<String, NoMemory> {
    let owners = owners(alloc, file)?;
    let bad = owners.iter().find(|owner| Key::read(owner.key).is_none());
    let name = shown(alloc, bad.map_or("", |owner| owner.name))?;
    format!(in alloc; "the key of {name} is not 8 to 64 ASCII letters and digits")
}

/// The first two owners of the same key: the integrator comes before the suppliers.
pub fn same_keys(alloc: Global, file: &Table) -> Result<String, NoMemory> {
    let owners = owners(alloc, file)?;
    match first_pair(owners.as_slice()) {
        Some((one, other)) => {
            let (one, other) = (shown(alloc, one.name)?, shown(alloc, other.name)?);
            format!(in alloc; "{one} and {other} have the same key")
        }
        None => String::from_str(alloc, "two have the same key"),
    }
}

// The first two owners who have the same key.
fn first_pair<'a, 'b>(owners: &'b [Owner<'a>]) -> Option<(&'b Owner<'a>, &'b Owner<'a>)> {
    match owners {
        [] => None,
        [one, rest @ ..] => match rest.iter().find(|other| other.key == one.key) {
            Some(other) => Some((one, other)),
            None => first_pair(rest),
        },
    }
}

// The integrator and the suppliers.
fn owners<'a>(alloc: Global, file: &'a Table) -> Result<Vec<Owner<'a>>, NoMemory> {
    let mut owners = Vec::new(alloc);
    if let Some(key) = file.get("integrator").and_then(Value::as_str) {
        owners.push(Owner {
            name: "the integrator",
            key,
        })?;
    }
    if let Some(table) = suppliers(file) {
        for (name, value) in table {
            owners.push(Owner {
                name: name.as_str(),
                key: value.as_str().unwrap_or(""),
            })?;
        }
    }
    Ok(owners)
}

// The table of the suppliers.
fn suppliers(file: &Table) -> Option<&Table> {
    file.get("suppliers").and_then(Value::as_table)
}
