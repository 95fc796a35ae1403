//! The index of frames: by name, each with its number in the table, which is found by it for the
//! frame of a cell.
ghost use Rattle.std.specs.Prelude.{◌≡◌, OnOk, IfOk, map};
ghost use Rattle.std.specs.Cmp.Lexicographic.{slice_cmp};
ghost use Rattle.std.specs.Ordering.{is_lt, nat_cmp};
ghost use Rattle.fr_picture.specs.FrameIndexes.{AreByName, IsIndex, entries_of, entry_of, entry_text, index_text, is_entry_of, link_text, number_in, number_text};
ghost use Rattle.fr_picture.specs.Texts.{Appends};

use crate::frame_table::DrawnFrame;
use crate::shares::{number_of, push_mark};
use fr_base::{Name, NoMemory, Sending};
use std::alloc::Global;

/// A frame, and its place in the table.
#[derive(Clone, Copy)]
pub struct Entry {
    /// The frame.
    pub frame: Name,
    /// The node that sends it.
    pub node: Name,
    /// Its supplier.
    pub supplier: Name,
    /// Its number in the table, from 1 on.
    pub number: u64,
}

/// The frames by name, each with its number.
pub(crate) fn index(alloc: Global, frames: &[DrawnFrame]) -> Result<Vec<Entry>, NoMemory>
    ensures { IfOk result (λ index. IsIndex frames.now index.items) }
{
    let mut index = entries(alloc, frames)?;
    index.sort_by_key(|entry| entry.frame)?;
    Ok(index)
}

// The frames with their numbers.
#[tactic(auto, unfolding(crate::specs::FrameIndexes::entries_of))]
fn entries(alloc: Global, frames: &[DrawnFrame]) -> Result<Vec<Entry>, NoMemory>
    ensures { IfOk result (λ index. index.items ≡ entries_of frames.now) }
{
    let mut index = Vec::new(alloc);
    for (place, frame) in frames.iter().enumerate() {
        index.push(entry_of(place as u64 + 1, frame))?;
    }
    Ok(index)
}

fn entry_of(number: u64, frame: &DrawnFrame) -> Entry
    ensures { result ≡ entry_of number frame.now }
{
    Entry {
        frame: frame.row.frame,
        node: frame.row.node,
        supplier: frame.row.supplier,
        number,
    }
}

/// The number that the table gives the cell's frame, if the table has it.
pub(crate) fn number_in(index: &[Entry], cell: &Sending) -> Option<u64>
    requires by_name { AreByName index.now }
    ensures { result ≡ number_in index.now cell.now }
{
    let from = index.partition_point(
        |entry: &Entry| -> bool
            ensures { result ≡ is_lt (slice_cmp nat_cmp entry.now.frame cell.entry.now.frame) }
        { entry.frame < cell.frame },
    );
    first_number(&index[from..], cell)
}

// The number of the first entry of the cell's frame.
#[tactic(auto, unfolding(crate::specs::FrameIndexes::number_in))]
fn first_number(index: &[Entry], cell: &Sending) -> Option<u64>
    ensures { result ≡ number_in index.now cell.now }
{
    for entry in index {
        if is_entry_of(cell, entry) {
            return Some(entry.number);
        }
    }
    None
}

// Whether the entry is of the frame that is sent in the cell.
#[tactic(auto, unfolding(crate::specs::FrameIndexes::is_entry_of))]
fn is_entry_of(cell: &Sending, entry: &Entry) -> bool
    ensures { result ≡ is_entry_of cell.now entry.now }
{
    entry.frame == cell.frame && entry.node == cell.node && entry.supplier == cell.supplier
}

/// Appends the index. The place of a supplier among these names gives the supplier's mark.
#[tactic(auto, unfolding(crate::specs::FrameIndexes::index_text))]
pub(crate) fn push_index(names: &[Name], index: &[Entry], out: &mut String) -> Result<(), NoMemory>
    ensures { OnOk result (Appends out.old out.new (index_text names.now index.now)) }
{
    for entry in index {
        push_entry(names, entry, out)?;
    }
    Ok(())
}

#[tactic(auto, unfolding(crate::specs::FrameIndexes::entry_text))]
fn push_entry(names: &[Name], entry: &Entry, out: &mut String) -> Result<(), NoMemory>
    ensures { OnOk result (Appends out.old out.new (entry_text names.now entry.now)) }
{
    push_link(entry.number, entry.frame, out)?;
    push_mark(number_of(names, entry.supplier), out)?;
    push_number(entry.number, out)
}

#[tactic(auto, unfolding(crate::specs::FrameIndexes::link_text))]
fn push_link(number: u64, frame: Name, out: &mut String) -> Result<(), NoMemory>
    ensures { OnOk result (Appends out.old out.new (link_text number frame)) }
{
    write!(out, "<li><a href=#r{number}>{frame}</a> ")
}

#[tactic(auto, unfolding(crate::specs::FrameIndexes::number_text))]
fn push_number(number: u64, out: &mut String) -> Result<(), NoMemory>
    ensures { OnOk result (Appends out.old out.new (number_text number)) }
{
    write!(out, " {number}\n")
}
