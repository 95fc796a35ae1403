//! The records of one frame, as the file of an import has them.
ghost use Rattle.std.specs.Prelude.{◌≡◌, ◌++◌, OnOk};
ghost use Rattle.fr_base.specs.Exports.{frame_records, placement_records, signal_records};
ghost use Rattle.fr_world.specs.Pages.{frame_data, frame_of};

use crate::page::PageFrame;
use fr_base::{FrameRecord, Name, NoMemory, PlacementRecord, Rows, SignalRecord};

/// A kind of records, of which each frame has some.
pub trait FileRecord {
    ghost use Rattle.std.specs.Prelude.{◌≡◌, ◌++◌, List, OnErr, OnOk, length};
    ghost use Rattle.fr_base.specs.Book.{Frame};
    ghost use Rattle.fr_base.specs.declared.name.Name.{Name as NameText};
    ghost use Rattle.fr_world.specs.Appending.{AppendsSome};
    ghost use Rattle.fr_world.specs.Pages.{frame_data, frame_of};

    /// The records of a frame, by its supplier and name.
    ghost records: { (NameText × NameText) × Frame → List Self };

    /// How many records the frame has.
    fn count(frame: &PageFrame) -> usize
        ensures { (k : NameText × NameText)
            → result ≡ length (records (k, frame_of (frame_data frame.now))) };

    /// Appends the records of the supplier's frame of this name. Where memory is refused, some of
    /// them were appended, from the first on.
    fn push(
        supplier: Name,
        name: Name,
        frame: &PageFrame,
        rows: &mut Rows<Self>,
    ) -> Result<(), NoMemory>
        ensures ok { OnOk result (rows.new ≡ rows.old
            ++ records ((supplier, name), frame_of (frame_data frame.now))) }
        ensures err { OnErr result
            (AppendsSome (records ((supplier, name), frame_of (frame_data frame.now))) rows.old
            rows.new) };
}

// A frame has one record.
impl FileRecord for FrameRecord {
    ghost use Rattle.fr_base.specs.Exports.{frame_records};

    ghost records = { frame_records };

    fn count(_frame: &PageFrame) -> usize {
        1
    }

    fn push(
        supplier: Name,
        name: Name,
        frame: &PageFrame,
        rows: &mut Rows<FrameRecord>,
    ) -> Result<(), NoMemory> {
        rows.push(FrameRecord {
            frame: name,
            node: frame.node,
            supplier,
        })
    }
}

// A frame has a record for each of its placements, in order.
impl FileRecord for PlacementRecord {
    ghost use Rattle.fr_base.specs.Exports.{placement_records};

    ghost records = { placement_records };

    fn count(frame: &PageFrame) -> usize {
        frame.placements.len()
    }

    fn push(
        supplier: Name,
        name: Name,
        frame: &PageFrame,
        rows: &mut Rows<PlacementRecord>,
    ) -> Result<(), NoMemory> {
        for placement in frame.placements.iter() {
            rows.push(PlacementRecord {
                frame: name,
                node: frame.node,
                placement: *placement,
                supplier,
            })?;
        }
        Ok(())
    }
}

// A frame has a record for each of its signals, by start.
impl FileRecord for SignalRecord {
    ghost use Rattle.fr_base.specs.Exports.{signal_records};

    ghost records = { signal_records };

    fn count(frame: &PageFrame) -> usize {
        frame.layout.signals().len()
    }

    fn push(
        supplier: Name,
        name: Name,
        frame: &PageFrame,
        rows: &mut Rows<SignalRecord>,
    ) -> Result<(), NoMemory> {
        for signal in frame.layout.signals() {
            rows.push(SignalRecord {
                frame: name,
                signal: *signal,
                supplier,
            })?;
        }
        Ok(())
    }
}
