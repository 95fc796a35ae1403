//! Rows of suppliers' frames, of each kind a list.
ghost use Rattle.std.specs.Prelude.{◌≡◌, ◌++◌, IfOk};

use fr_base::{NoMemory, Rows};
use std::alloc::Global;
use std::marker::Model;

/// Rows of frames, of each kind a list: what is told of the frames themselves, of their placements, of their signals and of
/// their greatest gaps.
#[derive(Drop)]
pub(crate) struct KindRows<T> {
    pub(super) frames: Vec<T>,
    pub(super) placements: Vec<T>,
    pub(super) signals: Vec<T>,
    pub(super) gaps: Vec<T>,
}

impl<T> Model for KindRows<T> {
    ghost use Rattle.fr_office.specs.Kinds.{ByKind};

    ghost Value = { ByKind T };

    ghost view = { λ k. record { frames = k.frames.items; placements = k.placements.items; signals = k.signals.items; gaps = k.gaps.items } };
}

impl<T: Copy + Drop> KindRows<T> {
    ghost use Rattle.std.specs.Prelude.{◌≡◌, [], ◌++◌, IfOk};

    /// No row.
    pub(crate) fn new(alloc: Global) -> KindRows<T>
        ensures { result ≡ record { frames = []; placements = []; signals = []; gaps = [] } }
    {
        KindRows {
            frames: Vec::new(alloc),
            placements: Vec::new(alloc),
            signals: Vec::new(alloc),
            gaps: Vec::new(alloc),
        }
    }

    /// Its rows, kind after kind, behind these first ones.
    pub(crate) fn behind(self, first: &[T]) -> Result<Rows<T>, NoMemory>
        ensures { IfOk result (λ rows. rows
            ≡ first.now ++ self.frames ++ self.placements ++ self.signals ++ self.gaps) }
    {
        let KindRows {
            frames,
            placements,
            signals,
            gaps,
        } = self;
        let rows = join(first, &frames, &placements, signals, &gaps)?;
        Ok(Rows::from(rows))
    }
}

// The rows of the lists, one list behind the other. The signals' rows, of which there may be most by far, are moved to their
// place and not copied: a second list of them would take as much memory again.
fn join<T: Copy + Drop>(
    first: &[T],
    frames: &[T],
    placements: &[T],
    mut signals: Vec<T>,
    gaps: &[T],
) -> Result<Vec<T>, NoMemory>
    ensures { IfOk result (λ rows. rows.items
        ≡ first.now ++ frames.now ++ placements.now ++ signals.items ++ gaps.now) }
{
    let count = signals.len();
    signals.extend_from_slice(first)?;
    signals.extend_from_slice(frames)?;
    signals.extend_from_slice(placements)?;
    signals.rotate_left(count);
    signals.extend_from_slice(gaps)?;
    Ok(signals)
}
