//! A picture of a variant's plan. Its rows are asked of a register's desk. It is one page of HTML,
//! with the static segment as inline SVG.
#![tactic(auto)]

mod change_shapes;
mod change_table;
mod changes;
mod drawing;
mod drawn_frames;
mod frame_index;
mod frame_table;
mod kinds;
mod lanes;
mod laws;
mod overview;
mod page;
mod plan;
mod plan_reader;
mod reports;
mod sets;
mod shares;
mod signals;
mod slot_table;
mod style;
mod texts;

pub use changes::{Changes, SlotChanges};
pub use drawing::{Drawing, Lane, Place, Rectangle, Scale, Shows, draw};
pub use frame_index::Entry;
pub use frame_table::{DrawnFrame, worst_first};
pub use laws::released_plan_stays;
pub use page::write_page;
pub use plan::Plan;
pub use plan_reader::read_plan;
pub use reports::View;
pub use shares::Share;
pub use signals::{DrawnSignal, Run};
