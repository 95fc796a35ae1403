//! One supplier's rows in one variant: what a command makes of them, which cells they fill, and the
//! gaps between the moments at which a frame is sent.
#![tactic(auto)]

mod amend;
mod build;
mod cycle_channel;
mod decision;
mod differences;
mod edit;
mod file_records;
mod file_room;
mod filled_cycles;
mod frame_rows;
mod gap;
mod grants;
mod import_label;
mod kept_import;
mod keyed_rows;
mod lanes;
mod laws;
mod loads;
mod mask_occupancy;
mod masks;
mod nodes;
mod occupancy;
mod page;
mod page_sendings;
mod part;
mod proposal;
mod records;
mod rooms;
mod row_occupancy;
mod sendings;
mod slot_table;
mod suppliers;
mod triggerings;
mod variants;

pub use decision::{Draft, FileDecision, RowFault, decide, decide_file};
pub use differences::{KeyedRow, push_differences};
pub use edit::Edit;
pub use file_records::FileRecord;
pub use file_room::admit_file;
pub use frame_rows::{frame_row, gap_row, push_signal_rows};
pub use gap::greatest_gap;
pub use import_label::decide_label;
pub use kept_import::KeptImport;
pub use laws::{
    all_rows_are_checked, common_decides, common_fits, decision_fits, decision_leads, edits_agree,
    grant_decides, import_fits, joining_decides, joining_fits, joining_is_listed, key_decides,
    key_fits, key_is_listed, label_decides, new_import_decides, node_decides, node_fits,
    others_stay, replacement_decides, replacement_fits, revoke_decides, room_decides,
    rows_are_checked, rows_are_the_registers, rows_decide, rows_fit, rows_lead,
    sound_rows_are_a_page, supplier_decides, trial_decides,
};
pub use mask_occupancy::MaskOccupancy;
pub use nodes::decide_node;
pub use occupancy::{Occupancy, TakenCell};
pub use page::{ChannelSlot, Page, PageFrame, PageRows};
pub use page_sendings::sent;
pub use part::Part;
pub use proposal::propose_wishes;
pub use records::Records;
pub use rooms::room;
pub use row_occupancy::RowOccupancy;
pub use suppliers::{decide_key, decide_supplier};
pub use triggerings::Triggerings;
pub use variants::{decide_common, find_variant};
