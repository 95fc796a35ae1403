//! The texts of the register. The cluster file and the requests are read; the answers and their
//! reports are written. The output to which a text is written.
#![tactic(auto)]

mod answer_text;
mod cluster_file;
mod field_faults;
mod fields;
mod import_text;
mod laws;
mod output;
mod record_reader;
mod report;
mod request_text;
mod retry;
mod script;
mod sink;
mod style;
mod wish_text;
mod words;

pub use answer_text::write_answer;
pub use cluster_file::{ConfigFault, file_keys, is_file_key, read_config};
pub use field_faults::FieldFault;
pub use fields::{JsonFault, read_json};
pub use import_text::{
    Records, header_of, names, number_at, read_header, read_import, read_number, read_rows, text_at,
};
pub use laws::{
    export_is_read_back, export_is_within_bytes, proposed_is_read_back, sent_back_changes_nothing,
    sent_is_imported, sent_whole_changes_nothing, written_is_read_back,
};
pub use output::{Output, WRITE_RETRIES, WriteFailed};
pub use report::{ReportText, report_text, write_lines, write_proposed, write_unplaced};
pub use request_text::{RequestFault, read_command, read_request};
pub use retry::try_again;
pub use script::{LINE_BYTES, RequestLines, key_and_text, next_line, split_once, split_script};
pub use sink::Sink;
pub use wish_text::{read_wishes, spells_wishes, wish_names};
