//! What a planner is told of the program's words, and of the faults of a cluster file, a request, an
//! import's file or a path.
#![tactic(auto)]

mod advice;
mod explain;
mod finding;
mod form;
mod laws;
mod line_faults;
mod paths;
mod place;
mod refusal_numbers;
mod request_file;
mod requests;
mod rows;
mod shown;
mod topic;
mod topics;

pub use advice::{Subject, advise};
pub use explain::{alike, explains, explanation, overview};
pub use finding::{Finding, examine};
pub use laws::{
    advice_is_exact, each_config_fault_is_explained, each_number_is_named,
    each_refusal_is_explained, fine_files_are_taken, fine_rows_are_taken,
    misformed_requests_are_refused,
};
pub use line_faults::{LineFaults, are_fine, fault_lines, one_fault};
pub use paths::path_faults;
pub use refusal_numbers::meant_word;
pub use request_file::request_file_faults;
pub use requests::request_faults;
pub use rows::row_faults;
