//! What the program `slotplan` does: the jobs that the words of a command line ask for, and what is printed of each.
#![tactic(auto)]

mod failure;
mod fault;
mod files;
mod jobs;
mod laws;
pub mod perform;
mod script_fault;
mod streams;
mod words;

pub use files::hindrance::Hindrance;
pub use files::local_files::LocalFiles;
pub use files::local_registers::LocalRegisters;
pub use files::registers::Registers;
pub use files::text_files::TextFiles;
pub use files::watch::{Watch, WatchFault};
pub use jobs::close_status::end_closed;
pub use jobs::live_desk::LiveDesk;
pub use jobs::request_stream::answer_input;
pub use jobs::script::run_script;
pub use jobs::serve::serve_next;
pub use laws::{
    answered_lines_are_a_run, answered_lines_are_one, available_answers_are_steps,
    each_fault_is_explained, numbered_are_requests, output_is_one, script_lines_are_parts,
};
pub use script_fault::ScriptFault;
pub use streams::listener::Listener;
pub use streams::local_listener::LocalListener;
pub use words::check_subject::CheckSubject;
pub use words::delivery::Delivery;
pub use words::inquiry::Inquiry;
pub use words::{Job, WordFault, read_words};
