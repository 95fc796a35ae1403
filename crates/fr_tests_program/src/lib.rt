//! Runs of the program's jobs, tried from outside, over registers in memory and in files. A test stands here for what no
//! contract says: that jobs succeed where there is memory, and what a reader, a writer, a file or a socket does.
#![tactic(auto)]

#[cfg(test)]
mod fixture;
#[cfg(test)]
mod perform;
#[cfg(test)]
mod script;
#[cfg(test)]
mod serving;
