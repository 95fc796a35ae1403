//! Calls of the libraries below the store, tried from outside as their users call them. A test stands here for what no
//! contract says: that calls succeed where there is memory, and that the definitions mean what tables and tools from outside
//! say.
#![tactic(auto)]

#[cfg(test)]
mod connection;
#[cfg(test)]
mod layouts;
#[cfg(test)]
mod page_rows;
#[cfg(test)]
mod proposals;
#[cfg(test)]
mod world;
