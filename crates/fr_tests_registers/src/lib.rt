//! Registers, tried from outside as their users call them: in memory, closed and opened again, and with their pages kept. A
//! test stands here for what no contract says: that calls succeed where there is memory, and that the definitions mean what
//! tables and tools from outside say.
#![tactic(auto)]

#[cfg(test)]
mod asks;
#[cfg(test)]
mod deeds;
#[cfg(test)]
mod foreign;
#[cfg(test)]
mod fused;
#[cfg(test)]
mod joining;
#[cfg(test)]
mod looking;
#[cfg(test)]
mod migrating;
#[cfg(test)]
mod registers;
#[cfg(test)]
mod reopened;
#[cfg(test)]
mod running;
#[cfg(test)]
mod stops;
#[cfg(test)]
mod stores;
#[cfg(test)]
mod warm;
