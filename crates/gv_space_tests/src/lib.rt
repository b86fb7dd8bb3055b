//! Tests of address spaces, of their parts and of the journal. They have a crate of their own, so that none of these is proved a
//! second time with them.
#![tactic(auto)]

#[cfg(test)]
mod asking;
#[cfg(test)]
mod buffers;
#[cfg(test)]
mod chance;
#[cfg(test)]
mod changes;
#[cfg(test)]
mod edits;
#[cfg(test)]
mod faults;
#[cfg(test)]
mod journal;
#[cfg(test)]
mod judge;
#[cfg(test)]
mod operations;
#[cfg(test)]
mod parts;
#[cfg(test)]
mod playing;
#[cfg(test)]
mod restores;
#[cfg(test)]
mod rounds;
#[cfg(test)]
mod rows;
#[cfg(test)]
mod tables;
#[cfg(test)]
mod text;
#[cfg(test)]
mod unmap_all;
#[cfg(test)]
mod watch;
#[cfg(test)]
mod wide;
#[cfg(test)]
mod words;
