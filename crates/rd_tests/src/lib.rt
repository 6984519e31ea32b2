//! The tests of the store, of the desk, of the reading room over HTTP, and of a chain of lines, in memory and over streams,
//! on their public calls alone.
#![tactic(auto)]

#[cfg(test)]
mod tests;
