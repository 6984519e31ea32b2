//! The tests of the readers of both kinds of disk, on the sample images of rd_samples, of the donors' rules and days, and
//! of what people give a command and what explains a refused one, all by public calls.
#![tactic(auto)]

#[cfg(test)]
mod tests;
