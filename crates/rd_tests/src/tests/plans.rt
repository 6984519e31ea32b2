//! Plans, of which a script tries one at a time while it refuses memory.

use std::env::{Env, FillError};

/// A number that no plan has.
const NO_PLAN: usize = usize::MAX;

/// The number that two digits spell; that of no plan if they are none.
fn number_of(digits: [u8; 2]) -> usize {
    let [tens, ones] = digits;
    if !tens.is_ascii_digit() || !ones.is_ascii_digit() {
        return NO_PLAN;
    }
    let tens = (tens as usize).saturating_sub(48);
    let ones = (ones as usize).saturating_sub(48);
    tens.saturating_mul(10).saturating_add(ones)
}

/// The number of the plan that a script asks for, in two digits, if it asks for one. Of any other text it is that of no
/// plan. This takes no memory.
pub(super) fn asked(rt: &HostRuntime) -> Option<usize> {
    let mut digits = [0u8; 2];
    match rt.var("REFUSED_PLAN", &mut digits) {
        Err(FillError::NotPresent) => None,
        Ok(2) => Some(number_of(digits)),
        Ok(_) | Err(FillError::TooLong) => Some(NO_PLAN),
    }
}

/// Whether a plan is tried, by its number.
pub(super) fn is_asked(asked: Option<usize>, number: usize) -> bool {
    match asked {
        Some(wanted) => wanted == number,
        None => true,
    }
}
