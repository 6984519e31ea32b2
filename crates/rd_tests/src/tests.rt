mod chain;
mod desk;
mod desks;
mod http;
mod keys;
mod plans;
mod store;
mod streams;
mod tables;

use rd_geometry::NoMemory;
use std::alloc::Global;

/// Texts, each so many times.
type Texts = &'static [(&'static str, usize)];

/// Texts, each so many times, one after the other.
fn repeated(alloc: Global, texts: &[(&str, usize)]) -> Result<String, NoMemory> {
    let mut all = String::new(alloc);
    for (text, count) in texts {
        all.push_str(text.repeat(alloc, *count)?.as_str())?;
    }
    Ok(all)
}
