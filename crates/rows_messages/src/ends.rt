//! How often each of several ends comes.

use std::alloc::AllocError;
use std::collections::BTreeMap;
use std::fmt::Write;

/// How often each end came.
pub type Ends = BTreeMap<String, u32>;

/// Counts an end once more.
pub fn count_end(ends: &mut Ends, end: String) -> Result<(), AllocError> {
    let times = ends.get(&end).copied().unwrap_or(0).wrapping_add(1);
    ends.insert(end, times)?;
    Ok(())
}

/// Writes how often each end came, and the end, parted by `; `.
pub fn push_ends(out: &mut String, ends: &Ends) -> Result<(), AllocError> {
    for (end, times) in ends {
        if !out.is_empty() {
            out.push_str("; ")?;
        }
        write!(out, "{times}: {end}")?;
    }
    Ok(())
}
