//! A whole reception as a script of calls.
use receiving::Step;
use rows::CARRIERS;
use std::alloc::{AllocError, Global};

/// Start under the reference, feed the rows in order, and take twice.
pub fn reception(heap: Global, reference: &[u8], cells: &[u8]) -> Result<Vec<Step>, AllocError> {
    let mut script = Vec::new(heap);
    script.push(Step::Start(reference.to_vec(heap)?))?;
    for row in cells.chunks_exact(CARRIERS) {
        script.push(Step::Feed(row.to_vec(heap)?))?;
    }
    script.push(Step::Take(255))?;
    script.push(Step::Take(255))?;
    Ok(script)
}
