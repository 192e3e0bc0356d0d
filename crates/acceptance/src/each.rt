use crate::call::call;
use crate::ends::Ends;
use anyhow::bail;
use std::alloc::Global;

/// The most reads or writes of a call.
const MOST: u64 = 4096;

/// Lets each read and each write of a call fail in turn, and tells how many there are of both.
pub(crate) fn each(alloc: Global, words: &[String], ends: &Ends) -> anyhow::Result<String> {
    let whole = call(
        alloc,
        words,
        &ends.failing(alloc, Vec::new(alloc), Vec::new(alloc))?,
    )?;
    let reads = each_read(alloc, words, ends)?;
    let writes = each_write(alloc, words, ends, &whole.written)?;
    Ok(format!(in alloc; "{reads} reads, {writes} writes")?)
}

// How many reads there are: a call of which one fails answers 7, and has written nothing.
fn each_read(alloc: Global, words: &[String], ends: &Ends) -> anyhow::Result<u64> {
    for done in 0..MOST {
        let failing = ends.failing(alloc, vec![in alloc; done + 1; 1]?, Vec::new(alloc))?;
        let called = call(alloc, words, &failing)?;
        if called.faults.0 == 0 {
            return Ok(done);
        }
        if called.outcome.status() != 7 || !called.written.is_empty() {
            bail!("a failed read is not told");
        }
    }
    bail!("too many reads")
}

// How many writes there are: a call of which one fails answers 8, and has written a front of the text.
fn each_write(alloc: Global, words: &[String], ends: &Ends, whole: &[u8]) -> anyhow::Result<u64> {
    for done in 0..MOST {
        let failing = ends.failing(alloc, Vec::new(alloc), vec![in alloc; done + 1; 1]?)?;
        let called = call(alloc, words, &failing)?;
        if called.faults.1 == 0 {
            return Ok(done);
        }
        if called.outcome.status() != 8 || !whole.starts_with(&called.written) {
            bail!("a failed write is not told");
        }
    }
    bail!("too many writes")
}
