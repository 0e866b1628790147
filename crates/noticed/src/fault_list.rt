//! The list of the numbers of faults and refusals, as `noticed help faults` prints it.
//! noticed-protocol(5), says where each shows.
use dsn_text::FAULT_WORDS;
use std::alloc::{AllocError, Global};

/// The list of all numbers, one in a line.
pub(crate) fn fault_list(alloc: Global) -> Result<String, AllocError> {
    let mut list = String::new(alloc);
    for (number, words) in FAULT_WORDS {
        let line = format!(in alloc; "{number:>2}  {words}\n")?;
        list.push_str(line.as_str())?;
    }
    Ok(list)
}
