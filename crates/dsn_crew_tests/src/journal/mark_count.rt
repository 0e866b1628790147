//! What a count of marked letters says to who waits for them: no contract says when.
use crate::assert_same::same;
use dsn_fakes::MemoryDisk;
use dsn_journal::{MarkCount, MarkedLetters, Marks, SharedMarkCount, mark_in_turn};
use std::test::Fail;

#[test]
fn count_says_how_many_letters_are_marked(rt: HostRuntime) -> Result<(), Fail> {
    let alloc = rt.alloc();
    let count = SharedMarkCount::new(&rt);
    same(&rt, count.reaches(0), true);
    let disk = MemoryDisk::new(alloc, vec![in alloc; 0; 64]?);
    let mut marks = Marks::open(alloc, disk).ok().ok_or("not opened")?;
    mark_in_turn(alloc, &mut marks, 0)?;
    mark_in_turn(alloc, &mut marks, 1)?;
    mark_in_turn(alloc, &mut marks, 2)?;
    count.note(MarkedLetters::of(&marks));
    same(&rt, (count.reaches(2), count.reaches(3)), (true, true));
    // A count that is too high would be that of a letter which a crash loses. This one isn't marked
    // in the five seconds that it is waited for.
    same(&rt, count.reaches(4), false);
    // From now on no letter will be marked.
    count.stop();
    same(&rt, (count.reaches(0), count.reaches(3)), (false, false));
    Ok(())
}
