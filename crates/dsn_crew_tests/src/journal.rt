//! Tests of disks, of marks, and of letters that are marked, over what `dsn_journal` makes public.
mod disks;
mod files;
mod mark_count;
mod marks;
mod raised;
