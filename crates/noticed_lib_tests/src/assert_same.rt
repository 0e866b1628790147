//! One assertion for all tests: a call of it is proved in less time than an `assert_eq!` in its place.
//! Each crate of tests has its own: the kit lets tests alone abort, so no library can have it.
use std::fmt::Debug;
use std::process::Abort;

/// Asserts that two values are the same, and shows both where they aren't.
pub(crate) fn same<T: Debug + PartialEq + Drop>(rt: &impl Abort, got: T, want: T) {
    assert_eq!(rt; got, want);
}
