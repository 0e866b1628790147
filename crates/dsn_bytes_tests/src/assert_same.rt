//! One assertion for all tests. A call of it is proved in less time than an `assert_eq!` in its
//! place.
use std::fmt::Debug;
use std::process::Abort;

/// Asserts that two values are the same, and shows both if they aren't.
pub(crate) fn same<T: Debug + PartialEq + Drop>(rt: &impl Abort, got: T, want: T) {
    assert_eq!(rt; got, want);
}
