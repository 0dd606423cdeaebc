use std::fmt::Debug;
use std::process::Abort;

/// What came out at a place of a test is what is wanted. It asserts for all tests, so that the code of an assertion is proved
/// once, and not in each.
pub fn same<T: Copy + PartialEq + Debug, P: Copy + Debug>(
    rt: &impl Abort,
    got: T,
    want: T,
    place: P,
) {
    assert_eq!(rt; got, want, "at {place:?}");
}
