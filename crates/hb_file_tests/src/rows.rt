//! How a test ends where a row of its table isn't so.

use std::process::Abort;

/// Ends the test where the row at this place isn't so. Rows alone are told, since what each test found would be proved to be
/// printed.
pub(crate) fn expect(rt: &impl Abort, place: usize, is_so: bool) {
    assert!(rt; is_so, "row {place}");
}
