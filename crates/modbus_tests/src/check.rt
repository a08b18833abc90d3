//! What the tests compare with. The macro of std is proved wherever it stands, with all that lives there; this once.

use std::fmt::Debug;
use std::process::Abort;

/// Fails a test where what was found is not what was wanted, and shows both.
pub fn check<R: Abort, T: PartialEq + Debug + Drop>(rt: &R, found: T, wanted: T) {
    assert_eq!(rt; found, wanted);
}
