//! Whether a file keeps the limits.
ghost use Rattle.std.specs.Prelude.{◌↔◌, IsTrue};
ghost use Rattle.hb_layout.specs.Limits.{IsLayout};

use crate::Meta;
use crate::limits::{DCAP_MAX, DCAP_MIN, HEIGHT_MAX, ICAP_MAX, LOG_MAX, LOG_MIN, PAGES_MAX};
use hb_space::form::{ICAP_MIN, KMAX};

impl Meta {
    /// Whether a file may be so: its layout and its height are within their limits.
    pub fn is_layout(&self) -> bool
        ensures within { IsTrue result → IsLayout self.now }
        ensures only { IsLayout self.now → IsTrue result }
    {
        1 <= self.k
            && usize::from(self.k) <= KMAX
            && 1 <= self.pages
            && self.pages <= PAGES_MAX
            && LOG_MIN <= self.log
            && self.log <= LOG_MAX
            && DCAP_MIN <= self.dcap
            && self.dcap <= DCAP_MAX
            && ICAP_MIN <= self.icap
            && self.icap <= ICAP_MAX
            && 1 <= self.height
            && self.height <= HEIGHT_MAX
    }
}
