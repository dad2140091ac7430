ghost use Rattle.std.specs.Prelude.{◌≡◌, ◌↔◌, length, IsTrue};

use hb_space::Area;

/// A lock on a box of points.
#[derive(Debug, Drop)]
pub struct BoxLock {
    pub area: Area,
    /// Whether others that share it may have boxes locked that meet this one.
    pub shared: bool,
}

impl BoxLock {
    ghost use Rattle.hb_boxlock.specs.Locking.{Excludes};

    /// Whether the two locks exclude each other: their boxes meet, and one of them isn't shared. The
    /// boxes have as many attributes.
    pub fn excludes(&self, other: &BoxLock) -> bool
        requires { length self.now.area.lo ≡ length other.now.area.lo }
        ensures { IsTrue result ↔ Excludes self.now other.now }
    {
        !(self.shared && other.shared) && self.area.meets(&other.area)
    }
}
