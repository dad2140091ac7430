//! The box of a page that a step asks for.
ghost use Rattle.std.specs.Prelude.{◌≡◌, ◌↔◌, length, IsTrue};
ghost use Rattle.hb_steps.specs.AskedBoxes.{HasAskedBox};

use hb_space::Area;

/// How the box of a page is compared with the one that is asked for.
#[derive(Clone, Copy)]
pub enum BoxTest {
    /// It is that very box.
    Exactly,
    /// It has that box within it.
    Around,
}

/// The box of a page that is asked for: this one, or one that has it within.
#[derive(Drop)]
pub struct AskedBox {
    pub area: Area,
    pub test: BoxTest,
}

impl AskedBox {
    /// Whether a page of this box is the one.
    pub fn is_of(&self, area: &Area) -> bool
        requires { length self.now.area.lo ≡ length area.now.lo }
        ensures { IsTrue result ↔ HasAskedBox self.now area.now }
    {
        match self.test {
            BoxTest::Exactly => *area == self.area,
            BoxTest::Around => self.area.within(area),
        }
    }
}
