ghost use Rattle.std.specs.Prelude.{◌≡◌};

/// How a page is latched.
#[derive(Clone, Copy, Debug, Default, PartialEq, Eq)]
pub enum Mode {
    /// To read the page. Beside it others may hold it shared, and one for update.
    #[default]
    Shared,
    /// To read the page, and change it later. Beside it others may hold it shared.
    Update,
    /// To change the page. Nobody else holds it.
    Exclusive,
}

impl Mode {
    ghost use Rattle.hb_latch.specs.Modes.{goes_beside};

    /// Whether one actor may hold a page in this mode while another holds it in the other one.
    pub fn goes_beside(self, other: Mode) -> bool
        ensures { result ≡ goes_beside self other }
    {
        match (self, other) {
            (Mode::Shared, Mode::Shared | Mode::Update) | (Mode::Update, Mode::Shared) => true,
            _ => false,
        }
    }
}
