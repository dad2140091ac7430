//! How many attributes points have.
ghost use Rattle.hb_space.specs.Points.{IsAttributeCount};

/// A number of attributes that a file may have: from 1 to `form::KMAX`.
#[derive(Clone, Copy, Debug)]
pub struct Attributes {
    pub number: u8,
    ghost allowed: { IsAttributeCount number },
}
