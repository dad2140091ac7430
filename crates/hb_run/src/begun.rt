//! Which run it is, by a name that takes no bytes.

use std::marker::Brand;

/// What was there as a run began. Each call of `run` picks it.
pub trait Begun {
    ghost use Rattle.hb_run.specs.Beginnings.{Beginning};

    ghost beginning: { Beginning };
}

impl Begun for Brand {
    ghost use Rattle.hb_run.specs.Beginnings.{no_beginning};

    ghost beginning = { no_beginning };
}
