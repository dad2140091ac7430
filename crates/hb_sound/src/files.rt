//! A file by the facts of its pages.
ghost use Rattle.hb_sound.specs.Facts.{HasFacts};

use crate::page_facts::Fact;
use hb_ops::Meta;

/// What a file of a legal layout says of itself, and the fact of each page up to the highest page.
#[derive(Clone, Copy)]
pub(crate) struct Facts<'a> {
    pub(crate) meta: &'a Meta,
    pub(crate) list: &'a [Fact],
    ghost each: { HasFacts meta.now list.now },
}
