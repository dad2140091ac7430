//! How often an audit asks for each page of a sound file: once, and a page that names a child behind it twice.
ghost use Rattle.std.specs.Prelude.{IfOk, IfSome, None};
ghost use Rattle.hb_page_codec.specs.Weight.{IsLight};

use crate::audits::tree_of;
use crate::fields::page_at;
use crate::missed::Missed;
use crate::trees::{Tree, file_of};
use hb_frag::Page;
use hb_page_codec::laws::fields_are_read_exactly;
use hb_page_codec::{PageError, decode};
use hb_sound::{PageStop, Pages, audit};
use hb_space::NoMemory;
use hb_space::form::PAGE;
use std::alloc::{AllocError, Global};

/// How far the numbers of a file are ahead of places; how often its root is asked for, and each page of level 1.
const ROWS: [(u32, [u8; 5]); 4] = [
    (0, [2, 2, 2, 2, 2]),
    (999, [1, 2, 2, 2, 2]),
    (995, [2, 1, 1, 1, 1]),
    (994, [2, 2, 1, 1, 1]),
];

/// The pages of a file in memory, of a source that tells nothing.
#[derive(Drop)]
struct Counted {
    alloc: Global,
    file: Vec<u8>,
    /// How often the page of each number was asked for.
    asks: Vec<u8>,
}

/// The page that the bytes spell, if they spell one.
fn spelled(alloc: Global, bytes: &[u8]) -> Result<Option<Page>, NoMemory>
    ensures light { IfOk result (λ page. IfSome page IsLight) }
{
    fields_are_read_exactly();
    match decode(alloc, bytes) {
        Ok(page) => Ok(Some(page)),
        Err(PageError::BadPage) => Ok(None),
        Err(PageError::NoMemory) => Err(AllocError),
    }
}

impl Counted {
    /// The page of this number, which may be any.
    fn ask(&mut self, id: u32) -> Result<Option<Page>, NoMemory>
        ensures { IfOk result (λ page. IfSome page IsLight) }
    {
        if let Some(count) = self.asks.get_mut(id as usize) {
            *count = count.saturating_add(1);
        }
        let Some(rest) = self.file.get(page_at(id)..) else {
            return Ok(None);
        };
        match rest.get(..PAGE) {
            Some(bytes) => spelled(self.alloc, bytes),
            None => Ok(None),
        }
    }
}

impl Pages for Counted {
    ghost model = { λ _. record { told = None; faults = 0 } };

    ghost asked = { λ _ _. Unit {0} };

    ghost asked_none = { λ _. tt };

    ghost asked_on = { λ _ _ _ _ _. tt };

    fn page(&mut self, id: u32) -> Result<Option<Page>, PageStop> {
        match self.ask(id) {
            Ok(page) => Ok(page),
            Err(_refused) => Err(PageStop::NoMemory),
        }
    }
}

/// Whether the page of each place was asked for so often, those of records once.
fn are_asked(tree: &Tree, counted: &Counted, above: &[u8]) -> Result<(), Missed> {
    for place in 0..tree.high() {
        let page = tree.number(place);
        let wanted = above.get(place as usize).copied().unwrap_or(1);
        let count = counted.asks.get(page as usize).copied().unwrap_or(0);
        if count != wanted {
            return Err(Missed::Asked { page, count });
        }
    }
    Ok(())
}

/// Audits each of the files, which has a record in each of its 995 pages of records.
pub(crate) fn pages_are_asked(alloc: Global) -> Result<(), Missed> {
    for (ahead, above) in &ROWS {
        let tree = tree_of(*ahead);
        let mut counted = Counted {
            alloc,
            file: file_of(alloc, &tree)?,
            asks: vec![in alloc; 0; 1001]?,
        };
        let meta = tree.meta();
        if !meta.is_layout() || audit(alloc, &meta, &mut counted) != Ok(995) {
            return Err(Missed::NotSound);
        }
        are_asked(&tree, &counted, above)?;
    }
    Ok(())
}
