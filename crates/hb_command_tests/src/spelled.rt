//! Pages as bytes, and what the tests ask of a view of them.

ghost use Rattle.std.specs.Prelude.{IsTrue};
ghost use Rattle.hb_ops.specs.Sound.{FitsFile};
ghost use Rattle.hb_space.specs.Boxes.{Holds};
ghost use Rattle.hb_view.specs.Views.{IsLive, IsLiveAnd};

use crate::texts::Bytes;
use hb_frag::{Frag, Leaf, LivePage, Node};
use hb_layout::Meta;
use hb_space::form::PAGE;
use hb_space::{Point, Record};
use hb_view::PageView;
use std::alloc::Global;

fn add_point(bytes: &mut Bytes, point: &Point) {
    for value in point.values() {
        bytes.add(&value.to_be_bytes());
    }
}

fn add_record(bytes: &mut Bytes, record: &Record) {
    add_point(bytes, &record.key);
    bytes.short(record.body.bytes().len());
    bytes.add(record.body.bytes());
}

fn add_records(bytes: &mut Bytes, records: &[Record]) {
    bytes.count(records.len());
    for record in records {
        add_record(bytes, record);
    }
}

fn add_name(bytes: &mut Bytes, tag: u8, page: u32) {
    bytes.add(&[tag]);
    bytes.add(&page.to_be_bytes());
}

fn add_leaf(bytes: &mut Bytes, leaf: &Leaf) {
    match leaf {
        Leaf::Records(records) => {
            bytes.add(&[1]);
            add_records(bytes, records.as_slice());
        }
        Leaf::Child(page) => add_name(bytes, 2, *page),
        Leaf::Sibling(page) => add_name(bytes, 3, *page),
    }
}

fn add_frag(bytes: &mut Bytes, frag: &Frag) {
    match &frag.node {
        Node::Tip(leaf) => add_leaf(bytes, leaf),
        Node::Cut {
            axis,
            value,
            left,
            right,
        } => {
            bytes.add(&[0, *axis]);
            bytes.add(&value.to_be_bytes());
            add_frag(bytes, left);
            add_frag(bytes, right);
        }
    }
}

/// The bytes of a page in use.
pub(crate) fn bytes_of(alloc: Global, page: &LivePage) -> Option<Vec<u8>> {
    let mut bytes = Bytes::new(alloc);
    bytes.add(&[1, page.level]);
    bytes.short(page.area.lo().values().len());
    bytes.add(&[0]);
    add_point(&mut bytes, page.area.lo());
    add_point(&mut bytes, page.area.hi());
    add_frag(&mut bytes, &page.frag);
    bytes.filled(PAGE)
}

/// Whether the page is in use, and one of the file.
pub(crate) fn fits_file(view: &PageView<'_>, meta: &Meta) -> bool
    ensures { IsTrue result → IsLiveAnd view.now (FitsFile meta.now) }
{
    view.is_live() && keeps_rules(view, meta)
}

// Whether a page in use keeps the rules of a page alone.
fn keeps_rules(view: &PageView<'_>, meta: &Meta) -> bool
    requires { IsLive view.now }
    ensures { IsTrue result → IsLiveAnd view.now (FitsFile meta.now) }
{
    view.broken(meta.k, meta.height, meta.dcap, meta.icap)
        .is_none()
}

/// Whether the point lies in the box of the page in use.
pub(crate) fn has_point(view: &PageView<'_>, point: &Point) -> bool
    requires { IsLive view.now }
    ensures { IsTrue result → IsLiveAnd view.now (λ page. Holds page.area point.now) }
{
    let area = view.area();
    area.lo().attributes() == point.attributes() && area.holds(point)
}
