//! Pages inside: a page is responsible for a box of the attribute space, and its inside is a k-d
//! tree of cuts whose tips are leaves: records, child pages, and siblings to which boxes were given.
//!
//! The one contract: a page is described by its leaves and their boxes, as a list from the left
//! (`specs/Leaves.antt`), and parts of it by the paths that lead to them (`specs/Paths.antt`). Each
//! call says what it answers in these words. What follows from them alone is in `laws`: the boxes
//! part the page's box, so each point of it has one leaf; a part's leaves are a stretch of the
//! page's; and another part in its place changes no other leaf.
//!
//! A child leaf is carved so that another child is named over what its box has in common with some
//! box (`specs/Carving.antt`), and cuts that part nothing are taken away (`specs/Normal.antt`). The
//! laws say that carving parts the leaf's box between the two, that a tree without such cuts says
//! what the tree said, and what a page will weigh after both.
//!
//! Contracts see a `Frag` as a `Tree` (`specs/Trees.antt`), a `Path` as its list of sides, and
//! `Pages` as a list of numbers. No type keeps an invariant: that every cut cuts its box is asked
//! for where a call needs it, and `LivePage::is_well_cut` tells. The rules that a page keeps by
//! itself are definitions (`specs/Rules.antt`), and so is its spelling in 4,096 bytes
//! (`specs/Grammar.antt`).
//!
//! The calls go down a page by recursion, one call for each cut on the way. Nothing in this crate
//! bounds that depth. It is less than the page weighs, since each leaf weighs at least 1. A page
//! with a spelling has fewer than 320 cuts, since a cut takes ten of its 4,096 bytes, and a leaf at
//! least three. Pages come from such bytes, or from operations that keep the weight within a
//! capacity.
#![tactic(auto)]

mod capacities;
mod carving;
mod fragments;
mod joining;
pub mod laws;
mod leaves;
mod names;
mod pages;
mod paths;
mod records;
mod threads;

pub use capacities::{capacity_of, is_thin, most_merged};
pub use carving::{carve, carved_weight};
pub use fragments::{Frag, Node, replace};
pub use joining::normal;
pub use leaves::Leaf;
pub use names::Pages;
pub use pages::{LivePage, Page};
pub use paths::{Path, Side};
