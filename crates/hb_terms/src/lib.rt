//! What a posting does, by which a parent comes to name the page to which its child gave a box; and
//! what a merge does, by which a page takes over another one to which it gave a part of its own.
//!
//! Two contracts: `post_plan` gives the plan that is defined for a parent, its child and a point
//! (`specs/Plans.antt`), and `merge_plan` the one that is defined for a parent, the page to keep and
//! the page to go (`specs/Merging.antt`). Where the child's leaf at the point is a sibling leaf to
//! another page than the parent's leaf names, that page is owed a leaf of the parent. The plan is to
//! carve the parent's leaf by the sibling leaf's box, where the parent has the capacity for what it
//! weighs then, and else to split the parent first. A merge is planned where the page to keep has a
//! sibling leaf to the page to go, the parent directly holds all of its box, and the two together
//! weigh at most three quarters of the capacity. `laws` has what follows of a plan.
//!
//! No type keeps an invariant. Source of the idea: Evangelidis, Lomet and Salzberg 1997, whose
//! postings come late, page by page, and of one box at a time.
#![tactic(auto)]

pub mod laws;
mod merging;
mod plans;
mod threads;

pub use merging::{MergePlan, merge_plan};
pub use plans::{PostPlan, post_plan};
