//! Where a full page is cut: the part that leaves it has between one third and two thirds of its
//! weight.
//!
//! The one contract: `choose` gives the extraction that is defined for the page
//! (`specs/Choosing.antt`). From the root the way goes to the heavier side of each cut of the tree,
//! while what it reached is heavier than two thirds of the page. A records leaf at its end is cut
//! by the plane whose heavier side is lightest, again and again, until the rest is light enough.
#![tactic(auto)]

mod choices;
mod parting;
mod planes;
mod ways;

pub use choices::{Extraction, choose};
