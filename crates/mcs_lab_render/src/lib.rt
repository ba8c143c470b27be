//! The picture of a run or of a script: as SVG, as Mermaid's text, and as a page through which one
//! steps.
#![tactic(auto)]

mod bars;
mod choice;
mod html;
mod labels;
mod layout;
mod legend;
mod mermaid;
mod notes;
mod numbers;
mod paper;
mod plans;
mod scene;
mod script_names;
mod scripts;
mod steps;
mod svg;
mod texts;
mod titles;

pub use choice::{NoThreads, threads_named};
pub use mcs_lab_diagram::Window;
pub use scripts::{Asked, Format, draw_script};
