// The rules of evaluation: what is visible where an expression is evaluated, and what is to be done with it. Document 01: "Evaluation".
#![tactic(auto)]

pub mod entries;
pub mod here;
mod namespaces;
pub mod plan;
pub mod scope;
