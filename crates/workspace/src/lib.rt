// Values in the workspace, as their canonical bytes: the finished ones from its start up to `top`, those of visible definitions from `floor` to its
// end. Document 01: "Workspace", refusals 6, 16 and 17.
#![tactic(auto)]

pub mod made;
pub mod packed;
pub mod values;
