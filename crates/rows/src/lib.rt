// What the rows of a table say of the expressions of a stream: what each row holds, which word a reference is, which rows are a form's.
// Document 01: "Table".
#![tactic(auto)]

pub mod arrays;
pub mod forms;
pub mod table;
pub mod words;
