// What a path owes its callers over every order of calls: each answer and each count is that of a book of entries.
#![tactic(auto)]

pub mod call;
mod purse;
pub mod run;
pub mod step;
pub mod text;
