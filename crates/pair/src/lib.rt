//! Two mills that are asked the same, and the law over them.
#![tactic(auto)]

mod lists;
pub mod mill_run;
pub mod obey;
pub mod pair_call;
pub mod pair_run;
