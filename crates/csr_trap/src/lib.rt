// What entering and leaving a mode is to mstatus: its word after a trap and after a return, the mode that a return goes to, and
// whether a trap goes to S or to M.
#![tactic(auto)]

pub mod returns;
pub mod route;
pub mod trap;
