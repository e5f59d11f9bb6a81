//! A host that lends its frames to guests whose balloons it moves: what is lent to each follows
//! from what its process has reported and what its driver may still obey, and one step decides all.
#![tactic(auto)]

mod arrival;
mod asking;
mod event;
mod hearing;
mod laws;
mod least;
mod lending;
mod line;
mod memory;
mod message;
mod outside;
mod pace;
mod reading;
mod relief;
mod report;
mod seat;
mod turns;

pub use asking::messages_are_read;
pub use event::Event;
pub use laws::{
    a_lower_budget_takes_effect, a_round_leaves_nothing_to_give, grants_go_in_turn,
    never_stuck_unless_short, none_is_passed, one_lets_others_pass, one_proceeds,
    one_round_each_serves_all, one_round_settles, reports_tell, steps_settle, targets_leave_room,
    the_budget_holds, the_lender_is_the_systems, the_limits_hold, toward_a_target_never_waits,
    uncounted_stays,
};
pub use least::{least_budget, the_least_budget_suffices};
pub use lending::{happen, step};
pub use line::{claimed, first_in_line, owed, room, shown_owed};
pub use message::{Ask, Exchange, Hold, Message};
pub use outside::a_report_tells_of_memory;
pub use pace::{Aim, Pace, steps_reach_what_was_decided};
pub use reading::Reading;
pub use relief::{Look, Stand, due_relief, only_a_standstill_is_relieved};
pub use report::{Report, WaitingLine};
pub use seat::Seat;
