//! A balloon device over the memory of a running guest: which accesses a notice makes, in which
//! order, whatever memory answers, and what they come to.
#![tactic(auto)]

mod answers;
mod balloon;
mod codes;
mod copying;
mod cuts;
mod discards;
mod ends;
mod filling;
mod free_pages;
mod giving;
mod large;
mod laws;
mod looks;
mod memory;
mod naming;
mod notice;
mod orders;
mod outcome;
mod parts;
mod pieces;
mod placing;
mod progress;
mod queues;
mod regions;
mod room;
mod round_laws;
mod rows;
mod rules;
mod serving;
mod setting;
mod snapshot;
mod step;
mod walk;

pub use answers::{
    BAD_ARGUMENT, BAD_LENGTH, BAD_SUM, BROKEN, IMPOSSIBLE, MISPLACED, NEEDS_RESET, NO_QUEUE,
    NOT_A_STATE, NOT_READY, NOTHING, OK, OTHER_VERSION, SHORT, STALE, code_of, end_rule, rule_in,
};
pub use balloon::{Balloon, may_tell};
pub use codes::ENDED;
pub use cuts::{Cut, NextCut};
pub use filling::{Filled, fill};
pub use giving::UsedSpots;
pub use large::{LARGEST_PAGE, Large, large_pages};
pub use laws::{
    a_chain_is_served_by_its_bytes, a_chain_that_is_given_back_leaves_its_queue_open,
    a_chain_that_is_told_is_held, a_held_chain_is_given_back_alone, a_notice_does_what_memory_says,
    a_notice_makes_few_accesses, a_notice_pauses_by_its_budget, a_notice_reports_what_memory_says,
    a_part_is_whole_pages_of_its_run, a_portion_is_served_by_its_bytes, a_run_has_few_parts,
    accesses_come_in_their_order, giving_back_makes_few_accesses,
    large_pages_go_once_they_are_given_up, memory_has_one_chain_next,
    nothing_outside_the_regions_is_touched, only_named_pages_are_discarded,
    only_used_elements_are_written, what_counts_is_read_once,
};
pub use memory::LiveMemory;
pub use orders::{Asked, MAX_CUTS, NoticeRoom, Orders, Told, Used, at_once};
pub use outcome::{Budget, HeldChain, Outcome, Tally};
pub use parts::Part;
pub use placing::{QueuePlace, RestoreDenial, are_memory, memory_end_of};
pub use progress::Progress;
pub use regions::{FILE_LIMIT, Region, Spot, find};
pub use room::{MAX_BYTES, MAX_FIGURES, MAX_PIECES, MAX_RUNS, ROW_DESCRIPTORS, Room};
pub use round_laws::{
    a_round_goes_by_the_ids_that_are_told, hinted_pages_are_of_a_round_that_was_heard,
    hints_are_told_in_their_round,
};
pub use serving::{Notice, serve};
pub use snapshot::Snapshot;
pub use step::{Discarding, Phase, Place, Walk};
