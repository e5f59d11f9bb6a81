//! `Device` is the state of a whole balloon device (VIRTIO 1.1, 5.5) for a guest whose memory is
//! elsewhere, as in a monitor: its registers and queues, what requests and reports name, and the
//! set of ballooned pages. It touches no guest memory, and allocates nothing.
#![tactic(auto)]

mod ballooned;
mod config;
mod device;
mod format;
mod held;
mod hint_laws;
mod hints;
mod kinds;
mod laws;
mod name;
mod pieces;
mod possible;
mod reading;
mod report;
mod ring;
mod runs;
mod saved;
mod saved_laws;
mod settings;
mod starting;
mod statistics;
mod status;
mod using;

pub use ballooned::{Marking, count_ballooned, is_ballooned, mark, unmark};
pub use device::{Denial, Device};
pub use format::{FORMAT_VERSION, SAVED_LENGTH};
pub use held::Held;
pub use hint_laws::{
    a_round_that_was_heard_is_open, an_id_is_not_the_one_before, an_open_round_was_heard,
};
pub use hints::{DONE, Round, STOP};
pub use kinds::Kind;
pub use laws::{
    a_used_entry_is_the_rings_next, numbers_are_told_by_one_list_of_runs,
    runs_are_the_pages_of_the_report, runs_are_the_pages_of_the_request,
};
pub use name::Named;
pub use pieces::ChainPiece;
pub use report::MAX_REPORT_RUNS;
pub use ring::{MAX_RING_SIZE, UsedEntry, Virtqueue, place_in_ring};
pub use runs::Run;
pub use saved::{Saved, StateDenial};
pub use saved_laws::{
    an_older_state_is_restored, only_what_was_saved_is_restored, what_was_saved_is_restored,
};
pub use settings::{FREE_PAGE_HINT, LONGEST_REQUEST, MEMORY_LIMIT, PAGE_POISON, Settings};
pub use starting::QueueStart;
pub use statistics::Statistic;
