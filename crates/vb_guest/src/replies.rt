//! What the calls on a guest answer, as replies.

ghost use Rattle.std.specs.Prelude.{◌≡◌};
ghost use Rattle.vb_guest.specs.Replies.{ready_reply, page_reply, done_reply, bytes_reply};
ghost use Rattle.vb_guest.specs.Replies.{posted_reply, reaped_reply, taken_reply, finished_reply};
ghost use Rattle.vb_guest.specs.Replies.{swept_reply, worked_reply, runs_reply, balloon_reply};
ghost use Rattle.vb_guest.specs.Replies.{filled_reply, asked_reply, statistics_reply, served_reply};

use crate::served::Served;
use std::alloc::AllocError;
use vb_device::{Statistics, Worked};
use vb_driver::{Posted, Reaped};
use vb_model::{BalloonState, Bytes, PageRuns, Reply};
use vb_virtio::{LastStatistics, Refusal};

pub(crate) fn ready_reply(answer: Result<(), Refusal>) -> Reply
    ensures { result ≡ ready_reply answer }
{
    match answer {
        Ok(()) => Reply::Ready,
        Err(refusal) => Reply::Refused(refusal),
    }
}

pub(crate) fn page_reply(answer: Result<u32, Refusal>) -> Reply
    ensures { result ≡ page_reply answer }
{
    match answer {
        Ok(start) => Reply::Page { start },
        Err(refusal) => Reply::Refused(refusal),
    }
}

pub(crate) fn done_reply(answer: Result<(), Refusal>) -> Reply
    ensures { result ≡ done_reply answer }
{
    match answer {
        Ok(()) => Reply::Done,
        Err(refusal) => Reply::Refused(refusal),
    }
}

pub(crate) fn bytes_reply(answer: Result<Bytes, Refusal>) -> Reply
    ensures { result ≡ bytes_reply answer }
{
    match answer {
        Ok(bytes) => Reply::ReadBytes { bytes },
        Err(refusal) => Reply::Refused(refusal),
    }
}

pub(crate) fn posted_reply(answer: Result<Posted, Refusal>) -> Reply
    ensures { result ≡ posted_reply answer }
{
    match answer {
        Ok(posted) => Reply::Posted {
            head: u32::from(posted.head),
            pages: posted.pages,
        },
        Err(refusal) => Reply::Refused(refusal),
    }
}

pub(crate) fn reaped_reply(answer: Result<Option<Reaped>, Refusal>) -> Reply
    ensures { result ≡ reaped_reply answer }
{
    match answer {
        Ok(Some(reaped)) => Reply::Reaped {
            head: u32::from(reaped.head),
            pages: reaped.pages,
        },
        Ok(None) => Reply::NotUsed,
        Err(refusal) => Reply::Refused(refusal),
    }
}

pub(crate) fn taken_reply(answer: Result<Option<u16>, Refusal>) -> Reply
    ensures { result ≡ taken_reply answer }
{
    match answer {
        Ok(Some(head)) => Reply::Taken {
            head: u32::from(head),
        },
        Ok(None) => Reply::Empty,
        Err(refusal) => Reply::Refused(refusal),
    }
}

pub(crate) fn worked_reply(answer: Result<Option<Worked>, Refusal>) -> Reply
    ensures { result ≡ worked_reply answer }
{
    match answer {
        Ok(Some(worked)) => Reply::Worked {
            page: worked.page,
            freed: worked.freed,
        },
        Ok(None) => Reply::Idle,
        Err(refusal) => Reply::Refused(refusal),
    }
}

pub(crate) fn finished_reply(answer: Result<u16, Refusal>) -> Reply
    ensures { result ≡ finished_reply answer }
{
    match answer {
        Ok(head) => Reply::Finished {
            head: u32::from(head),
        },
        Err(refusal) => Reply::Refused(refusal),
    }
}

pub(crate) fn served_reply(answer: Result<Served, Refusal>) -> Reply
    ensures { result ≡ served_reply answer }
{
    match answer {
        Ok(Served { chains, broken }) => Reply::Served { chains, broken },
        Err(refusal) => Reply::Refused(refusal),
    }
}

pub(crate) fn swept_reply(answer: Result<bool, Refusal>) -> Reply
    ensures { result ≡ swept_reply answer }
{
    match answer {
        Ok(freed) => Reply::Swept { freed },
        Err(refusal) => Reply::Refused(refusal),
    }
}

pub(crate) fn filled_reply(answer: Result<bool, Refusal>) -> Reply
    ensures { result ≡ filled_reply answer }
{
    match answer {
        Ok(true) => Reply::Filled,
        Ok(false) => Reply::NotUsed,
        Err(refusal) => Reply::Refused(refusal),
    }
}

pub(crate) fn asked_reply(answer: Result<(), Refusal>) -> Reply
    ensures { result ≡ asked_reply answer }
{
    match answer {
        Ok(()) => Reply::Asked,
        Err(refusal) => Reply::Refused(refusal),
    }
}

pub(crate) fn runs_reply(answer: Result<PageRuns, AllocError>) -> Reply
    ensures { result ≡ runs_reply answer }
{
    match answer {
        Ok(runs) => Reply::Pages { runs },
        Err(_) => Reply::Refused(Refusal::NoMemory),
    }
}

pub(crate) fn balloon_reply(state: BalloonState) -> Reply
    ensures { result ≡ balloon_reply state }
{
    Reply::Balloon { state }
}

pub(crate) fn statistics_reply(last: Statistics) -> Reply
    ensures { result ≡ statistics_reply last }
{
    let last = LastStatistics {
        free: last.free,
        total: last.total,
    };
    Reply::Statistics { last }
}
