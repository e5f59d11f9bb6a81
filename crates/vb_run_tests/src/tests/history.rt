//! A history in plain values: rows that can be copied and compared.

use std::alloc::{AllocError, Global};
use vb_model::{Actor, Call, Reply};
use vb_run::{Entry, Step};
use vb_virtio::Refusal;

/// A call that threads make, or the balancer's look. Where it names a queue, a block or bytes, so
/// does this; a worker's `Finish` is that of request 0.
#[derive(Clone, Copy, PartialEq, Eq)]
pub(crate) enum Act<'a> {
    Init(u64),
    Alloc(u32, u32),
    Free(u32, u32, u32),
    Read(u32, u32, u32),
    Write(u32, u32, &'a [u8]),
    Inflate(u32),
    Deflate(u32),
    Oom(u32),
    Report(u32),
    Stats,
    Reap(u32),
    Take(u32),
    Work,
    Finish(u32),
    Ask,
    SetTarget(u32),
    Look(u32),
    /// A call that no thread makes.
    Other,
}

impl<'a> Act<'a> {
    pub fn of(call: &'a Call) -> Act<'a> {
        match call {
            Call::Init { features } => Act::Init(*features),
            Call::Alloc { cpu, order } => Act::Alloc(*cpu, *order),
            Call::Free { cpu, start, order } => Act::Free(*cpu, *start, *order),
            Call::Read { page, at, len } => Act::Read(*page, *at, *len),
            Call::Write { page, at, bytes } => Act::Write(*page, *at, bytes.as_slice()),
            Call::Inflate { pages } => Act::Inflate(*pages),
            Call::Deflate { pages } => Act::Deflate(*pages),
            Call::Oom { pages } => Act::Oom(*pages),
            Call::Report { from } => Act::Report(*from),
            Call::Stats => Act::Stats,
            Call::Reap { queue } => Act::Reap(*queue),
            Call::Take { queue } => Act::Take(*queue),
            Call::Work => Act::Work,
            Call::Finish { queue, index: 0 } => Act::Finish(*queue),
            Call::Ask => Act::Ask,
            Call::SetTarget { pages } => Act::SetTarget(*pages),
            _ => Act::Other,
        }
    }
}

/// What is answered.
#[derive(Clone, Copy, PartialEq, Eq)]
pub(crate) enum Said<'a> {
    Done,
    Ready,
    Page(u32),
    Bytes(&'a [u8]),
    Posted(u32, u32),
    Filled,
    NotUsed,
    Reaped(u32, u32),
    Taken(u32),
    Empty,
    Worked(u32, bool),
    Idle,
    Finished(u32),
    Asked,
    Refused(Refusal),
    /// How many pages the guest can spare.
    Spare(u32),
    /// What each guest is to give.
    Targets(&'a [u32]),
    /// A reply that no call of a thread has, or another one than the entry's.
    Other,
}

impl<'a> Said<'a> {
    pub fn of(reply: &'a Reply) -> Said<'a> {
        match reply {
            Reply::Done => Said::Done,
            Reply::Ready => Said::Ready,
            Reply::Page { start } => Said::Page(*start),
            Reply::ReadBytes { bytes } => Said::Bytes(bytes.as_slice()),
            Reply::Posted { head, pages } => Said::Posted(*head, *pages),
            Reply::Filled => Said::Filled,
            Reply::NotUsed => Said::NotUsed,
            Reply::Reaped { head, pages } => Said::Reaped(*head, *pages),
            Reply::Taken { head } => Said::Taken(*head),
            Reply::Empty => Said::Empty,
            Reply::Worked { page, freed } => Said::Worked(*page, *freed),
            Reply::Idle => Said::Idle,
            Reply::Finished { head } => Said::Finished(*head),
            Reply::Asked => Said::Asked,
            Reply::Refused(refusal) => Said::Refused(*refusal),
            Reply::Targets { pages } => Said::Targets(pages.as_slice()),
            _ => Said::Other,
        }
    }
}

/// An entry: looks are the balancer's.
#[derive(Clone, Copy)]
pub(crate) struct Row<'a> {
    pub actor: Actor,
    pub act: Act<'a>,
    pub said: Said<'a>,
}

impl<'a> Row<'a> {
    pub fn of(entry: &'a Entry) -> Row<'a> {
        match entry.step() {
            Step::Called {
                actor,
                call,
                reply,
                ..
            } => Row {
                actor: *actor,
                act: Act::of(call),
                said: Said::of(reply),
            },
            Step::Looked { floor, spare } => Row {
                actor: Actor::Balancer,
                act: Act::Look(*floor),
                said: Said::Spare(*spare),
            },
        }
    }
}

/// A history's rows.
pub(crate) fn rows_of<'a>(alloc: Global, history: &'a [Entry]) -> Result<Vec<Row<'a>>, AllocError> {
    let mut rows = Vec::new(alloc);
    for entry in history {
        rows.push(Row::of(entry))?;
    }
    Ok(rows)
}

/// A call and its reply.
pub(crate) type Pair<'a> = (Act<'a>, Said<'a>);

/// What an actor called and was replied, in order.
pub(crate) fn pairs_by<'a>(
    alloc: Global,
    rows: &[Row<'a>],
    actor: Actor,
) -> Result<Vec<Pair<'a>>, AllocError> {
    let mut pairs = Vec::new(alloc);
    for row in rows {
        if row.actor == actor {
            pairs.push((row.act, row.said))?;
        }
    }
    Ok(pairs)
}
