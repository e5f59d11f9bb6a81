//! Replies, each as its line.

ghost use Rattle.std.specs.Prelude.{◌≡◌, ◌++◌, ◌∷◌, [], codes, OnOk};
ghost use Rattle.std.specs.Fmt.{decimal};
ghost use Rattle.std.specs.Io.KnownBytes.{Appends};
ghost use Rattle.std.specs.List.{flat_map};
ghost use Rattle.vb_model.specs.declared.replies.Reply.TheVariants.{Balloon, Plugged, Swept};
ghost use Rattle.vb_model.specs.declared.replies.Reply.TheVariants.{Served, Worked};
ghost use Rattle.vb_reply.specs.Held.{Puts};
ghost use Rattle.vb_reply.specs.Replies.{bytes_text, counts_text, freed_text, line_of};
ghost use Rattle.vb_reply.specs.Replies.{reply_text, run_text, runs_text};
ghost use Rattle.vb_reply.specs.Replies.{statistic_text, target_text, targets_text};

use crate::held::{Failed, Held, put, put_digits, put_number, put_with, release};
use crate::refusals::put_refusal;
use std::io;
use std::io::Write;
use vb_model::{BalloonState, PageRun, PlaceCounts, Reply};
use vb_virtio::LastStatistics;

/// Writes what an event was answered as one line, which ends in a line feed. Fails where a write to
/// `out` does; what was written until then is part of the line.
pub fn write_reply<W: Write>(out: &mut W, reply: &Reply) -> io::Result<()>
    ensures { OnOk result (Appends (W.contents out.old) (W.contents out.new) (line_of reply.now)) }
{
    let mut held = Held::new();
    match put_only(out, &mut held, reply) {
        Ok(()) => Ok(()),
        Err(Failed) => Err(held.into_fault()),
    }
}

/// Writes what events were answered, a line each. Many lines go to `out` at once; no memory is
/// taken. Fails where a write to `out` does; what was written until then is a first part of them.
pub fn write_replies<W: Write>(out: &mut W, replies: &[Reply]) -> io::Result<()>
    ensures { OnOk result
        (Appends (W.contents out.old) (W.contents out.new) (flat_map line_of replies.now)) }
{
    let mut held = Held::new();
    match put_all(out, &mut held, replies) {
        Ok(()) => Ok(()),
        Err(Failed) => Err(held.into_fault()),
    }
}

/// Writes what an event was answered as one line, and holds nothing then.
fn put_only<W: Write>(out: &mut W, line: &mut Held, reply: &Reply) -> Result<(), Failed>
    requires { line.old.text.items ≡ [] }
    ensures { OnOk result (Appends (W.contents out.old) (W.contents out.new) (line_of reply.now)) }
{
    put_reply(out, line, reply)?;
    release(out, line)?;
    Ok(())
}

/// Writes what events were answered, a line each, and holds nothing then.
fn put_all<W: Write>(out: &mut W, held: &mut Held, replies: &[Reply]) -> Result<(), Failed>
    requires { held.old.text.items ≡ [] }
    ensures { OnOk result
        (Appends (W.contents out.old) (W.contents out.new) (flat_map line_of replies.now)) }
{
    for reply in replies {
        put_reply(out, held, reply)?;
    }
    release(out, held)?;
    Ok(())
}

/// Puts what an event was answered as one line, which ends in a line feed: it is held for `out`,
/// and written once 8 KiB are held. No memory is taken. Fails where a write to `out` does, and what
/// the writer got until then is a first part of what was put.
pub fn put_reply<W: Write>(out: &mut W, held: &mut Held, reply: &Reply) -> Result<(), Failed>
    ensures { OnOk result (Puts (W.contents out.old) held.old.text.items (W.contents out.new)
        held.new.text.items (line_of reply.now)) }
{
    put_text(out, held, reply)?;
    put(out, held, b"\n")
}

/// Puts what an event was answered.
fn put_text<W: Write>(out: &mut W, held: &mut Held, reply: &Reply) -> Result<(), Failed>
    ensures { OnOk result
        (Puts (W.contents out.old) held.old.text.items (W.contents out.new)
        held.new.text.items (reply_text reply.now)) }
{
    match reply {
        Reply::Done => put(out, held, b"ok"),
        Reply::Plugged { guest } => put_plugged(out, held, *guest),
        Reply::Ready => put(out, held, b"ready"),
        Reply::Page { start } => put_with(out, held, b"page ", *start),
        Reply::ReadBytes { bytes } => put_bytes(out, held, bytes.as_slice()),
        Reply::Posted { head, pages } => put_two(out, held, b"posted ", *head, b" ", *pages),
        Reply::Filled => put(out, held, b"filled"),
        Reply::NotUsed => put(out, held, b"none"),
        Reply::Reaped { head, pages } => put_two(out, held, b"reaped ", *head, b" ", *pages),
        Reply::Taken { head } => put_with(out, held, b"taken ", *head),
        Reply::Empty => put(out, held, b"empty"),
        Reply::Worked { page, freed } => put_worked(out, held, *page, *freed),
        Reply::Idle => put(out, held, b"idle"),
        Reply::Finished { head } => put_with(out, held, b"finished ", *head),
        Reply::Served { chains, broken } => put_served(out, held, *chains, *broken),
        Reply::Swept { freed } => put_swept(out, held, *freed),
        Reply::Asked => put(out, held, b"asked"),
        Reply::Targets { pages } => put_targets(out, held, pages.as_slice()),
        Reply::Places { counts } => put_counts(out, held, *counts),
        Reply::Pages { runs } => put_runs(out, held, runs.as_slice()),
        Reply::Balloon { state } => put_balloon(out, held, *state),
        Reply::Statistics { last } => put_statistics(out, held, *last),
        Reply::Backing { frame: None } => put(out, held, b"no backing"),
        Reply::Backing { frame: Some(frame) } => put_with(out, held, b"frame ", *frame),
        Reply::Frames { used, free } => {
            put_two(out, held, b"frames used ", *used, b" free ", *free)
        }
        Reply::Refused(refusal) => put_refusal(out, held, *refusal),
    }
}

/// Whether a page had a frame, which it then lost.
fn freed_word(freed: bool) -> &'static [u8]
    ensures { result.now ≡ freed_text freed }
{
    if freed { b"freed" } else { b"bare" }
}

/// Puts the number of a new guest.
fn put_plugged<W: Write>(out: &mut W, held: &mut Held, guest: usize) -> Result<(), Failed>
    ensures { OnOk result (Puts (W.contents out.old) held.old.text.items (W.contents out.new)
        held.new.text.items (reply_text (Plugged guest))) }
{
    put(out, held, b"guest ")?;
    put_number(out, held, guest as u64)
}

/// Puts the page that was visited, and whether it had a frame.
fn put_worked<W: Write>(out: &mut W, held: &mut Held, page: u32, freed: bool) -> Result<(), Failed>
    ensures { OnOk result (Puts (W.contents out.old) held.old.text.items (W.contents out.new)
        held.new.text.items (reply_text (Worked page freed))) }
{
    put_with(out, held, b"worked ", page)?;
    put(out, held, b" ")?;
    put(out, held, freed_word(freed))
}

/// Puts how many chains were served, and which rule the next one breaks, if it breaks one.
fn put_served<W: Write>(
    out: &mut W,
    held: &mut Held,
    chains: u32,
    broken: Option<u32>,
) -> Result<(), Failed>
    ensures { OnOk result (Puts (W.contents out.old) held.old.text.items (W.contents out.new)
        held.new.text.items (reply_text (Served chains broken))) }
{
    match broken {
        None => put_with(out, held, b"served ", chains),
        Some(rule) => put_two(out, held, b"served ", chains, b" broken C", rule),
    }
}

/// Puts that a page was swept, and whether it had a frame.
fn put_swept<W: Write>(out: &mut W, held: &mut Held, freed: bool) -> Result<(), Failed>
    ensures { OnOk result (Puts (W.contents out.old) held.old.text.items (W.contents out.new)
        held.new.text.items (reply_text (Swept freed))) }
{
    put(out, held, b"swept ")?;
    put(out, held, freed_word(freed))
}

/// Puts the count of ballooned pages, the configuration's two numbers, and the status.
fn put_balloon<W: Write>(out: &mut W, held: &mut Held, state: BalloonState) -> Result<(), Failed>
    ensures { OnOk result (Puts (W.contents out.old) held.old.text.items (W.contents out.new)
        held.new.text.items (reply_text (Balloon state))) }
{
    let status = u32::from(state.status);
    put_two(
        out,
        held,
        b"ballooned ",
        state.ballooned,
        b" actual ",
        state.actual,
    )?;
    put_two(out, held, b" target ", state.target, b" status ", status)
}

/// Puts bytes as hexadecimal digits of lower case.
fn put_bytes<W: Write>(out: &mut W, held: &mut Held, bytes: &[u8]) -> Result<(), Failed>
    ensures { OnOk result (Puts (W.contents out.old) held.old.text.items (W.contents out.new)
        held.new.text.items (bytes_text bytes.now)) }
{
    put(out, held, b"bytes ")?;
    put_digits(out, held, bytes)
}

/// Puts a number after each of two texts.
fn put_two<W: Write>(
    out: &mut W,
    held: &mut Held,
    first: &[u8],
    number: u32,
    second: &[u8],
    other: u32,
) -> Result<(), Failed>
    ensures { OnOk result (Puts (W.contents out.old) held.old.text.items (W.contents out.new)
        held.new.text.items (first.now ++ (decimal number ++ (second.now ++ decimal other)))) }
{
    put_with(out, held, first, number)?;
    put_with(out, held, second, other)
}

/// Puts the guests' targets, by rising number of guest.
fn put_targets<W: Write>(out: &mut W, held: &mut Held, targets: &[u32]) -> Result<(), Failed>
    ensures { OnOk result
        (Puts (W.contents out.old) held.old.text.items (W.contents out.new)
        held.new.text.items (targets_text targets.now)) }
{
    put(out, held, b"targets")?;
    for target in targets {
        put_target(out, held, *target)?;
    }
    Ok(())
}

/// Puts a target after a space.
fn put_target<W: Write>(out: &mut W, held: &mut Held, target: u32) -> Result<(), Failed>
    ensures { OnOk result
        (Puts (W.contents out.old) held.old.text.items (W.contents out.new)
        held.new.text.items (target_text target)) }
{
    put_with(out, held, b" ", target)
}

/// Puts how many pages each place has.
fn put_counts<W: Write>(out: &mut W, held: &mut Held, counts: PlaceCounts) -> Result<(), Failed>
    ensures { OnOk result
        (Puts (W.contents out.old) held.old.text.items (W.contents out.new)
        held.new.text.items (counts_text counts)) }
{
    let PlaceCounts {
        free,
        used,
        giving,
        lent,
        taking,
        stranded,
        reporting,
    } = counts;
    put_two(out, held, b"free ", free, b" used ", used)?;
    put_two(out, held, b" giving ", giving, b" lent ", lent)?;
    put_two(out, held, b" taking ", taking, b" stranded ", stranded)?;
    put_with(out, held, b" reporting ", reporting)
}

/// Puts runs of pages, one page alone by its number.
fn put_runs<W: Write>(out: &mut W, held: &mut Held, runs: &[PageRun]) -> Result<(), Failed>
    ensures { OnOk result
        (Puts (W.contents out.old) held.old.text.items (W.contents out.new)
        held.new.text.items (runs_text runs.now)) }
{
    put(out, held, b"pages")?;
    for run in runs {
        put_run(out, held, *run)?;
    }
    Ok(())
}

/// Puts a run of pages after a space.
fn put_run<W: Write>(out: &mut W, held: &mut Held, run: PageRun) -> Result<(), Failed>
    ensures { OnOk result (Puts (W.contents out.old) held.old.text.items (W.contents out.new)
        held.new.text.items (run_text run)) }
{
    let PageRun { first, last } = run;
    if first == last {
        put_with(out, held, b" ", first)
    } else {
        put_two(out, held, b" ", first, b"-", last)
    }
}

/// Puts the last statistics, in bytes, each as `-` where it isn't known.
fn put_statistics<W: Write>(
    out: &mut W,
    held: &mut Held,
    last: LastStatistics,
) -> Result<(), Failed>
    ensures { OnOk result (Puts (W.contents out.old) held.old.text.items (W.contents out.new)
        held.new.text.items (codes "memory"
        ++ (statistic_text last.free ++ statistic_text last.total))) }
{
    put(out, held, b"memory")?;
    put_statistic(out, held, last.free)?;
    put_statistic(out, held, last.total)
}

/// Puts one statistic after a space.
fn put_statistic<W: Write>(out: &mut W, held: &mut Held, value: Option<u64>) -> Result<(), Failed>
    ensures { OnOk result
        (Puts (W.contents out.old) held.old.text.items (W.contents out.new)
        held.new.text.items (statistic_text value)) }
{
    match value {
        Some(value) => put_known(out, held, value),
        None => put(out, held, b" -"),
    }
}

/// Puts a statistic that is known, after a space.
fn put_known<W: Write>(out: &mut W, held: &mut Held, value: u64) -> Result<(), Failed>
    ensures { OnOk result (Puts (W.contents out.old) held.old.text.items (W.contents out.new)
        held.new.text.items (statistic_text (Some value))) }
{
    put(out, held, b" ")?;
    put_number(out, held, value)
}
