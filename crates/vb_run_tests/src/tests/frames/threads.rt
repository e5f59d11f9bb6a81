//! Threads with a pass each.

use std::alloc::{AllocError, Global};
use std::sync::Wait;
use std::sync::atomic::{AtomicBool, Ordering};
use std::test::Fail;
use std::thread;
use std::thread::Threads;
use vb_shared::{FramePass, SharedFrames};

/// Claims until no frame is free.
fn claim_all(pass: &mut FramePass, held: &mut Vec<u32>) -> Result<(), AllocError> {
    for _turn in 0..65_536 {
        let Some(frame) = pass.claim() else {
            break;
        };
        held.push(frame)?;
    }
    Ok(())
}

/// Puts every second of these frames back, and keeps the others' numbers.
fn keep_half(pass: &mut FramePass, first: &[u32], held: &mut Vec<u32>) -> Result<(), AllocError> {
    for (place, frame) in first.iter().enumerate() {
        if place % 2 == 0 {
            held.push(*frame)?;
        } else {
            pass.put_back(*frame);
        }
    }
    Ok(())
}

/// Claims all that it can, puts every second frame back and claims again.
fn claim_again(pass: &mut FramePass, alloc: Global) -> Result<Vec<u32>, AllocError> {
    let (mut first, mut held) = (Vec::new(alloc), Vec::new(alloc));
    claim_all(pass, &mut first)?;
    keep_half(pass, &first, &mut held)?;
    claim_all(pass, &mut held)?;
    Ok(held)
}

/// Claims all, puts half back and claims again once all threads are there; the pass is dropped
/// then.
fn claim_twice<R: Wait>(
    rt: &R,
    alloc: Global,
    mut pass: FramePass,
    are_there: &AtomicBool,
) -> Result<Vec<u32>, AllocError> {
    for _ in rt.forever() {
        if are_there.load(Ordering::SeqCst) {
            break;
        }
        thread::yield_now();
    }
    claim_again(&mut pass, alloc)
}

/// A thread a pass; what each holds at its end.
fn claim_on_threads<R: Threads + Wait + Sync>(
    rt: &R,
    alloc: Global,
    passes: Vec<FramePass>,
) -> Result<Vec<Vec<u32>>, AllocError> {
    let flag = AtomicBool::new(false);
    let are_there = &flag;
    thread::scope(thread::scope_env(), rt, move |scope| {
        let mut threads = Vec::new(alloc);
        for pass in passes {
            // Without a thread, or its handle, there are too few frames at the end.
            if let Ok(thread) = scope.spawn(move || claim_twice(rt, alloc, pass, are_there)) {
                let _ = threads.push(thread);
            }
        }
        are_there.store(true, Ordering::SeqCst);
        let mut lists = Vec::new(alloc);
        for thread in threads {
            lists.push(thread.join(rt)?)?;
        }
        Ok(lists)
    })
}

/// Marks the frames of a list; whether each was there and not marked before.
fn mark(held: &[u32], marks: &mut [bool]) -> bool {
    for frame in held {
        match marks.get_mut(*frame as usize) {
            Some(marked) if !*marked => *marked = true,
            _ => return false,
        }
    }
    true
}

/// How many frames the lists have, where none is in two of them, nor twice in one.
fn count_apart(
    alloc: Global,
    lists: &[Vec<u32>],
    frames: usize,
) -> Result<Option<usize>, AllocError> {
    let mut marks = vec![in alloc; false; frames]?;
    let mut count = 0usize;
    for list in lists {
        if !mark(list, &mut marks) {
            return Ok(None);
        }
        count = count.saturating_add(list.len());
    }
    Ok(Some(count))
}

/// Sizes of tables: frames and guests.
static SIZES: [(u32, u32); 2] = [(64, 4), (1_024, 8)];

/// At the end all frames are out: each thread that put one back claimed until none was free.
#[test]
fn no_frame_is_held_on_two_threads_and_none_is_left(rt: HostRuntime) -> Result<(), Fail> {
    for (size, guests) in &SIZES {
        let (frames, passes) = SharedFrames::open(rt.alloc(), *size, *guests)?;
        let lists = claim_on_threads(&rt, rt.alloc(), passes)?;
        let held = count_apart(rt.alloc(), &lists, *size as usize)?;
        let out = frames.census();
        assert!(rt;
            held == Some(*size as usize) && out == *size,
            "of {size} frames {out} are out, by lists {held:?}"
        );
    }
    Ok(())
}
