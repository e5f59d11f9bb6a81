//! A guest's life by its sizes, and reads of each length.

use super::{repeated, run};
use std::alloc::Global;
use std::io;
use std::io::Write;
use vb_command::SUCCESS;

/// A host's frames, its spare devices, the size of its guest's queues, and the guest's last
/// processor; and the frames that are free in the end.
struct Size {
    frames: u32,
    spares: usize,
    queue_size: u32,
    cpu: u32,
    free: u32,
}

/// What a guest of any size goes through, and the replies.
static LIFE: (&[u8], &[u8]) = (
    b"\
write 0 16 4095 ff
read 0 16 4095 1
pages 0 taking
pages 0 ballooned
target 0 2
inflate 0 2
pages 0 giving
take 0 0
work 0
work 0
finish 0 0 0
reap 0 0
pages 0 ballooned
frames
",
    b"\
guest 0
ready
page 16
ok
bytes ff
pages
pages
ok
posted 0 2
pages 17-18
taken 0
worked 17 bare
worked 18 bare
finished 0
reaped 0 2
pages 17-18
",
);

impl Size {
    /// The script of such a guest's life.
    fn script(&self, alloc: Global) -> io::Result<Vec<u8>> {
        let mut text = Vec::new(alloc);
        writeln!(text, "host {}", self.frames)?;
        for _ in 0..self.spares {
            text.write_all(b"spare paced\n")?;
        }
        let processors = self.cpu.saturating_add(1);
        writeln!(text, "plug 64 {} {}", self.queue_size, processors)?;
        writeln!(text, "init 0\nalloc 0 {} 0", self.cpu)?;
        text.write_all(LIFE.0)?;
        Ok(text)
    }

    /// What is written of it.
    fn replies(&self, alloc: Global) -> io::Result<Vec<u8>> {
        let mut text = Vec::new(alloc);
        text.write_all(LIFE.1)?;
        writeln!(text, "frames used 14 free {}", self.free)?;
        Ok(text)
    }
}

/// Each size of queues, each number of processors, and the least and the greatest hosts.
static LIVES: [Size; 12] = [
    Size {
        frames: 64,
        spares: 1,
        queue_size: 2,
        cpu: 0,
        free: 50,
    },
    Size {
        frames: 64,
        spares: 1,
        queue_size: 4,
        cpu: 1,
        free: 50,
    },
    Size {
        frames: 64,
        spares: 1,
        queue_size: 8,
        cpu: 2,
        free: 50,
    },
    Size {
        frames: 64,
        spares: 1,
        queue_size: 16,
        cpu: 3,
        free: 50,
    },
    Size {
        frames: 64,
        spares: 1,
        queue_size: 32,
        cpu: 0,
        free: 50,
    },
    Size {
        frames: 64,
        spares: 1,
        queue_size: 64,
        cpu: 1,
        free: 50,
    },
    Size {
        frames: 64,
        spares: 1,
        queue_size: 128,
        cpu: 2,
        free: 50,
    },
    Size {
        frames: 64,
        spares: 1,
        queue_size: 4,
        cpu: 2,
        free: 50,
    },
    Size {
        frames: 14,
        spares: 64,
        queue_size: 2,
        cpu: 3,
        free: 0,
    },
    Size {
        frames: 63,
        spares: 63,
        queue_size: 16,
        cpu: 0,
        free: 49,
    },
    Size {
        frames: 65_535,
        spares: 63,
        queue_size: 4,
        cpu: 3,
        free: 65_521,
    },
    Size {
        frames: 65_536,
        spares: 64,
        queue_size: 128,
        cpu: 3,
        free: 65_522,
    },
];

#[test]
fn a_guest_of_any_size_lives(rt: HostRuntime) -> io::Result<()> {
    for size in &LIVES {
        let (script, replies) = (size.script(rt.alloc())?, size.replies(rt.alloc())?);
        let outcome = run(rt.alloc(), script.as_slice());
        assert!(rt;
            outcome.shows(replies.as_slice(), b"", SUCCESS),
            "at {}",
            size.queue_size
        );
    }
    Ok(())
}

/// Numbers of bytes that are read.
static LENGTHS: [usize; 5] = [1, 2, 255, 4095, 4096];

/// What comes before a read of page 16, and what is written before its bytes.
static AROUND: (&[u8], &str) = (
    b"\
host 64
spare immediate
plug 64 8 1
init 0
alloc 0 0 0
read 0 16 0 4097
",
    "guest 0\nready\npage 16\nout of ram\nbytes ",
);

/// A script that reads a number of bytes, and one more than a page.
fn reading(alloc: Global, length: usize) -> io::Result<Vec<u8>> {
    let mut text = Vec::new(alloc);
    text.write_all(AROUND.0)?;
    writeln!(text, "read 0 16 0 {length}")?;
    Ok(text)
}

#[test]
fn up_to_a_whole_page_is_read(rt: HostRuntime) -> io::Result<()> {
    for length in &LENGTHS {
        let script = reading(rt.alloc(), *length)?;
        let expected = repeated(rt.alloc(), AROUND.1, "00", *length, "\n")?;
        let outcome = run(rt.alloc(), script.as_slice());
        assert!(rt;
            outcome.shows(expected.as_slice(), b"", SUCCESS),
            "{length}"
        );
    }
    Ok(())
}
