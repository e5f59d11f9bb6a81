//! What a guest's process says, and what its lender notes of that from one message to the next.

ghost use Rattle.std.specs.Prelude.{◌≡◌};
ghost use Rattle.vb_host.specs.Messages.{ask_number, comes_without, given, has_started_small};
ghost use Rattle.vb_host.specs.Messages.{hold_number, is_small, is_strict, starts_without, comes};
ghost use Rattle.vb_host.specs.Messages.{waits_for_reset, waits_for_room};

/// What a guest's process asks its lender for.
#[repr(u8)]
#[derive(Clone, Copy, Debug, Default, PartialEq, Eq)]
pub enum Ask {
    #[default]
    Nothing,
    /// Room for memory that its guest comes with, or that is added.
    Room,
    /// The pages in its balloon, as its guest boots again.
    Reset,
    /// The pages of a deflate.
    Deflate,
}

impl Ask {
    /// Its number in a message.
    pub(crate) fn number(self) -> u32
        ensures { result ≡ ask_number self }
    {
        match self {
            Ask::Nothing => 0,
            Ask::Room => 1,
            Ask::Reset => 2,
            Ask::Deflate => 3,
        }
    }
}

/// What a guest's process holds back until it is granted.
#[repr(u8)]
#[derive(Clone, Copy, Debug, Default, PartialEq, Eq)]
pub enum Hold {
    /// Nothing: its guest isn't strict.
    #[default]
    Free,
    /// Deflates and resets.
    Strict,
    /// These, and its guest may start without some of its pages.
    MayStartSmall,
    /// These, and its guest has started so: its driver hasn't put those pages into the balloon yet.
    HasStartedSmall,
}

impl Hold {
    /// Its number in a message.
    pub(crate) fn number(self) -> u32
        ensures { result ≡ hold_number self }
    {
        match self {
            Hold::Free => 0,
            Hold::Strict => 1,
            Hold::MayStartSmall => 2,
            Hold::HasStartedSmall => 3,
        }
    }
}

/// What a guest's process says at a moment, and the terms on which its guest starts. Any numbers
/// may come.
#[repr(C)]
#[derive(Clone, Copy, Debug, Default, PartialEq, Eq)]
pub struct Message {
    /// The pages of its memory that have room.
    pub pages: u32,
    /// The pages that it is to have room for; read where it waits for room.
    pub wanted: u32,
    /// The pages in its balloon, without those that couldn't be discarded.
    pub ballooned: u32,
    /// The last target that it has received, in pages.
    pub target: u32,
    /// 1 more than the target that its driver has read last; 0 where its reads aren't seen.
    pub read: u32,
    /// The pages of the deflate that it holds back; 0 where it holds none.
    pub held: u32,
    /// Its own number of that deflate.
    pub deflate: u32,
    /// What it waits for before it answers its client: the number of an `Ask`.
    pub waits: u32,
    /// Its own number of that wait.
    pub wait: u32,
    /// What it holds back: the number of a `Hold`.
    pub holds: u32,
    /// The pages that have frames outside of its memory slots.
    pub outside: u32,
    /// The pages that its memory's files hold, also outside of slots.
    pub files: u32,
    /// The pages that its guest is to start with, and those that it may ever have, by its terms:
    /// 2^32 - 1 for all.
    pub start: u32,
    pub most: u32,
    /// Whether its kernel limits what it holds; 0 where nothing does.
    pub limited: u32,
}

/// What a lender notes of a guest's process from one message to the next.
#[repr(C)]
#[derive(Clone, Copy, Debug, Default, PartialEq, Eq)]
pub struct Exchange {
    /// What the process has asked for last: the number of an `Ask`, and its own number of that.
    pub ask: u32,
    pub asked: u32,
    /// How many asks there were: the number of the last one.
    pub asks: u64,
    /// The number of the last target that was sent, that of the first order to report after it, and
    /// that of the last order to report that was obeyed.
    pub sent: u64,
    pub sent_by: u64,
    pub obeyed: u64,
    /// Since when that target is known to be received, in milliseconds; 0 where it isn't.
    pub received: u64,
}

impl Message {
    /// Whether it waits for room.
    pub(crate) fn waits_for_room(&self) -> bool
        ensures { result ≡ waits_for_room self.now }
    {
        self.waits == Ask::Room.number()
    }

    /// Whether it waits in a reset.
    pub(crate) fn waits_for_reset(&self) -> bool
        ensures { result ≡ waits_for_reset self.now }
    {
        self.waits == Ask::Reset.number()
    }

    /// Whether its deflates and resets wait.
    pub(crate) fn is_strict(&self) -> bool
        ensures { result ≡ is_strict self.now }
    {
        self.holds > Hold::Free.number()
    }

    /// Whether its guest has started without some of its pages, which aren't in the balloon yet.
    pub(crate) fn has_started_small(&self) -> bool
        ensures { result ≡ has_started_small self.now }
    {
        self.holds == Hold::HasStartedSmall.number()
    }

    /// Whether its guest may start without some of its pages.
    fn is_small(&self) -> bool
        ensures { result ≡ is_small self.now }
    {
        self.limited > 0 && self.holds >= Hold::MayStartSmall.number()
    }

    /// Of this many pages those that its guest starts without.
    pub(crate) fn starts_without(&self, pages: u32) -> u32
        ensures { result ≡ starts_without self.now pages }
    {
        if self.is_small() {
            pages.saturating_sub(self.start.min(self.most))
        } else {
            0
        }
    }

    /// Whether it waits with the memory that its guest comes with.
    pub(crate) fn comes(&self) -> bool
        ensures { result ≡ comes self.now }
    {
        self.waits_for_room() && self.pages == 0
    }

    /// Of this many pages of a strict guest that comes those that it gave on the host which it
    /// left.
    fn given(&self, pages: u32) -> u32
        ensures { result ≡ given self.now pages }
    {
        if self.comes() && self.is_strict() {
            self.ballooned.min(pages.saturating_sub(1))
        } else {
            0
        }
    }

    /// Of this many pages of a guest that comes those that it comes without.
    pub(crate) fn comes_without(&self, pages: u32) -> u32
        ensures { result ≡ comes_without self.now pages }
    {
        let given = self.given(pages);
        if given > 0 {
            given
        } else {
            self.starts_without(pages)
        }
    }
}
