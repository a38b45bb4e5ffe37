//! A checkpoint that is kept apart.

ghost use Rattle.std.specs.Prelude.{◌≡◌, ◌+◌, ◌/◌, ◌<◌, ◌≤◌, ◌++◌, ◌∷◌, [], true, length, IfOk, OnOk, IsSome, None};
ghost use Rattle.colo_wire.specs.Spelling.{kind_of};
ghost use Rattle.colo_wire.specs.declared.kinds.Kind.TheVariants as kind;
ghost use Rattle.colo_wire.specs.declared.messages.Message.TheVariants as message;
ghost use Rattle.frame_mirror.specs.Inboxes.{AreAccepted};
ghost use Rattle.kept_checkpoint.specs.Lines.{line_fits};
ghost use Rattle.kept_checkpoint.specs.Slots.{page_size, sector_size};
ghost use Rattle.kept_checkpoint.specs.Kept.{HasPageSize, begin_kept, close_lines, fits, keep, kept_lines, number_in};

use crate::lines::{LastLine, add_bytes, bytes_fit, has_flag, line_fits, line_in};
use crate::slots::{SECTOR_SIZE, Slots};
use colo_base::{Contents, NoMemory};
use colo_wire::{Message, OPENED};
use frame_mirror::{INBOX_ROOM, Inbox, Waiting, hold, is_accepted};
use inet_frame::Tuple;
use seq_rewriter::Numbers;
use std::alloc::Global;
use std::marker::Model;
use tcp_track::Tracker;

/// What was heard of a checkpoint from its state on.
#[derive(Drop)]
pub struct KeptCheckpoint {
    pub(crate) state: Contents,
    pub(crate) pages: Slots,
    pub(crate) sectors: Slots,
    inbox: Inbox,
    lines: Tracker,
    numbers: Numbers,
    last: Option<LastLine>,
    alloc: Global,
}

impl Model for KeptCheckpoint {
    ghost use Rattle.kept_checkpoint.specs.Inside.{IsKeptInside, kept_inside};
    ghost use Rattle.kept_checkpoint.specs.Kept.{Kept};

    ghost Value = { Kept };

    ghost view = { kept_inside };

    ghost invariant = { IsKeptInside };
}

/// What a whole checkpoint gives beside the guest's state.
#[derive(Drop)]
pub struct Tables {
    /// The frames that wait.
    pub inbox: Inbox,
    /// The lines, of which the current openings are those of the commit.
    pub lines: Tracker,
    /// The numbers.
    pub numbers: Numbers,
}

/// Puts the last line into the others.
fn close_line(lines: &mut Tracker, last: &mut Option<LastLine>) -> Result<(), NoMemory>
    ensures lines { OnOk result (lines.new ≡ close_lines lines.old last.old) }
    ensures last { OnOk result (last.new ≡ None) }
{
    match last.take() {
        None => Ok(()),
        Some(last) => {
            let LastLine { tuple, line } = last;
            lines.put(&tuple, line)
        }
    }
}

impl KeptCheckpoint {
    /// The state's bytes alone, for a guest with so many pages and sectors.
    pub fn new(
        alloc: Global,
        state: Contents,
        pages: u32,
        sectors: u32,
    ) -> Result<KeptCheckpoint, NoMemory>
        ensures { IfOk result (λ kept. kept ≡ begin_kept state pages sectors) }
    {
        Ok(KeptCheckpoint {
            state,
            pages: Slots::new(alloc, pages)?,
            sectors: Slots::new(alloc, sectors)?,
            inbox: Inbox::new(alloc)?,
            lines: Tracker::new(alloc),
            numbers: Numbers::new(alloc),
            last: None,
            alloc,
        })
    }

    /// Says whether a message adds something that could be loaded: a page or sectors that the guest
    /// has; an accepted frame for which there is room; a line that stays below the bound of
    /// offsets; and bytes that directly follow an opened line or other bytes of it. It takes no
    /// memory.
    pub fn fits(&self, message: &Message) -> bool
        ensures { result ≡ fits self.now message.now }
    {
        match message {
            Message::Page { k, .. } => (*k as usize) < self.pages.len(),
            Message::Disk { first, bytes } => {
                *first as usize + bytes.as_slice().len() / SECTOR_SIZE <= self.sectors.len()
            }
            Message::Held { frame, .. } => {
                is_accepted(frame.as_slice()) && self.inbox.len() < INBOX_ROOM
            }
            Message::Line { .. } => line_fits(message),
            Message::Bytes { bytes } => bytes_fit(&self.last, bytes.as_slice()),
            Message::Frame { .. } | Message::Number { .. } | Message::Begin { .. } => false,
            Message::State { .. } | Message::Write { .. } | Message::End { .. } => false,
            Message::Known { .. } | Message::Sent { .. } | Message::Ack { .. } => false,
        }
    }

    /// Keeps what a message adds. After `NoMemory` nothing is said of what is kept.
    ///
    /// It must fit, and a page have its size.
    pub fn keep(&mut self, message: &Message) -> Result<(), NoMemory>
        requires fits { fits self.old message.now ≡ true }
        requires size { HasPageSize message.now }
        ensures { OnOk result (self.new ≡ keep self.old message.now) }
    {
        match message {
            Message::Page { k, bytes } => self.keep_page(*k, bytes.as_slice()),
            Message::Disk { first, bytes } => self.keep_sectors(*first, bytes.as_slice()),
            Message::Held { .. } => self.keep_frame(message),
            Message::Line { .. } => self.keep_line(message),
            Message::Bytes { bytes } => add_bytes(&mut self.last, bytes.as_slice()),
            Message::Frame { .. } | Message::Number { .. } | Message::Begin { .. } => Ok(()),
            Message::State { .. } | Message::Write { .. } | Message::End { .. } => Ok(()),
            Message::Known { .. } | Message::Sent { .. } | Message::Ack { .. } => Ok(()),
        }
    }

    /// Keeps a page.
    #[tactic(auto, using(crate::proofs::SlotLemmas::put_sized))]
    fn keep_page(&mut self, k: u32, bytes: &[u8]) -> Result<(), NoMemory>
        requires place { k < length self.old.pages }
        requires size { length bytes.now ≡ page_size }
        ensures { OnOk result (self.new ≡ keep self.old (message.Page k bytes.now)) }
    {
        close_line(&mut self.lines, &mut self.last)?;
        self.pages.put(self.alloc, k as usize, bytes)
    }

    /// Keeps sectors.
    fn keep_sectors(&mut self, first: u32, bytes: &[u8]) -> Result<(), NoMemory>
        requires { first + length bytes.now / sector_size ≤ length self.old.sectors }
        ensures { OnOk result (self.new ≡ keep self.old (message.Disk first bytes.now)) }
    {
        close_line(&mut self.lines, &mut self.last)?;
        let count = bytes.len() / SECTOR_SIZE;
        self.sectors.put_sectors(self.alloc, first, bytes, count)
    }

    /// Keeps a frame that waits; nothing of other messages.
    fn keep_frame(&mut self, message: &Message) -> Result<(), NoMemory>
        requires kind { kind_of message.now ≡ kind.Held }
        requires fits { fits self.old message.now ≡ true }
        ensures { OnOk result (self.new ≡ keep self.old message.now) }
    {
        let Message::Held {
            index,
            seen,
            trim,
            frame,
        } = message
        else {
            return Ok(());
        };
        close_line(&mut self.lines, &mut self.last)?;
        let frame = frame.as_slice().to_vec(self.alloc)?;
        hold(
            &mut self.inbox,
            Waiting {
                index: *index,
                seen: *seen,
                trim: *trim,
                frame: Contents::from_vec(frame),
            },
        );
        Ok(())
    }

    /// Keeps a line, of which bytes may follow.
    fn keep_line(&mut self, message: &Message) -> Result<(), NoMemory>
        requires kind { kind_of message.now ≡ kind.Line }
        requires fits { line_fits message.now ≡ true }
        ensures { OnOk result (self.new ≡ keep self.old message.now) }
    {
        let Message::Line {
            tuple,
            flags,
            client,
            number,
            ..
        } = message
        else {
            return Ok(());
        };
        close_line(&mut self.lines, &mut self.last)?;
        keep_number(&mut self.numbers, tuple, *flags, *client, *number)?;
        self.last = Some(LastLine {
            tuple: *tuple,
            line: line_in(self.alloc, message),
        });
        Ok(())
    }

    /// What the checkpoint gives beside the guest's state.
    pub fn close(self) -> Result<Tables, NoMemory>
        ensures inbox { IfOk result (λ tables. tables.inbox ≡ self.inbox) }
        ensures lines { IfOk result (λ tables. tables.lines ≡ kept_lines self) }
        ensures numbers { IfOk result (λ tables. tables.numbers ≡ self.numbers) }
        ensures accepted { IfOk result (λ tables. AreAccepted tables.inbox) }
    {
        let KeptCheckpoint {
            inbox,
            mut lines,
            numbers,
            mut last,
            ..
        } = self;
        close_line(&mut lines, &mut last)?;
        lines.commit();
        Ok(Tables {
            inbox,
            lines,
            numbers,
        })
    }
}

/// Keeps the number of a line, where it is opened.
fn keep_number(
    numbers: &mut Numbers,
    tuple: &Tuple,
    flags: u8,
    client: u32,
    number: u32,
) -> Result<(), NoMemory>
    ensures { OnOk result (numbers.new
        ≡ number_in numbers.old tuple.now flags client number) }
{
    if has_flag(OPENED, flags) {
        let kept = numbers.opened(tuple, client, number)?;
        let _ = kept;
    }
    Ok(())
}
