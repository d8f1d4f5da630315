//! What a server knows of the recovery of its cell.
ghost use Rattle.std.specs.Prelude.{◌≡◌, ◌<◌, ◌≤◌, ◌+◌, ◌==◌, IsTrue, Some, None, option_map, IfOk, OnOk, OnErr, length, map, is_some};
ghost use Rattle.ubik_types.specs.Quorum.{marked};
ghost use Rattle.cell_model.specs.Polls.{entry_at};
ghost use Rattle.cell_model.specs.Recovery.{text_with, is_whole};
ghost use Rattle.ubik_recovery.specs.Record.{no_recovery, poll_begun, answered_by, best_of, host_of, with_old, held_by, held_alone, in_phase, with_text, fetched_source, HasAnswer, adopted, given_out, restored};
ghost use Rattle.ubik_types.specs.declared.phases.Phase.TheVariants as phase;
ghost use Rattle.ubik_recovery.specs.Text.{received_bytes, source_of, text_of, is_next, text_before, text_in, with_piece, IsNext, IsWithin};

use crate::answers::{answered, best_version, first_with, only_answer, only_mark};
use crate::texts::{CollectedText, TextBefore, TextSource, piece_fits};
use std::alloc::Global;
use std::marker::Model;
use std::mem;
use ubik_types::{MAXSERVERS, Marks, NoMemory, Phase, Version};

/// What a server knows of the recovery of its cell: the phase that it holds, the poll with the versions that were answered,
/// the version before its relabelling, who has the present one, and the text that it receives of another server's image
/// (Kazar, "Ubik"; the number of a poll and the text are own). Servers are their places in the cell, polls are moments in
/// seconds. The announced version is not kept here: it is the one before a write in flight, and else the own one.
#[derive(Drop)]
pub struct Recovery {
    alloc: Global,
    servers: usize,
    phase: Phase,
    poll: u32,
    answers: [Option<Version>; MAXSERVERS],
    old_version: Version,
    holders: [bool; MAXSERVERS],
    text: Option<CollectedText>,
}

impl Model for Recovery {
    ghost use Rattle.ubik_recovery.specs.Record.{RecoveryRecord};

    ghost Value = { RecoveryRecord };

    ghost use Rattle.ubik_recovery.specs.View.{record_of, IsInOrder};

    ghost view = { record_of };

    ghost invariant = { IsInOrder };
}

impl Recovery {
    /// No phase, in a cell of any size: servers from the cell's length on never answer.
    pub fn none(alloc: Global) -> Recovery
        ensures { result ≡ no_recovery MAXSERVERS }
    {
        Recovery::in_cell(alloc, MAXSERVERS)
    }

    /// No phase, in a cell of so many servers.
    pub fn in_cell(alloc: Global, servers: usize) -> Recovery
        requires { servers ≤ MAXSERVERS }
        ensures { result ≡ no_recovery servers }
    {
        Recovery {
            alloc,
            servers,
            phase: Phase::None,
            poll: 0,
            answers: [None; MAXSERVERS],
            old_version: Version {
                epoch: 0,
                counter: 0,
            },
            holders: [false; MAXSERVERS],
            text: None,
        }
    }

    pub fn phase(&self) -> Phase
        ensures { result ≡ self.now.phase }
    {
        self.phase
    }

    /// The moment at which the last poll began; 0 before the first.
    pub fn poll(&self) -> u32
        ensures { result ≡ self.now.poll }
    {
        self.poll
    }

    /// A poll begins. Only this server has answered it, with its own version. Where a fetch ends so, its text is emptied.
    pub fn begin(&mut self, now: u32, me: usize, own: Version)
        requires { me < MAXSERVERS }
        ensures { self.new ≡ poll_begun self.old now me own }
    {
        self.set_phase(Phase::Poll, me);
        self.poll = now;
        self.answers = only_answer(me, own);
    }

    /// A server answers the poll; a later answer takes the place of an earlier one.
    pub fn answer(&mut self, from: usize, version: Version)
        requires { from < MAXSERVERS }
        ensures { self.new ≡ answered_by self.old from version }
    {
        self.answers[from] = Some(version);
    }

    /// The greatest answered version, and the lowest server that answered it. Where nobody answered, 0.0 and the number of
    /// servers.
    pub fn best(&self) -> (Version, usize)
        ensures version { result.0 ≡ best_of self.now }
        ensures host { result.1 ≡ host_of self.now }
        ensures server { HasAnswer self.now → result.1 < self.now.servers }
    {
        let answers = &self.answers[..self.servers];
        let best = best_version(answers);
        (best, first_with(answers, best))
    }

    /// The servers that answered the poll.
    pub fn answered(&self) -> Marks
        ensures { marked self.now.servers result.set ≡ map is_some self.now.answers }
    {
        let set = answered(&self.answers[..self.servers]);
        Marks { set }
    }

    /// The version that a server answered, if it has.
    pub fn answered_version(&self, from: usize) -> Option<Version>
        ensures { result ≡ entry_at self.now.answers from }
    {
        if from < self.servers {
            self.answers[from]
        } else {
            None
        }
    }

    /// Keeps the version before the relabelling.
    pub fn keep_old(&mut self, old: Version)
        ensures { self.new ≡ with_old self.old old }
    {
        self.old_version = old;
    }

    /// The version before the last relabelling; 0.0 before the first.
    pub fn old(&self) -> Version
        ensures { result ≡ self.now.old_version }
    {
        self.old_version
    }

    /// The servers that have the present version.
    pub fn holders(&self) -> Marks
        ensures { marked self.now.servers result.set ≡ self.now.holders }
    {
        Marks { set: self.holders }
    }

    /// A server has the present version.
    pub fn hold(&mut self, from: usize)
        requires { from < MAXSERVERS }
        ensures { self.new ≡ held_by self.old from }
    {
        self.holders[from] = true;
    }

    /// Only this server has the present version: it was just made here.
    pub fn hold_alone(&mut self, me: usize)
        requires { me < MAXSERVERS }
        ensures { self.new ≡ held_alone self.old me }
    {
        self.holders = only_mark(me);
    }

    /// Another phase. In `Send` this server is the only holder. The text is emptied where a fetch begins or ends. The lapse
    /// of a phase is the phase `None`.
    pub fn set_phase(&mut self, phase: Phase, me: usize)
        requires { me < MAXSERVERS }
        ensures { self.new ≡ in_phase self.old phase me }
    {
        if self.phase == Phase::Fetch || phase == Phase::Fetch {
            self.drop_text();
        }
        if phase == Phase::Send {
            self.hold_alone(me);
        }
        self.phase = phase;
    }

    /// The same without its text. It takes no memory.
    pub fn marks(&self) -> Recovery
        ensures { result ≡ with_text self.now None }
    {
        Recovery {
            alloc: self.alloc,
            servers: self.servers,
            phase: self.phase,
            poll: self.poll,
            answers: self.answers,
            old_version: self.old_version,
            holders: self.holders,
            text: None,
        }
    }

    /// Another recovery takes the place of this one, with the text of this one where no fetch begins or ends.
    pub fn adopt(&mut self, next: Recovery)
        ensures { self.new ≡ adopted next self.old }
    {
        let mut next = next;
        next.drop_text();
        if self.phase != Phase::Fetch && next.phase != Phase::Fetch {
            next.move_text(self);
        }
        *self = next;
    }

    /// Drops the phase, and gives out what was held, so that it can be restored: with the text, where a fetch ends so.
    pub fn lapse(&mut self) -> Recovery
        ensures after { self.new ≡ in_phase self.old phase.None 0 }
        ensures given { result ≡ given_out self.old }
    {
        let mut left = self.marks();
        left.phase = Phase::None;
        if self.phase != Phase::Fetch {
            left.move_text(self);
        }
        mem::replace(self, left)
    }

    /// What was given out comes back.
    pub fn restore(&mut self, given: Recovery)
        ensures { self.new ≡ restored given self.old }
    {
        let mut given = given;
        if given.phase != Phase::Fetch {
            given.move_text(self);
        }
        *self = given;
    }

    /// Takes the text of another recovery; none is left there.
    fn move_text(&mut self, from: &mut Recovery)
        ensures after { self.new ≡ with_text self.old from.old.text }
        ensures left { from.new ≡ with_text from.old None }
    {
        self.text = from.take_text();
    }

    /// Takes a text in that was given out.
    pub fn put_text(&mut self, text: CollectedText)
        ensures { self.new ≡ with_text self.old (Some (text_in text)) }
    {
        self.text = Some(text);
    }

    /// Forgets all: no phase is held, nobody answered, and no text is there.
    pub fn drop_all(&mut self)
        ensures { self.new ≡ no_recovery self.old.servers }
    {
        *self = Recovery::in_cell(self.alloc, self.servers);
    }

    /// Whether the rules take a piece of another server's image: it lies within an image, and begins a text, where it may,
    /// or goes on where the text of the same image ends.
    pub fn takes_piece(
        &self,
        may_begin: bool,
        source: &TextSource,
        offset: u32,
        bytes: &[u8],
    ) -> bool
        ensures rule { result ≡ is_some (text_with may_begin source.now.server source.now.version source.now.total offset bytes.now self.now.text) }
        ensures text { IsTrue result → text_with may_begin source.now.server source.now.version source.now.total offset bytes.now self.now.text
            ≡ Some (with_piece source.now offset bytes.now self.now.text) }
        ensures next { IsTrue result → IsNext offset self.now.text }
        ensures within { IsTrue result → IsWithin source.now offset bytes.now }
    {
        piece_fits(source.total, offset, bytes) && self.is_next(may_begin, source, offset)
    }

    /// Whether a piece begins a text, where it may, or goes on where the text of the same image ends.
    fn is_next(&self, may_begin: bool, source: &TextSource, offset: u32) -> bool
        ensures { result ≡ is_next may_begin source.now offset self.now.text }
    {
        if offset == 0 {
            return may_begin;
        }
        match &self.text {
            Some(own) => own.source.is_same(source) && own.text.len() == offset as usize,
            None => false,
        }
    }

    /// Takes a piece of the fetched image in: that of the best version, from its host. Else as `piece_of`.
    pub fn piece(&mut self, total: u32, offset: u32, bytes: &[u8]) -> Result<bool, NoMemory>
        requires next { IsNext offset self.old.text }
        requires within { offset + length bytes.now ≤ total }
        ensures ok { OnOk result (self.new ≡ with_text self.old (Some (with_piece (fetched_source self.old total) offset bytes.now self.old.text))) }
        ensures whole { IfOk result (λ whole. whole ≡ is_whole (with_piece (fetched_source self.old total) offset bytes.now self.old.text)) }
        ensures err { OnErr result (self.new ≡ self.old) }
    {
        let (version, server) = self.best();
        let source = TextSource {
            server,
            version,
            total,
        };
        self.piece_of(source, offset, bytes)
    }

    /// Takes a piece of another server's image in, and tells whether the text is whole. A piece at 0 begins the text anew.
    /// Where memory runs out all is as before.
    pub fn piece_of(
        &mut self,
        source: TextSource,
        offset: u32,
        bytes: &[u8],
    ) -> Result<bool, NoMemory>
        requires next { IsNext offset self.old.text }
        requires within { IsWithin source offset bytes.now }
        ensures ok { OnOk result (self.new ≡ with_text self.old (Some (with_piece source offset bytes.now self.old.text))) }
        ensures whole { IfOk result (λ whole. whole ≡ is_whole (with_piece source offset bytes.now self.old.text)) }
        ensures err { OnErr result (self.new ≡ self.old) }
    {
        let _ = self.put_piece(source, offset, bytes)?;
        Ok(self.received().len() == source.total as usize)
    }

    /// Takes a piece of another server's image in, and tells how the text was before. A piece at 0 begins the text anew. Where memory runs
    /// out all is as before.
    pub fn put_piece(
        &mut self,
        source: TextSource,
        offset: u32,
        bytes: &[u8],
    ) -> Result<TextBefore, NoMemory>
        requires next { IsNext offset self.old.text }
        ensures ok { OnOk result (self.new ≡ with_text self.old (Some (with_piece source offset bytes.now self.old.text))) }
        ensures before { IfOk result (λ before. text_before before (Some (with_piece source offset bytes.now self.old.text)) ≡ self.old.text) }
        ensures err { OnErr result (self.new ≡ self.old) }
    {
        if offset == 0 {
            let begun = CollectedText::begun(self.alloc, source, bytes)?;
            return Ok(TextBefore::Other(self.text.replace(begun)));
        }
        match &mut self.text {
            Some(own) => own.put(source, offset, bytes),
            None => unreachable!(),
        }
    }

    /// Takes a piece back that was put: the text is as before it.
    pub fn take_back(&mut self, before: TextBefore)
        ensures { self.new ≡ with_text self.old (text_before before self.old.text) }
    {
        match before {
            TextBefore::Other(text) => self.text = text,
            TextBefore::Shorter { source, len } => {
                if let Some(own) = &mut self.text {
                    own.shorten(source, len);
                }
            }
        }
    }

    /// The bytes of the text that have come.
    pub fn received(&self) -> &[u8]
        ensures { result.now ≡ received_bytes self.now.text }
    {
        match &self.text {
            Some(own) => own.text.as_slice(),
            None => &[],
        }
    }

    /// Which image the text is of; none where no text has begun.
    pub fn received_of(&self) -> Option<TextSource>
        ensures { option_map source_of self.now.text ≡ result }
    {
        self.text.as_ref().map(|own| own.source)
    }

    /// Gives the text out without copying it; none is left.
    pub fn take_text(&mut self) -> Option<CollectedText>
        ensures text { option_map text_in result ≡ self.old.text }
        ensures after { self.new ≡ with_text self.old None }
    {
        self.text.take()
    }

    /// Empties the text and gives its memory back, as where the own version changes.
    pub fn drop_text(&mut self)
        ensures { self.new ≡ with_text self.old None }
    {
        let _ = self.take_text();
    }
}
