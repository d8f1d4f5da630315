//! What a server takes over of another one's database: a version, or an image piece by piece. All memory is taken before the disk is changed.
ghost use Rattle.std.specs.Option.{option_map};
ghost use Rattle.std.specs.Prelude.{◌≡◌, ◌≤◌, ◌==◌, ◌&&◌, ◌↔◌, IsTrue, length, None, Some, IfOk, OnOk, OnErr};
ghost use Rattle.ubik_types.specs.declared.limits.TheConstants.{MAX_IMAGE};
ghost use Rattle.ubik_types.specs.Version.{version_eq, version_lt};
ghost use Rattle.ubik_recovery.specs.Record.{best_of, host_of, with_text};
ghost use Rattle.ubik_recovery.specs.Text.{IsNext, IsWithin, received_bytes, text_before, text_in, with_piece};
ghost use Rattle.server_state.specs.Receiving.{IsShortBefore};

use crate::state::State;
use ubik_recovery::{CollectedText, TextBefore, TextSource};
use ubik_types::{NoMemory, Phase, Version};

impl State {
    ghost use Rattle.server_state.specs.State.{server_of, server_with, Keeps};

    /// Whether a database of the old version may be the one of the new version.
    pub fn may_become(&self, old: Version, new: Version) -> bool
        ensures { result ≡ (version_eq self.now.version old && version_lt old new) }
    {
        self.version == old && old < new
    }

    /// Whether another server's image is fetched.
    pub fn is_fetching(&self) -> bool
        ensures { IsTrue result ↔ (self.now.recovery.phase ≡ Phase.Fetch) }
    {
        matches!(self.recovery.phase(), Phase::Fetch)
    }

    /// Whether no byte of another server's image has come.
    pub fn has_no_byte(&self) -> bool
        ensures { result ≡ (length (received_bytes self.now.recovery.text) == 0) }
    {
        self.recovery.received().is_empty()
    }

    /// Whether a piece of this image was asked for in this poll.
    pub fn is_asked(&self, poll: u32, source: &TextSource) -> bool
        ensures { result ≡ (source.now.server == host_of self.now.recovery && poll == self.now.recovery.poll && version_eq source.now.version (best_of self.now.recovery)) }
    {
        let (best, server) = self.recovery.best();
        source.server == server && poll == self.recovery.poll() && source.version == best
    }

    /// Takes a piece of another server's image into the text.
    pub fn keep_piece(
        &mut self,
        source: TextSource,
        offset: u32,
        bytes: &[u8],
    ) -> Result<(), NoMemory>
        requires next { IsNext offset self.old.recovery.text }
        requires within { IsWithin source offset bytes.now }
        requires fits { source.total ≤ MAX_IMAGE }
        ensures after { OnOk result (server_of self.new ≡ server_with self.old (with_text self.old.recovery (Some (with_piece source offset bytes.now self.old.recovery.text)))) }
        ensures kept { Keeps self.old self.new }
        ensures recovery { OnOk result (self.new.recovery ≡ with_text self.old.recovery (Some (with_piece source offset bytes.now self.old.recovery.text))) }
        ensures err { OnErr result (self.new ≡ self.old) }
    {
        let _ = self.recovery.piece_of(source, offset, bytes)?;
        Ok(())
    }

    /// The same, and tells how the text was before: the piece can be taken back.
    pub fn put_piece(
        &mut self,
        source: TextSource,
        offset: u32,
        bytes: &[u8],
    ) -> Result<TextBefore, NoMemory>
        requires next { IsNext offset self.old.recovery.text }
        requires within { IsWithin source offset bytes.now }
        requires fits { source.total ≤ MAX_IMAGE }
        ensures after { OnOk result (server_of self.new ≡ server_with self.old (with_text self.old.recovery (Some (with_piece source offset bytes.now self.old.recovery.text)))) }
        ensures kept { Keeps self.old self.new }
        ensures recovery { OnOk result (self.new.recovery ≡ with_text self.old.recovery (Some (with_piece source offset bytes.now self.old.recovery.text))) }
        ensures before { IfOk result (λ before. text_before before (Some (with_piece source offset bytes.now self.old.recovery.text)) ≡ self.old.recovery.text) }
        ensures fits { IfOk result IsShortBefore }
        ensures err { OnErr result (self.new ≡ self.old) }
    {
        self.recovery.put_piece(source, offset, bytes)
    }

    /// Takes a piece back: the text is as before it.
    pub fn take_back(&mut self, before: TextBefore)
        requires fits { IsShortBefore before }
        ensures after { server_of self.new ≡ server_with self.old (with_text self.old.recovery (text_before before self.old.recovery.text)) }
        ensures kept { Keeps self.old self.new }
    {
        self.recovery.take_back(before);
    }

    /// Gives the text out, without copying it.
    pub fn take_text(&mut self) -> Option<CollectedText>
        ensures text { option_map text_in result ≡ self.old.recovery.text }
        ensures after { server_of self.new ≡ server_with self.old (with_text self.old.recovery None) }
        ensures recovery { self.new.recovery ≡ with_text self.old.recovery None }
        ensures kept { Keeps self.old self.new }
    {
        self.recovery.take_text()
    }

    /// Takes a text in again that was given out.
    pub fn put_text(&mut self, text: CollectedText)
        requires fits { length text.text ≤ MAX_IMAGE }
        ensures after { server_of self.new ≡ server_with self.old (with_text self.old.recovery (Some (text_in text))) }
        ensures kept { Keeps self.old self.new }
    {
        self.recovery.put_text(text);
    }
}
