//! An image with room in front for a label, so that the file of both is made without copying it.
ghost use Rattle.std.specs.Prelude.{◌≡◌, ◌≤◌, ◌++◌, ℕ, List, length, take, drop, IfOk, OnOk, OnErr};
ghost use Rattle.page_file.specs.declared.label.TheConstants.{LABEL_LEN};
ghost use Rattle.page_file.specs.Label.{label};

use crate::reads::put_label;
use page_file::LABEL_LEN;
use std::alloc::Global;
use std::marker::Model;
use ubik_types::{Bytes, NoMemory, Version};

/// The bytes of an image, or the first ones of it, behind room for a label. Contracts see these bytes alone: what stands in the room
/// means nothing.
#[derive(Drop)]
pub struct RoomyText {
    file: Vec<u8>,
}

impl Model for RoomyText {
    ghost Value = { List ℕ };

    ghost view = { λ text. drop LABEL_LEN text.file.items };

    ghost invariant = { λ text. LABEL_LEN ≤ length text.file.items };
}

impl RoomyText {
    /// A text that begins with these bytes. The memory for `len` bytes and the room is taken now, so a text that grows to no more is not
    /// copied.
    pub fn begun(alloc: Global, len: u32, bytes: &[u8]) -> Result<RoomyText, NoMemory>
        ensures { IfOk result (λ text. text ≡ bytes.now) }
    {
        let mut file = Vec::with_capacity(alloc, LABEL_LEN + len as usize)?;
        file.extend_from_slice(&[0; LABEL_LEN])?;
        file.extend_from_slice(bytes)?;
        Ok(RoomyText { file })
    }

    /// How many bytes stand behind the room.
    pub fn len(&self) -> usize
        ensures { result ≡ length self.now }
    {
        self.file.len() - LABEL_LEN
    }

    /// The bytes behind the room.
    pub fn as_slice(&self) -> &[u8]
        ensures { result.now ≡ self.now }
    {
        let (_, bytes) = self.file.split_at(LABEL_LEN);
        bytes
    }

    /// Adds bytes at the end. For want of memory the text stays.
    pub fn push(&mut self, bytes: &[u8]) -> Result<(), NoMemory>
        ensures ok { OnOk result (self.new ≡ self.old ++ bytes.now) }
        ensures err { OnErr result (self.new ≡ self.old) }
    {
        self.file.extend_from_slice(bytes)?;
        Ok(())
    }

    /// Keeps the first `len` bytes; a shorter text stays.
    pub fn truncate(&mut self, len: u32)
        ensures { self.new ≡ take len self.old }
    {
        self.file.truncate(LABEL_LEN + len as usize);
    }

    /// The label of a version and the text behind it, in the memory of the text.
    pub fn labelled(self, version: Version) -> Bytes
        ensures { result ≡ label version ++ self }
    {
        let mut file = self.file;
        put_label(&mut file, version);
        Bytes::new(file)
    }

    /// The text of what stands behind a label, in the memory of both.
    pub fn behind_label(file: Bytes) -> RoomyText
        requires { LABEL_LEN ≤ length file }
        ensures { result ≡ drop LABEL_LEN file }
    {
        RoomyText {
            file: file.into_vec(),
        }
    }
}
