//! The text that a server receives of another one's image, piece by piece.
ghost use Rattle.std.specs.Prelude.{◌≡◌, ◌+◌, ◌≤◌, ◌&&◌, ◌==◌, ◌++◌, ℕ, List, Some, length, take, IfOk, OnOk, OnErr};
ghost use Rattle.cell_model.specs.Recovery.{piece_fits};
ghost use Rattle.ubik_types.specs.declared.limits.TheConstants.{MAX_IMAGE};
ghost use Rattle.ubik_types.specs.Version.{version_eq};

use incoming_file::RoomyText;
use std::alloc::Global;
use ubik_types::{MAX_IMAGE, NoMemory, Version};

/// Which image a text is of: the server that sends it, by its place in the cell, the version, and the length of the
/// whole in bytes.
#[derive(Clone, Copy, Debug)]
pub struct TextSource {
    pub server: usize,
    pub version: Version,
    pub total: u32,
}

impl TextSource {
    ghost use Rattle.ubik_recovery.specs.Text.{is_same_source};

    /// Whether two texts are of one image.
    pub fn is_same(&self, other: &TextSource) -> bool
        ensures { result ≡ is_same_source self.now other.now }
    {
        self.server == other.server && self.version == other.version && self.total == other.total
    }
}

/// Whether a piece lies within its image, and the image is not too long.
pub fn piece_fits(total: u32, offset: u32, bytes: &[u8]) -> bool
    ensures { result ≡ piece_fits total offset bytes.now }
{
    let total = total as usize;
    let offset = offset as usize;
    total <= MAX_IMAGE && bytes.len() <= total && offset <= total - bytes.len()
}

/// What has come of another server's image, behind room for a label: whole it is installed without being copied.
#[derive(Drop)]
pub struct CollectedText {
    pub source: TextSource,
    pub text: RoomyText,
}

impl CollectedText {
    ghost use Rattle.ubik_recovery.specs.Text.{text_before, text_in, text_of};

    /// A text that begins with these bytes. The memory of the whole is taken now, as far as an image may be long, so no later piece copies
    /// the text.
    pub(crate) fn begun(
        alloc: Global,
        source: TextSource,
        bytes: &[u8],
    ) -> Result<CollectedText, NoMemory>
        ensures { IfOk result (λ begun. text_in begun ≡ text_of source bytes.now) }
    {
        let len = source.total.min(MAX_IMAGE as u32);
        let text = RoomyText::begun(alloc, len, bytes)?;
        Ok(CollectedText { source, text })
    }

    /// Adds the piece of an image that stands at the end of the text, and tells how the text was. For want of memory it stays.
    pub(crate) fn put(
        &mut self,
        source: TextSource,
        offset: u32,
        bytes: &[u8],
    ) -> Result<TextBefore, NoMemory>
        requires next { length self.old.text ≡ offset }
        ensures ok { OnOk result (text_in self.new ≡ text_of source (self.old.text ++ bytes.now)) }
        ensures before { IfOk result (λ before. text_before before (Some (text_of source (self.old.text ++ bytes.now))) ≡ Some (text_in self.old)) }
        ensures err { OnErr result (text_in self.new ≡ text_in self.old) }
    {
        self.text.push(bytes)?;
        let before = TextBefore::Shorter {
            source: self.source,
            len: offset,
        };
        self.source = source;
        Ok(before)
    }

    /// Keeps so many bytes, as those of an image.
    pub(crate) fn shorten(&mut self, source: TextSource, len: u32)
        ensures { text_in self.new ≡ text_of source (take len self.old.text) }
    {
        self.text.truncate(len);
        self.source = source;
    }
}

/// How a text was before a piece was taken into it.
#[derive(Drop)]
pub enum TextBefore {
    /// The piece began a text, and this one was there, if any.
    Other(Option<CollectedText>),
    /// The piece went on with the text, which had so many bytes of this image.
    Shorter { source: TextSource, len: u32 },
}
