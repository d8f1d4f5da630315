//! What a call answers.
use crate::bytes::Names;
use disk_base::DiskEnd;
use session_rows::{Fault, told_bytes};
use std::alloc::Global;
use ubik_types::Version;

/// What a call answers: words, and perhaps bytes behind them.
#[derive(Drop)]
pub struct Answer {
    text: String,
    bytes: Option<Vec<u8>>,
}

impl Answer {
    /// An answer in these words.
    pub fn of(text: String) -> Answer {
        Answer { text, bytes: None }
    }

    /// An answer in these words.
    pub fn text(alloc: Global, text: &str) -> Result<Answer, Fault> {
        Ok(Answer::of(String::from_str(alloc, text)?))
    }

    /// Bytes alone.
    pub fn bytes(alloc: Global, bytes: Vec<u8>) -> Answer {
        Answer {
            text: String::new(alloc),
            bytes: Some(bytes),
        }
    }

    /// How a call of a disk ended.
    pub fn ended(alloc: Global, end: DiskEnd) -> Result<Answer, Fault> {
        match end {
            DiskEnd::Done => Answer::text(alloc, "done"),
            DiskEnd::Failed => Answer::text(alloc, "failed"),
        }
    }

    /// A version, and the length of its image.
    pub fn state(alloc: Global, version: Version, len: u32) -> Result<Answer, Fault> {
        let Version { epoch, counter } = version;
        Ok(Answer::of(format!(in alloc; "{epoch}.{counter} {len}")?))
    }

    /// A file of a length with a head that is no label.
    pub fn bad_label(alloc: Global, len: u64, head: &[u8]) -> Result<Answer, Fault> {
        Ok(Answer {
            text: format!(in alloc; "bad label {len} ")?,
            bytes: Some(head.to_vec(alloc)?),
        })
    }

    /// Whether it is the one that is expected: the same words, with bytes that the last word writes.
    pub fn is(&self, names: &Names, expected: &str) -> bool {
        let text = self.text.as_str();
        match (&self.bytes, expected.strip_prefix(text)) {
            (None, _) => text == expected,
            (Some(bytes), Some(word)) => match names.bytes_of(word) {
                Ok(wanted) => wanted.as_slice() == bytes.as_slice(),
                Err(_) => false,
            },
            (Some(_), None) => false,
        }
    }

    /// How it is told.
    pub fn told(&self, alloc: Global) -> Result<String, Fault> {
        let mut told = self.text.clone()?;
        if let Some(bytes) = &self.bytes {
            told.push_str(told_bytes(alloc, bytes)?.as_str())?;
        }
        Ok(told)
    }
}
