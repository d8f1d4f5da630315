//! The lines of standard input.
use crate::answers::end_words;
use crate::images::{MAX_IMAGE, Seen, place_and_bytes};
use crate::spellings::{call_in, found_access, found_answer, found_call, found_name, found_words};
use db_image::{Draft, DraftService, ImageRead, VecImage};
use session_rows::{Fault, Report, Rows, bytes_in, number_in};
use std::alloc::Global;
use vl_database::VlService;

/// The image of the session, the moment of its calls, and what rows told of the image.
#[derive(Drop)]
pub struct Sessions {
    alloc: Global,
    draft: Draft<VecImage>,
    now: u32,
    seen: Option<Seen>,
}

impl Sessions {
    pub fn new(alloc: Global) -> Result<Sessions, Fault> {
        Ok(Sessions {
            alloc,
            draft: VlService::draft(alloc, VecImage::new(alloc, &[])?),
            now: 0,
            seen: None,
        })
    }

    /// Lays bytes into the image by hand.
    fn lay(&mut self, text: &str) -> Result<(), Fault> {
        let (place, bytes) = place_and_bytes(text)?;
        let bytes = bytes_in(self.alloc, bytes)?;
        if place > MAX_IMAGE || bytes.as_slice().len() > MAX_IMAGE as usize {
            return Err(Fault::Form);
        }
        self.seen = None;
        match self.draft.put(place, bytes.as_slice()) {
            Ok(()) => Ok(()),
            Err(_) => Err(Fault::NoMemory),
        }
    }

    /// What is found of the image where a row tells of it.
    fn found_image(&mut self, row: &str) -> Result<String, Fault> {
        let mut seen = match self.seen.take() {
            Some(seen) => seen,
            None => Seen::of(self.alloc, &mut self.draft)?,
        };
        let found = seen.found(row)?;
        self.seen = Some(seen);
        Ok(found)
    }

    /// What is found of a call, or of its spelling, where something is expected.
    fn found(&mut self, mark: &str, left: &str, expected: &str) -> Result<String, Fault> {
        let alloc = self.alloc;
        match mark {
            ">" => self.call(call_in(alloc, left)?.as_slice()),
            "$" => self.call(&bytes_in(alloc, left)?),
            "call" => found_call(alloc, left, expected),
            "bytes" => found_name(alloc, left),
            "words" => found_words(alloc, left),
            "access" => found_access(alloc, left),
            "answer" => found_answer(alloc, left),
            _ => Err(Fault::Form),
        }
    }

    /// Makes a call, and tells how it ended.
    fn call(&mut self, call: &[u8]) -> Result<String, Fault> {
        if self.draft.len() > MAX_IMAGE {
            return Err(Fault::Form);
        }
        self.seen = None;
        let end = VlService::call(self.alloc, &mut self.draft, self.now, call);
        end_words(self.alloc, call, &end)
    }
}

impl Rows for Sessions {
    fn end_session(&mut self, _report: &mut Report) -> Result<(), Fault> {
        *self = Sessions::new(self.alloc)?;
        Ok(())
    }

    /// Takes the moment of the calls, bytes of the image, or a row.
    fn take(&mut self, report: &mut Report, line: &str) -> Result<(), Fault> {
        let (mark, rest) = line.split_once(' ').ok_or(Fault::Form)?;
        match mark {
            "second" => {
                self.now = number_in(rest)?;
                Ok(())
            }
            "at" => self.lay(rest),
            "=" => report.row(rest, self.found_image(rest)?.as_str()),
            _ => {
                let (left, expected) = rest.split_once(" -> ").ok_or(Fault::Form)?;
                report.row(expected, self.found(mark, left, expected)?.as_str())
            }
        }
    }
}
