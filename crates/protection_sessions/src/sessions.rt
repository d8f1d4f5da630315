//! The lines of standard input.
use crate::damage::call_of;
use crate::images::Image;
use crate::spellings::{found_access, found_answer, found_call, found_name, found_words};
use crate::tokens::parted;
use session_rows::{Fault, Report, Rows, bytes_in, first_of};
use std::alloc::Global;

/// The image of the session.
#[derive(Drop)]
pub struct Sessions {
    alloc: Global,
    image: Image,
}

impl Sessions {
    pub fn new(alloc: Global) -> Result<Sessions, Fault> {
        let image = Image::new(alloc)?;
        Ok(Sessions { alloc, image })
    }

    /// What is found of a call, of its bytes or of its words, where something is expected.
    fn found(&mut self, mark: &str, rest: &str) -> Result<String, Fault> {
        let alloc = self.alloc;
        let (left, expected) = parted(rest)?;
        match mark {
            ">" => self.image.call(call_of(alloc, left)?.as_slice()),
            "$" => self.image.call(bytes_in(alloc, left)?.as_slice()),
            "!" => self.image.found_over(rest),
            "call" => found_call(alloc, left, expected),
            "bytes" => found_name(alloc, left),
            "words" => found_words(alloc, left),
            "access" => found_access(alloc, left),
            "answer" => found_answer(alloc, left),
            _ => Err(Fault::Form),
        }
    }
}

impl Rows for Sessions {
    fn end_session(&mut self, _report: &mut Report) -> Result<(), Fault> {
        self.image = Image::new(self.alloc)?;
        Ok(())
    }

    /// Takes bytes of the image, notes that it is kept, or takes a row: of the image, or what is expected of a call.
    fn take(&mut self, report: &mut Report, line: &str) -> Result<(), Fault> {
        let (mark, rest) = first_of(line);
        match mark {
            "at" => self.image.lay(rest),
            "keep" => self.image.keep(),
            "=" => report.row(rest, self.image.found(rest)?.as_str()),
            _ => {
                let (_, expected) = parted(rest)?;
                report.row(expected, self.found(mark, rest)?.as_str())
            }
        }
    }
}
