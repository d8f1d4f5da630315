//! What the program measures: a command, and the end that it comes to over a link.
ghost use Rattle.std.specs.Prelude.{◌<◌, ◌^◌, length};

use crate::frames::{HOST, answers_in};
use crate::service_links::ServiceLink;
use afs_words::{Tool, Words, read_words};
use db_image::{DraftService, VecImage};
use disk_base::MemSink;
use io_base::{Link, MemLink};
use pt_database::PtService;
use pts_tool::run_pts;
use std::alloc::Global;
use thiserror::Error;
use ubik_types::NoMemory;
use vl_database::VlService;
use vos_tool::run_vos;

/// What `--help` tells.
pub const HELP: &str = "\
tool_bench runs a command that a script of bench/ times, over a link in memory.
Its words are one of

  frames vos WORDS   the command vos with these words, over the frames that
                     come back, which are on standard input, one behind the
                     other
  frames pts WORDS   the same of pts
  image vos WORDS    the command vos, whose calls the location database answers
                     over the image on standard input
  image pts WORDS    the same of pts and the protection database
  --help             tells this

What the command tells is dropped, but for its length; the status is that of the
command, or 5 where the input is none or memory ran out, or 7 where the words
have no meaning. Without words the program reads nothing: it lists one volume
and one user of frames, and then what empty databases have.
";

/// What answers the calls of a command.
#[derive(Clone, Copy)]
pub enum Peer {
    /// Frames that are known before.
    Frames,
    /// The database, over an image.
    Image,
}

/// What is measured: the command vos or pts, and what answers its calls.
#[derive(Clone, Copy)]
pub struct Measure {
    pub peer: Peer,
    pub tool: Tool,
}

/// How a command ended, and how many bytes it told.
#[derive(Clone, Copy)]
pub struct Ended {
    pub status: u8,
    pub told: usize,
}

/// Why a command was not run.
#[derive(Clone, Copy, Debug, Drop, Error)]
pub enum Fault {
    #[error("the words have no meaning; --help tells those that have")]
    Words,
    #[error("standard input failed, or is neither frames nor an image")]
    Input,
    #[error("memory ran out")]
    NoMemory,
    #[error("standard output failed")]
    Output,
}

impl From<NoMemory> for Fault {
    fn from(_: NoMemory) -> Self {
        Fault::NoMemory
    }
}

impl Fault {
    /// The exit status.
    pub fn status(self) -> u8 {
        match self {
            Fault::Words => 7,
            Fault::Input | Fault::NoMemory | Fault::Output => 5,
        }
    }
}

impl Peer {
    /// What a word names.
    fn read(word: &str) -> Option<Peer> {
        match word {
            "frames" => Some(Peer::Frames),
            "image" => Some(Peer::Image),
            _ => None,
        }
    }
}

/// The command of this name.
fn tool_of(name: &str) -> Option<Tool> {
    match name {
        "vos" => Some(Tool::Vos),
        "pts" => Some(Tool::Pts),
        _ => None,
    }
}

impl Measure {
    /// What two words name.
    pub fn read(peer: &str, name: &str) -> Option<Measure> {
        Some(Measure {
            peer: Peer::read(peer)?,
            tool: tool_of(name)?,
        })
    }

    /// The name of the command.
    pub fn name(self) -> &'static str {
        match self.tool {
            Tool::Vos => "vos",
            Tool::Pts => "pts",
        }
    }

    /// Runs the command over a link.
    fn run_over<L: Link>(self, alloc: Global, words: &Words, link: &mut L) -> Result<Ended, Fault> {
        let mut out = MemSink::new(alloc, &[])?;
        let mut err = MemSink::new(alloc, &[])?;
        let end = match self.tool {
            Tool::Vos => run_vos(alloc, words, &[HOST], link, &mut out, &mut err),
            Tool::Pts => run_pts(alloc, words, &[HOST], link, &mut out, &mut err),
        };
        Ok(Ended {
            status: end.status,
            told: out.written().len(),
        })
    }

    /// Runs the command over these frames.
    fn run_over_frames(self, alloc: Global, words: &Words, given: &[u8]) -> Result<Ended, Fault> {
        let answers = answers_in(alloc, given)?.ok_or(Fault::Input)?;
        let mut link = MemLink::new(answers);
        self.run_over(alloc, words, &mut link)
    }

    /// Runs the command over a database with this image.
    fn run_over_image<S: DraftService>(
        self,
        alloc: Global,
        words: &Words,
        given: &[u8],
    ) -> Result<Ended, Fault>
        requires { length given.now < 2 ^ 32 }
    {
        let image = VecImage::new(alloc, given)?;
        let mut link = ServiceLink::<S>::new(alloc, image);
        self.run_over(alloc, words, &mut link)
    }

    /// Runs the command with these words over these frames, or over this image.
    pub fn run(self, alloc: Global, words: &[String], given: &[u8]) -> Result<Ended, Fault>
        requires { length given.now < 2 ^ 32 }
    {
        let words = read_words(alloc, self.tool, words).map_err(|_| Fault::Words)?;
        match (self.peer, self.tool) {
            (Peer::Frames, _) => self.run_over_frames(alloc, &words, given),
            (Peer::Image, Tool::Vos) => self.run_over_image::<VlService>(alloc, &words, given),
            (Peer::Image, Tool::Pts) => self.run_over_image::<PtService>(alloc, &words, given),
        }
    }
}
