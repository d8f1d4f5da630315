//! A command of a session, and how it is replayed.
use crate::answers::answer_to;
use crate::differences::{Difference, byte_difference, text_difference};
use crate::frames::{ASK, DEBUG, frame_of};
use afs_client::client_top;
use afs_words::Tool;
use disk_base::MemSink;
use host_words::address;
use io_base::{Answer, Exchange, MemAnswer, MemLink};
use script_words::number_within;
use session_rows::{Fault, bytes_in, long_in};
use std::alloc::Global;
use ubik_types::{Bytes, Host, bytes_of};

/// The first host of each command.
const FIRST_HOST: &str = "10.0.0.1";

/// What a command asks servers for.
#[derive(Clone, Copy)]
enum Subject {
    /// Calls of the tool's database.
    Calls(Tool),
    /// What servers say of themselves.
    States,
}

/// A call that a command is to make: where it goes, and its frame.
#[derive(Drop)]
struct Asked {
    host: Host,
    port: u16,
    frame: Bytes,
}

/// A command: the words of the program behind its hosts, the word of its hosts, the number of its last call, where its calls go, what is
/// answered, what it is to write, and which of its writes fail.
#[derive(Drop)]
pub struct Command {
    subject: Subject,
    words: Vec<String>,
    hosts: Option<String>,
    number: u32,
    asked: Vec<Asked>,
    answers: Vec<MemAnswer>,
    out: String,
    errors: String,
    out_fails: Vec<u64>,
    error_fails: Vec<u64>,
    frames: Option<Difference>,
}

impl Command {
    /// The command of these words, of which the first is its name; behind `afs_client` stand all words of the program.
    pub fn of(alloc: Global, line: &str) -> Result<Command, Fault> {
        let (name, rest) = match line.split_once(' ') {
            Some((name, rest)) => (name, Some(rest)),
            None => (line, None),
        };
        let mut words = Vec::new(alloc);
        let mut hosts = None;
        if name != "afs_client" {
            words.push(String::from_str(alloc, name)?)?;
            hosts = Some(String::from_str(alloc, FIRST_HOST)?);
        }
        if let Some(rest) = rest {
            for word in rest.split(' ') {
                words.push(String::from_str(alloc, meant(word))?)?;
            }
        }
        Ok(Command {
            subject: subject_of(name)?,
            words,
            hosts,
            number: 0,
            asked: Vec::new(alloc),
            answers: Vec::new(alloc),
            out: String::new(alloc),
            errors: String::new(alloc),
            out_fails: Vec::new(alloc),
            error_fails: Vec::new(alloc),
            frames: None,
        })
    }

    /// Takes a line below the command, without its mark.
    pub fn add(&mut self, alloc: Global, mark: &str, line: &str) -> Result<(), Fault> {
        match mark {
            "@" => self.add_host(line),
            "." => self.add_call(alloc, line),
            "," => self.add_ask(alloc, line),
            "f" => self.add_frames(alloc, line),
            "1" => add_line(&mut self.out, line),
            "2" => add_line(&mut self.errors, line),
            "x" => self.add_fails(line),
            _ => Err(Fault::Form),
        }
    }

    /// Takes a host that is asked behind those before it.
    fn add_host(&mut self, word: &str) -> Result<(), Fault> {
        let hosts = self.hosts.as_mut().ok_or(Fault::Form)?;
        hosts.push_str(",")?;
        hosts.push_str(word)?;
        Ok(())
    }

    /// Takes `HOST PORT CALL -> ANSWER` of the next call.
    fn add_call(&mut self, alloc: Global, line: &str) -> Result<(), Fault> {
        self.number = self.number.wrapping_add(1);
        self.add_ask(alloc, line)
    }

    /// Takes `HOST PORT CALL -> ANSWER` of the last call.
    fn add_ask(&mut self, alloc: Global, line: &str) -> Result<(), Fault> {
        let (asked, answer) = line.split_once(" -> ").ok_or(Fault::Form)?;
        let (host, rest) = asked.split_once(' ').ok_or(Fault::Form)?;
        let (port, call) = rest.split_once(' ').ok_or(Fault::Form)?;
        let (host, port) = (host_of(host)?, port_of(port)?);
        let frame = ask_frame(alloc, self.subject, self.number, call)?;
        let (answer, reply) = answer_to(alloc, self.number, call, answer)?;
        // What is not handed on for want of memory is no exchange.
        if answer != Answer::NoMemory {
            self.asked.push(Asked { host, port, frame })?;
        }
        self.answers.push(MemAnswer {
            host,
            answer,
            reply,
        })?;
        Ok(())
    }

    /// Takes the frames of the last call and of its answer, as bytes, and compares them with those that its words name.
    fn add_frames(&mut self, alloc: Global, line: &str) -> Result<(), Fault> {
        let (ask, reply) = line.split_once(" -> ").ok_or(Fault::Form)?;
        let (ask, reply) = (bytes_in(alloc, ask)?, bytes_in(alloc, reply)?);
        let asked = self.asked.last().ok_or(Fault::Form)?;
        let answer = self.answers.last().ok_or(Fault::Form)?;
        let differs = match byte_difference(alloc, ask.as_slice(), asked.frame.as_slice())? {
            Some(difference) => Some(difference),
            None => byte_difference(alloc, reply.as_slice(), answer.reply.as_slice())?,
        };
        if differs.is_some() {
            self.frames = differs;
        }
        Ok(())
    }

    /// Takes which writes fail, by their numbers: `out N ..`, or `errors N ..`.
    fn add_fails(&mut self, line: &str) -> Result<(), Fault> {
        match line.split_once(' ') {
            Some(("out", numbers)) => push_numbers(&mut self.out_fails, numbers),
            Some(("errors", numbers)) => push_numbers(&mut self.error_fails, numbers),
            _ => Err(Fault::Form),
        }
    }

    /// Runs the command over a link that gives its answers: what differs from what it is to ask and to write.
    pub fn replay(self, alloc: Global, status: &str) -> Result<Option<Difference>, Fault> {
        let Command {
            mut words,
            hosts,
            asked,
            answers,
            out,
            errors,
            out_fails,
            error_fails,
            frames,
            ..
        } = self;
        if frames.is_some() {
            return Ok(frames);
        }
        if let Some(hosts) = hosts {
            words.insert(0, hosts)?;
        }
        let mut link = MemLink::new(answers);
        let mut told = MemSink::new(alloc, &out_fails)?;
        let mut refused = MemSink::new(alloc, &error_fails)?;
        let ended = client_top(alloc, &words, &mut link, &mut told, &mut refused);
        let ended = format!(in alloc; "status {ended}\n")?;
        let status = format!(in alloc; "status {status}\n")?;
        for (expected, found) in [
            (out.as_bytes(), told.written()),
            (errors.as_bytes(), refused.written()),
            (status.as_bytes(), ended.as_bytes()),
        ] {
            let differs = text_difference(alloc, expected, found)?;
            if differs.is_some() {
                return Ok(differs);
            }
        }
        call_difference(alloc, asked.as_slice(), link.exchanges())
    }
}

/// The word that a word of a line stands for: two quote marks are the empty word.
fn meant(word: &str) -> &str {
    match word {
        "\"\"" => "",
        _ => word,
    }
}

fn push_numbers(list: &mut Vec<u64>, numbers: &str) -> Result<(), Fault> {
    for number in numbers.split(' ') {
        list.push(long_in(number)?)?;
    }
    Ok(())
}

fn add_line(text: &mut String, line: &str) -> Result<(), Fault> {
    text.push_str(line)?;
    text.push_str("\n")?;
    Ok(())
}

/// What the lines below a command of this name ask for.
fn subject_of(name: &str) -> Result<Subject, Fault> {
    match name {
        "vos" | "afs_client" => Ok(Subject::Calls(Tool::Vos)),
        "pts" => Ok(Subject::Calls(Tool::Pts)),
        "udebug" => Ok(Subject::States),
        _ => Err(Fault::Form),
    }
}

fn host_of(word: &str) -> Result<Host, Fault> {
    Ok(Host(address(word.as_bytes()).ok_or(Fault::Form)?))
}

fn port_of(word: &str) -> Result<u16, Fault> {
    let port = number_within(word.as_bytes(), 0, 65_535).ok_or(Fault::Form)?;
    u16::try_from(port).map_err(|_| Fault::Form)
}

/// The frame of a call, which these words name. A question about a server is the one word `debug`.
fn ask_frame(alloc: Global, subject: Subject, number: u32, call: &str) -> Result<Bytes, Fault> {
    match subject {
        Subject::Calls(tool) => call_frame(alloc, tool, number, call),
        Subject::States if call == "debug" => frame_of(alloc, DEBUG, number, &[]),
        Subject::States => Err(Fault::Form),
    }
}

fn call_frame(alloc: Global, tool: Tool, number: u32, call: &str) -> Result<Bytes, Fault> {
    let mut words = Vec::new(alloc);
    for word in call.split(' ') {
        words.push(bytes_of(alloc, word.as_bytes())?)?;
    }
    let named = match tool {
        Tool::Vos => vl_calls::call_words(alloc, words.as_slice())?,
        Tool::Pts => pt_calls::call_words(alloc, words.as_slice())?,
    };
    let call = named.ok_or(Fault::Form)?;
    frame_of(alloc, ASK, number, call.as_slice())
}

/// The first call that is another one than was to be made, or how many were made.
fn call_difference(
    alloc: Global,
    asked: &[Asked],
    made: &[Exchange],
) -> Result<Option<Difference>, Fault> {
    for (asked, made) in asked.iter().zip(made) {
        if asked.host != made.host || asked.port != made.port {
            let expected = format!(in alloc; "host {} port {}", asked.host.0, asked.port)?;
            let found = format!(in alloc; "host {} port {}", made.host.0, made.port)?;
            return Ok(Some(Difference { expected, found }));
        }
        let differs = byte_difference(alloc, asked.frame.as_slice(), made.frame.as_slice())?;
        if differs.is_some() {
            return Ok(differs);
        }
    }
    if asked.len() == made.len() {
        return Ok(None);
    }
    let expected = format!(in alloc; "{} calls", asked.len())?;
    let found = format!(in alloc; "{} calls", made.len())?;
    Ok(Some(Difference { expected, found }))
}
