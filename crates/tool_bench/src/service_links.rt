//! A link in memory behind which a database answers, over an image.
ghost use Rattle.std.specs.Prelude.{◌≡◌, ◌≢◌, ◌+◌, ◌++◌, ◌∷◌, ◌≤◌, [], IfOk, OnErr, length};
ghost use Rattle.db_image.specs.Ends.{IsShort};
ghost use Rattle.io_base.specs.Link.{made, faults_in, faults_of};
ghost use Rattle.tool_bench.specs.ServiceLink.{exchanges_of};
ghost use Rattle.ubik_calls.specs.WireGrammar.{spelling};
ghost use Rattle.ubik_calls.specs.declared.frames.Frame.TheVariants as frames;
ghost use Rattle.ubik_calls.specs.declared.replies.Reply.TheVariants as replies;

use db_image::{CallEnd, Draft, DraftService, ImageRead, VecImage};
use io_base::{Answer, Exchange, Link};
use std::alloc::Global;
use std::marker::PhantomData;
use ubik_calls::{Frame, Reply, decode, encode};
use ubik_types::{Bytes, Host, MAX_IMAGE, NoMemory, bytes_of};

/// The moment of each call.
const MOMENT: u32 = 1076;

/// A link whose hosts all have one database. Each frame that asks a call is answered by what the database does; to another one no answer
/// comes.
#[derive(Drop)]
pub struct ServiceLink<S: DraftService> {
    alloc: Global,
    draft: Draft<VecImage>,
    exchanges: Vec<Exchange>,
    service: PhantomData<S>,
}

/// The frame that tells an answer.
fn answer_frame(alloc: Global, number: u32, answer: Bytes) -> Result<Bytes, NoMemory>
    requires { length answer ≤ 1048576 }
    ensures { IfOk result (λ bytes. bytes ≡ spelling (frames.Reply number (replies.Ok answer))) }
{
    let reply = Reply::Ok(answer);
    encode(alloc, &Frame::Reply { number, reply })
}

/// The frame that tells by which rule a call was refused.
fn rule_frame(alloc: Global, number: u32, rule: u32) -> Result<Bytes, NoMemory>
    ensures { IfOk result (λ bytes. bytes ≡ spelling (frames.Reply number (replies.Rule rule))) }
{
    let reply = Reply::Rule(rule);
    encode(alloc, &Frame::Reply { number, reply })
}

/// The frame of the reply to a call; none where the database neither did it nor refused it by a rule.
fn reply_to(alloc: Global, number: u32, end: CallEnd) -> Result<Option<Bytes>, NoMemory>
    requires { IsShort end }
{
    match end {
        CallEnd::Done(answer) => Ok(Some(answer_frame(alloc, number, answer)?)),
        CallEnd::Rule(rule) => Ok(Some(rule_frame(alloc, number, rule)?)),
        _ => Ok(None),
    }
}

/// How an ask ends to which this reply comes, and its bytes.
fn answered(alloc: Global, reply: Option<Bytes>) -> (Answer, Bytes)
    ensures sent { result.0 ≢ Answer.NoMemory }
    ensures emptied { result.0 ≢ Answer.Got → result.1 ≡ [] }
{
    match reply {
        Some(reply) => (Answer::Got, reply),
        None => (Answer::NoAnswer, Bytes::new(Vec::new(alloc))),
    }
}

impl<S: DraftService> ServiceLink<S> {
    /// A link to this database over an image, over which nothing was asked.
    pub fn new(alloc: Global, image: VecImage) -> ServiceLink<S>
        ensures { exchanges_of result ≡ [] }
    {
        ServiceLink {
            alloc,
            draft: S::draft(alloc, image),
            exchanges: Vec::new(alloc),
            service: PhantomData,
        }
    }

    /// The reply to a frame; none where no answer comes.
    fn reply(&mut self, frame: &[u8]) -> Result<Option<Bytes>, NoMemory>
        ensures { exchanges_of self.new ≡ exchanges_of self.old }
    {
        let Ok(Frame::Ask { number, call }) = decode(self.alloc, frame) else {
            return Ok(None);
        };
        if self.draft.len() as usize > MAX_IMAGE {
            return Ok(None);
        }
        let end = S::call(self.alloc, &mut self.draft, MOMENT, call.as_slice());
        reply_to(self.alloc, number, end)
    }

    /// Stores an exchange, and lays its reply into the room for it.
    fn keep(&mut self, exchange: Exchange, reply: &mut Vec<u8>) -> Result<Answer, NoMemory>
        requires { reply.old.items ≡ [] }
        ensures kept { IfOk result (λ answer. exchanges_of self.new ≡ exchanges_of self.old ++ (exchange ∷ [])) }
        ensures same { OnErr result (exchanges_of self.new ≡ exchanges_of self.old) }
        ensures answer { IfOk result (λ answer. answer ≡ exchange.answer) }
        ensures reply { IfOk result (λ answer. reply.new.items ≡ exchange.reply) }
    {
        let answer = exchange.answer;
        reply.extend_from_slice(exchange.reply.as_slice())?;
        self.exchanges.push(exchange)?;
        Ok(answer)
    }

    /// Answers a frame, and stores the exchange.
    #[tactic(auto, using(io_base::proofs::Counting::stored))]
    fn exchange(
        &mut self,
        host: Host,
        port: u16,
        frame: &[u8],
        reply: &mut Vec<u8>,
    ) -> Result<Answer, NoMemory>
        requires { reply.old.items ≡ [] }
        ensures exchanged { IfOk result (λ answer. exchanges_of self.new
            ≡ exchanges_of self.old ++ made host port frame.now answer reply.new.items) }
        ensures emptied { IfOk result (λ answer. answer ≢ Answer.Got → reply.new.items ≡ []) }
        ensures same { OnErr result (exchanges_of self.new ≡ exchanges_of self.old) }
    {
        let told = self.reply(frame)?;
        let (answer, told) = answered(self.alloc, told);
        let exchange = Exchange {
            host,
            port,
            frame: bytes_of(self.alloc, frame)?,
            answer,
            reply: told,
        };
        self.keep(exchange, reply)
    }
}

impl<S: DraftService> Link for ServiceLink<S> {
    ghost exchanges = { exchanges_of };

    ghost faults = { λ link. faults_of (exchanges_of link) };

    #[tactic(auto, using(io_base::proofs::Counting::counted))]
    fn ask(&mut self, host: Host, port: u16, frame: &[u8], reply: &mut Vec<u8>) -> Answer {
        reply.clear();
        match self.exchange(host, port, frame, reply) {
            Ok(answer) => answer,
            Err(NoMemory) => {
                reply.clear();
                Answer::NoMemory
            }
        }
    }
}
