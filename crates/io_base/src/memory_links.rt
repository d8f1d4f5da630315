//! A link whose answers are given.
ghost use Rattle.std.specs.Prelude.{◌≡◌, ◌≢◌, ◌+◌, ◌<◌, ◌++◌, ◌⊎◌, [], IfOk, OnErr, IfSome, length};
ghost use Rattle.io_base.specs.Link.{made, faults_in, faults_of};
ghost use Rattle.io_base.specs.MemLink.{items_of, exchanges_of, answer_of, reply_of, item_at, place_for, Takes, Lacks};

use crate::{Answer, Exchange, Link};
use std::alloc::Global;
use ubik_types::{Bytes, Host, NoMemory, bytes_of};

/// What a host is to answer to one ask. The reply tells only where the answer is `Answer::Got`.
#[derive(Drop)]
pub struct MemAnswer {
    pub host: Host,
    pub answer: Answer,
    pub reply: Bytes,
}

/// A link whose hosts answer from a list. Each ask takes the first item that is left for its host, and sends
/// nothing where none is. For want of memory the list is as before.
#[derive(Drop)]
pub struct MemLink {
    items: Vec<MemAnswer>,
    exchanges: Vec<Exchange>,
}

impl MemLink {
    /// A link with these answers, over which nothing was asked.
    pub fn new(items: Vec<MemAnswer>) -> MemLink
        ensures items { items_of result ≡ items.items }
        ensures exchanges { exchanges_of result ≡ [] }
    {
        let exchanges = Vec::new(*items.allocator());
        MemLink { items, exchanges }
    }

    /// What was exchanged so far, in its order.
    pub fn exchanges(&self) -> &[Exchange]
        ensures { result.now ≡ exchanges_of self.now }
    {
        self.exchanges.as_slice()
    }

    /// The answers that were not taken yet.
    pub fn left(&self) -> &[MemAnswer]
        ensures { result.now ≡ items_of self.now }
    {
        self.items.as_slice()
    }

    /// Takes the item for the host, and stores the exchange. What may fail comes before any change of the link.
    #[tactic(auto, using(crate::proofs::Counting::stored))]
    fn take(
        &mut self,
        host: Host,
        port: u16,
        frame: &[u8],
        reply: &mut Vec<u8>,
    ) -> Result<Answer, NoMemory>
        requires { reply.old.items ≡ [] }
        ensures taken { IfOk result (λ answer.
            Takes host (items_of self.old) (items_of self.new) answer reply.new.items) }
        ensures exchanged { IfOk result (λ answer. exchanges_of self.new
            ≡ exchanges_of self.old ++ made host port frame.now answer reply.new.items) }
        ensures left { OnErr result (items_of self.new ≡ items_of self.old) }
        ensures unchanged { OnErr result (exchanges_of self.new ≡ exchanges_of self.old) }
    {
        let place = place_of(&self.items, host);
        let (answer, told) = answer_at(&self.items, place);
        if answer != Answer::NoMemory {
            let alloc = *self.exchanges.allocator();
            let frame = bytes_of(alloc, frame)?;
            reply.extend_from_slice(told)?;
            let reply = bytes_of(alloc, told)?;
            self.exchanges.push(Exchange {
                host,
                port,
                frame,
                answer,
                reply,
            })?;
        }
        if let Some(place) = place {
            self.items.remove(place);
        }
        Ok(answer)
    }
}

impl Link for MemLink {
    ghost exchanges = { exchanges_of };

    ghost faults = { λ link. faults_of (exchanges_of link) };

    #[tactic(auto, using(crate::proofs::Counting::counted))]
    fn ask(&mut self, host: Host, port: u16, frame: &[u8], reply: &mut Vec<u8>) -> Answer
        ensures exchanged { exchanges_of self.new
            ≡ exchanges_of self.old ++ made host port frame.now result reply.new.items }
        ensures emptied { result ≢ Answer.Got → reply.new.items ≡ [] }
        ensures counted { faults_of (exchanges_of self.new)
            ≡ faults_of (exchanges_of self.old) + faults_in result }
        ensures settled { Takes host (items_of self.old) (items_of self.new) result reply.new.items
            ⊎ Lacks (items_of self.old) (items_of self.new) result }
    {
        reply.clear();
        match self.take(host, port, frame, reply) {
            Ok(answer) => answer,
            Err(NoMemory) => {
                reply.clear();
                Answer::NoMemory
            }
        }
    }
}

/// The place of the first item for a host.
fn place_of(items: &[MemAnswer], host: Host) -> Option<usize>
    ensures place { result ≡ place_for host items.now }
    ensures bound { IfSome result (λ i. i < length items.now) }
{
    items.iter().position(|item| item.host.0 == host.0)
}

/// What the item at a place answers, and the bytes of its reply; nothing is sent where there is no such item.
fn answer_at(items: &[MemAnswer], place: Option<usize>) -> (Answer, &[u8])
    requires { IfSome place (λ i. i < length items.now) }
    ensures answer { result.0 ≡ answer_of (item_at items.now place) }
    ensures reply { result.1.now ≡ reply_of (item_at items.now place) }
{
    match place {
        Some(i) => {
            let item = &items[i];
            match item.answer {
                Answer::Got => (Answer::Got, item.reply.as_slice()),
                answer => (answer, &[]),
            }
        }
        None => (Answer::NotSent, &[]),
    }
}
