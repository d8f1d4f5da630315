//! How the steps of a server are counted over its workers.
ghost use Rattle.std.specs.Prelude.{◌≡◌, ◌+◌, ◌<◌};

use std::marker::Brand;
use std::sync::ledger::{Blank, Book, Ledger, Share};

/// A station that was opened, named by the call that makes it.
pub trait Opening: Ledger {
    ghost use Rattle.std.specs.Prelude.{ℕ};

    /// Into how many parts its ledger is cut.
    ghost all: { ℕ };
}

impl Opening for Brand {
    ghost all = { 7 };
}

/// A worker's part of a ledger. It counts the steps that were made from this seat.
#[derive(Drop)]
pub struct Seat<L: Opening> {
    pub share: Share<L>,
    ghost one: { share.parts ≡ 1 },
}

/// The book of a ledger, with the part of it that is not lent to workers. Where nothing is lent, that part has counted all.
#[derive(Drop)]
pub struct Shares<L: Opening> {
    total: Book<L>,
    own: Share<L>,
    lent: u32,
    ghost parts: { own.parts + lent ≡ L.all },
    ghost few: { lent < L.all },
    ghost back: { lent ≡ 0 → own.amount ≡ total.total },
}

impl<L: Opening> Shares<L> {
    /// Opens a blank of as many parts as the opening says.
    pub fn open(blank: Blank) -> Shares<L>
        requires name { blank.name ≡ L.name }
        requires parts { (blank.parts ≡ L.parts) × (L.all ≡ L.parts) × (0 < L.all) }
        ensures total { result.total.total ≡ 0 }
        ensures lent { result.lent ≡ 0 }
    {
        let (total, own) = blank.open::<L>();
        Shares {
            total,
            own,
            lent: 0,
        }
    }

    /// Lends a part, which has counted nothing. Six of the seven can be out.
    pub fn lend(&mut self) -> Seat<L>
        requires { (self.old.lent < 6) × (L.all ≡ 7) }
        ensures lent { self.new.lent ≡ self.old.lent + 1 }
        ensures amount { result.share.amount ≡ 0 }
        ensures total { self.new.total.total ≡ self.old.total.total }
    {
        let Shares { own, lent, .. } = self;
        let share = own.split_off(1, 0);
        *lent += 1;
        Seat { share }
    }

    /// Takes a part back, with what it has counted.
    pub fn take_back(&mut self, seat: Seat<L>)
        requires { L.all ≡ L.parts }
        ensures lent { self.new.lent + 1 ≡ self.old.lent }
        ensures total { self.new.total.total ≡ self.old.total.total }
    {
        let Shares { own, lent, total } = self;
        let Seat { share } = seat;
        own.merge(share);
        total.audit(own);
        *lent -= 1;
    }

    /// Counts a step, made from a seat.
    pub fn count(&mut self, seat: &mut Seat<L>)
        requires { L.all ≡ L.parts }
        ensures total { self.new.total.total ≡ self.old.total.total + 1 }
        ensures amount { seat.new.share.amount ≡ seat.old.share.amount + 1 }
        ensures lent { self.new.lent ≡ self.old.lent }
    {
        let Shares { own, total, .. } = self;
        // It moves nothing, and shows that the seat is out.
        own.give(&mut seat.share, 0, 0);
        total.add(&mut seat.share, 1);
    }

    /// How many parts are out.
    pub fn lent(&self) -> u32
        ensures { result ≡ self.now.lent }
    {
        self.lent
    }
}
