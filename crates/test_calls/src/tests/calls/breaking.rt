//! A book whose store fails at a commit, and what is answered then.
ghost use Rattle.std.specs.Prelude.{◌≡◌, [], false};
ghost use Rattle.store.specs.Standing.{IsUsable};

use super::worked::{
    ADVICE, ANSWER, RECEIPT, acme, count, empty, faultless, is_accepted, is_stored, morning, ninety,
};
use std::alloc::Global;
use std::test::Fail;
use store::{
    Change, Command, Entry, Extent, Fault, Keeper, Key, Known, Moment, Need, OutRow, Page,
    ReplayBook, Reply, SheetKind, StockRow, Warehouse, Who, outbox, run, stock, submit,
};

// A 997 from the depositor that accepts the 944 under number 2, under control number 2.
const ACCEPTANCE: &[u8] =
    b"ISA*00*          *00*          *ZZ*ACME           *ZZ*WHSE1          *250304*0915*U*00401*000000002*0*P*>~GS*FA*ACME*WHSE1*20250304*0915*2*X*004010~ST*997*0001~AK1*RE*2~AK2*944*0001~AK5*A~AK9*A*1*1*1~SE*6*0001~GE*1*2~IEA*1*000000002~";

// A book in memory whose store refuses the commit after so many, before or after the entry got in.
#[derive(Drop)]
pub(super) struct BreakingBook {
    book: ReplayBook,
    commits_left: u32,
    gets_in: bool,
    refused: u64,
    shut: bool,
}

impl BreakingBook {
    pub(super) fn new(book: ReplayBook, commits_left: u32, gets_in: bool) -> BreakingBook {
        BreakingBook {
            book,
            commits_left,
            gets_in,
            refused: 0,
            shut: false,
        }
    }

    // The book as it is found when it is opened again.
    fn opened_again(self) -> ReplayBook {
        self.book
    }
}

impl Keeper for BreakingBook {
    ghost use Rattle.std.specs.Prelude.{◌≡◌};

    ghost standing = { λ b. record (⟦<ReplayBook as Keeper>⟧.standing b.book) {
      refusals = b.refused;
      shut = b.shut;
    } };

    fn warehouse(&self) -> Warehouse {
        self.book.warehouse()
    }

    fn load(&mut self, who: Who, need: &Need) -> Result<Option<Page>, Fault> {
        if self.shut {
            return Err(Fault::Reopen);
        }
        self.book.load(who, need)
    }

    fn known(&mut self, who: Who, key: &Key<'_>) -> Result<Option<Known>, Fault> {
        if self.shut {
            return Err(Fault::Reopen);
        }
        self.book.known(who, key)
    }

    fn commit(&mut self, entry: &Entry, changes: &[Change], outgoing: &[u8]) -> Result<(), Fault> {
        if self.shut {
            return Err(Fault::Reopen);
        }
        if self.commits_left > 0 {
            self.commits_left -= 1;
            return self.book.commit(entry, changes, outgoing);
        }
        if self.gets_in {
            self.book.commit(entry, changes, outgoing)?;
        }
        self.refused = self.refused.saturating_add(1);
        self.shut = true;
        Err(Fault::Store)
    }

    fn stock_rows(&mut self, who: Who) -> Result<Option<Vec<StockRow>>, Fault> {
        if self.shut {
            return Err(Fault::Reopen);
        }
        self.book.stock_rows(who)
    }

    fn outbox(&mut self, who: Who) -> Result<Option<Vec<OutRow>>, Fault> {
        if self.shut {
            return Err(Fault::Reopen);
        }
        self.book.outbox(who)
    }

    fn text(&mut self, who: Who, n: u32) -> Result<Option<Option<Vec<u8>>>, Fault> {
        if self.shut {
            return Err(Fault::Reopen);
        }
        self.book.text(who, n)
    }

    fn open(&mut self, who: Who) -> Result<Option<Page>, Fault> {
        if self.shut {
            return Err(Fault::Reopen);
        }
        self.book.open(who)
    }

    fn depositors(&mut self) -> Result<Vec<Who>, Fault> {
        if self.shut {
            return Err(Fault::Reopen);
        }
        self.book.depositors()
    }

    fn extent(&mut self) -> Result<Extent, Fault> {
        if self.shut {
            return Err(Fault::Reopen);
        }
        self.book.extent()
    }

    fn refused(&self) -> u64 {
        self.refused
    }

    fn must_reopen(&self) -> bool {
        self.shut
    }
}

// Whether a command or a query ended with this fault.
fn is_fault<T>(ended: &Result<T, Fault>, want: Fault) -> bool {
    match ended {
        Ok(_) => false,
        Err(fault) => *fault == want,
    }
}

// Whether a command and both queries say that the book has to be opened again.
fn is_shut<K: Keeper>(alloc: Global, book: &mut K, who: Who, moment: Moment) -> bool {
    let advice = Command::Interchange(ADVICE);
    book.must_reopen()
        && book.refused() == 1
        && is_fault(&submit(alloc, book, &advice, moment), Fault::Reopen)
        && is_fault(&stock(book, who), Fault::Reopen)
        && is_fault(&outbox(book, who), Fault::Reopen)
        && is_fault(&book.open(who), Fault::Reopen)
        && is_fault(&book.depositors(), Fault::Reopen)
}

// Whether the count failed, after the two commands that were answered.
fn is_broken_off(fault: Option<Fault>, replies: &[Reply]) -> bool {
    match replies {
        [_, answer] => fault == Some(Fault::Store) && is_accepted(answer, ANSWER),
        _ => false,
    }
}

// Enrols, announces and counts over a book whose store fails at the count's commit, and gives the
// count again when the book was opened again: the reply to that.
fn counted_again(alloc: Global, gets_in: bool) -> Result<Reply, Fail> {
    let (who, moment) = (acme()?, morning()?);
    let sheet = ninety(alloc, SheetKind::Count)?;
    let mut book = BreakingBook::new(empty(alloc)?, 2, gets_in);
    let commands = [
        (Command::Enrol(who), moment),
        (Command::Interchange(ADVICE), moment),
        (count(who, b"T1", &sheet), moment),
        (Command::Interchange(ACCEPTANCE), moment),
    ];
    let outcome = run(alloc, &mut book, &commands);
    if !is_broken_off(outcome.fault, &outcome.replies) {
        return Err("another outcome".into());
    }
    if !is_shut(alloc, &mut book, who, moment) {
        return Err("a book that goes on".into());
    }
    let mut book = book.opened_again();
    faultless(submit(alloc, &mut book, &commands[2].0, moment))
}

// A count that didn't get in is accepted when it is given again; of one that got in the text is
// found.
#[test]
fn a_count_whose_commit_fails_is_given_again(rt: HostRuntime) -> Result<(), Fail> {
    assert!(rt; is_accepted(&counted_again(rt.alloc(), false)?, RECEIPT));
    assert!(rt; is_stored(&counted_again(rt.alloc(), true)?, RECEIPT));
    Ok(())
}
