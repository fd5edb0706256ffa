ghost use Rattle.std.specs.Prelude.{◌<◌, ◌≡◌, ◌++◌, ◌∷◌, [], Bool, true, false, IfOk, OnOk, OnErr, IfErr, IsErrOf, option_map};
ghost use Rattle.definitions.specs.Register as register;
ghost use Rattle.definitions.specs.Decision as decided;
ghost use Rattle.definitions.specs.Rows.{stock_of, outbox_of};
ghost use Rattle.rules.specs.Asked.{mark_of};
ghost use Rattle.rules.specs.Decided.{IsAtRest, IsRecalled};
ghost use Rattle.store.specs.Extent as meant;
ghost use Rattle.store.specs.Extent.{extent_of};
ghost use Rattle.store.specs.Held.{IsHeld};
ghost use Rattle.store.specs.Known.{first_under};
ghost use Rattle.store.specs.Open.{open_of, open_on, enrolled};
ghost use Rattle.store.specs.Sent.{text_of};
ghost use Rattle.store.specs.Standing.{Standing, IsUsable, IsNext, IsUnchanged, GoesOn, LeavesEither, IsFault, IsCommitFault, IsQuery, OfAnyKept, OfKept, OfUsable};

use crate::rows::{OutRow, StockRow};
use definitions::Fault;
use rules::{Change, Entry, Key, Known, Moment, Need, Page, Warehouse, Who};

/// How far a register goes.
#[derive(Clone, Copy)]
pub struct Extent {
    /// How many entries it has.
    pub entries: u64,
    /// The moment of the last one; None where there is none.
    pub last: Option<Moment>,
}

/// A book of a warehouse: the register of what was accepted, and what it comes to. What a book
/// keeps, and what a crash may leave of it, is told by the ghost member `standing`.
pub trait Keeper {
    /// How the book stands: the registers that it stands for, those that a crash may leave, how far
    /// the disk is in doubt, how many calls the store refused, and whether the book has to be
    /// opened again.
    ghost standing: { Self → Standing };

    /// The warehouse that keeps the book.
    fn warehouse(&self) -> Warehouse
        ensures { result ≡ (standing self.now).warehouse };

    /// The part that is needed of a depositor's page, or more of it, with no event since its last
    /// entry; None for a stranger.
    fn load(&mut self, who: Who, need: &Need) -> Result<Option<Page>, Fault>
        ensures page { OfKept (standing self.old) (standing self.new)
            (λ L. IfOk result (λ page. IsHeld need.now page
            (decided.standing (register.own L who)))) }
        ensures rest { IfOk result IsAtRest }
        ensures query { IsQuery (standing self.old) (standing self.new) result };

    /// A depositor's entry under a key, with its number and the text that went out for it; None
    /// where there is none.
    fn known(&mut self, who: Who, key: &Key<'_>) -> Result<Option<Known>, Fault>
        ensures entry { OfKept (standing self.old) (standing self.new)
            (λ L. IfOk result (λ known. IsRecalled known
            (decided.recalled (standing self.old).warehouse
            (mark_of key.now) (register.own L who)))) }
        ensures recorded { OfAnyKept (standing self.old) (standing self.new)
            (λ L. IfOk result (λ known. option_map (λ k. k.entry) known
            ≡ first_under who (mark_of key.now) L)) }
        ensures query { IsQuery (standing self.old) (standing self.new) result };

    /// Appends an entry, with the rows that it changes and the text that goes out for it, in one
    /// transaction.
    fn commit(&mut self, entry: &Entry, changes: &[Change], outgoing: &[u8]) -> Result<(), Fault>
        ensures ok { OfUsable (standing self.old) (standing self.new)
            (λ L. (e : register.Entry)
            → IsNext (standing self.old).warehouse L e entry.now changes.now outgoing.now
            → OnOk result (IsUsable (standing self.new) (L ++ e ∷ []))) }
        ensures keeps { OfAnyKept (standing self.old) (standing self.new)
            (λ L. (e : register.Entry)
            → IsNext (standing self.old).warehouse L e entry.now changes.now outgoing.now
            → OnOk result ((standing self.new).keeps (L ++ e ∷ []))) }
        ensures left { OfUsable (standing self.old) (standing self.new)
            (λ L. (e : register.Entry)
            → IsNext (standing self.old).warehouse L e entry.now changes.now outgoing.now
            → OnErr result (LeavesEither (standing self.new) L (L ++ e ∷ []))) }
        ensures opened { OnOk result ((standing self.new).shut ≡ false) }
        ensures fault { IfErr result
            (λ fault. IsFault fault (standing self.old) (standing self.new)) }
        ensures kinds { IfErr result IsCommitFault }
        ensures store { IsErrOf result Fault.Store → (standing self.new).shut ≡ true }
        ensures broken { OnErr result ((standing self.old).refusals < (standing self.new).refusals
            → (standing self.new).shut ≡ true) }
        ensures shut { (standing self.old).shut ≡ true → IsErrOf result Fault.Reopen
            × IsUnchanged (standing self.old) (standing self.new) }
        ensures goes { GoesOn (standing self.old) (standing self.new) };

    /// The stock rows of a depositor, by item and lot; None for a stranger.
    fn stock_rows(&mut self, who: Who) -> Result<Option<Vec<StockRow>>, Fault>
        ensures rows { OfKept (standing self.old) (standing self.new)
            (λ L. IfOk result (λ rows. option_map (λ v. v.items) rows ≡ stock_of L who)) }
        ensures query { IsQuery (standing self.old) (standing self.new) result };

    /// The texts that went out to a depositor, by number; None for a stranger.
    fn outbox(&mut self, who: Who) -> Result<Option<Vec<OutRow>>, Fault>
        ensures rows { OfKept (standing self.old) (standing self.new)
            (λ L. IfOk result (λ rows. option_map (λ v. v.items) rows ≡ outbox_of
            (standing self.old).warehouse L who)) }
        ensures query { IsQuery (standing self.old) (standing self.new) result };

    /// The text that went out to a depositor under a number; None for a stranger, and Some(None)
    /// where nothing went out under it.
    fn text(&mut self, who: Who, n: u32) -> Result<Option<Option<Vec<u8>>>, Fault>
        ensures text { OfKept (standing self.old) (standing self.new)
            (λ L. IfOk result (λ text. option_map (option_map (λ v. v.items)) text ≡ text_of
            (standing self.old).warehouse L who n)) }
        ensures query { IsQuery (standing self.old) (standing self.new) result };

    /// A part of a depositor's page that has what is open: each advice that isn't counted and each
    /// order that isn't picked, and perhaps more; None for a stranger.
    fn open(&mut self, who: Who) -> Result<Option<Page>, Fault>
        ensures work { OfKept (standing self.old) (standing self.new)
            (λ L. IfOk result (λ page. option_map open_on page ≡ open_of L who)) }
        ensures query { IsQuery (standing self.old) (standing self.new) result };

    /// The depositors, in the order in which they were enrolled.
    fn depositors(&mut self) -> Result<Vec<Who>, Fault>
        ensures whole { OfKept (standing self.old) (standing self.new)
            (λ L. IfOk result (λ whos. whos.items ≡ enrolled L)) }
        ensures query { IsQuery (standing self.old) (standing self.new) result };

    /// How far the register goes.
    fn extent(&mut self) -> Result<Extent, Fault>
        ensures extent { OfAnyKept (standing self.old) (standing self.new)
            (λ L. IfOk result (λ extent. meant.extent extent ≡ extent_of L)) }
        ensures query { IsQuery (standing self.old) (standing self.new) result };

    /// How many calls the store refused.
    fn refused(&self) -> u64
        ensures { result ≡ (standing self.now).refusals };

    /// Whether the book has to be opened again.
    fn must_reopen(&self) -> bool
        ensures { result ≡ (standing self.now).shut };
}
