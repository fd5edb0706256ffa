ghost use Rattle.std.specs.Prelude.{length, ◌≡◌, ◌<◌, ◌+◌, List, [], ◌∷◌, IfOk, MatchOption, is_some, None, Some, true};
ghost use Rattle.definitions.specs.Limits.{most_entries};
ghost use Rattle.definitions.specs.Events.{Event, Enrolment};
ghost use Rattle.definitions.specs.Movements.{OnHand, balance};
ghost use Rattle.page_rows.specs.Pages.{PageFacts, IsSound, advice_at, order_at, document_at, next_entry};
ghost use Rattle.stock.specs.Facts.{facts_of};
ghost use Rattle.stock.specs.Parts.{Named, IsPart};
ghost use Rattle.stock.specs.Puts.{put};
ghost use Rattle.stock.specs.Shows.{Shows};
ghost use Rattle.page_rows.specs.OfPairs.{of_pair, amount};

use crate::drafts::Draft;
use crate::facts::Facts;
use crate::searches::{find_advice, find_document, find_order};
use crate::steps::Step;
use page_rows::{Column, KnownAdvice, KnownDocument, KnownOrder, Row, amount_of};
use std::alloc::{AllocError, Global};
use std::marker::Model;

/// What a depositor's entries come to.
#[derive(Drop)]
pub struct Page {
    pub(crate) facts: Facts,
}

impl Model for Page {
    ghost Value = { PageFacts };

    ghost view = { λ p. facts_of p.facts };

    ghost invariant = { λ p. IsSound (facts_of p.facts) };
}

impl Page {
    /// The page of a depositor that has just enrolled.
    pub fn new(alloc: Global) -> Page
        ensures shows { Shows result (Enrolment ∷ []) }
        ensures entries { result.entries ≡ 0 }
        ensures recent { result.recent ≡ 0 }
    {
        let draft = Draft::new(alloc, 0);
        Page { facts: draft.facts }
    }

    /// The number of pairs on it, of an item and a lot each.
    pub fn pairs(&self) -> u64
        ensures { result ≡ length self.now.rows }
    {
        self.facts.rows.len() as u64
    }

    /// How many numbered entries there are, at most 999,999.
    pub fn entries(&self) -> u32
        ensures { result ≡ self.now.entries }
    {
        self.facts.entries
    }

    /// The number that the next entry has, at most 1,000,000.
    pub fn next_number(&self) -> u32
        ensures { result ≡ self.now.entries + 1 }
    {
        self.facts.entries + 1
    }

    /// Its rows, one for each pair that an advice or a count named, by item and then lot bytes. On
    /// every page nothing is below 0, and no more is reserved of a pair than is on hand.
    pub fn rows(&self) -> &[Row]
        ensures rows { result.now ≡ self.now.rows }
        ensures sound { IsSound self.now }
    {
        &self.facts.rows
    }

    /// Its advices, one for each shipment number, by the bytes of that.
    pub fn advices(&self) -> &[KnownAdvice]
        ensures { result.now ≡ self.now.advices }
    {
        &self.facts.advices
    }

    /// Its orders, one for each number, by the bytes of that.
    pub fn orders(&self) -> &[KnownOrder]
        ensures { result.now ≡ self.now.orders }
    {
        &self.facts.orders
    }

    /// The documents that were sent, one for each number of an entry, by that.
    pub fn documents(&self) -> &[KnownDocument]
        ensures { result.now ≡ self.now.documents }
    {
        &self.facts.documents
    }

    /// The advice under a shipment number, if there is one.
    pub fn advice(&self, shipment: &[u8]) -> Option<&KnownAdvice>
        ensures { MatchOption result (advice_at shipment.now self.now.advices ≡ None)
            (λ k. advice_at shipment.now self.now.advices ≡ Some k.now) }
    {
        match find_advice(&self.facts.advices, shipment) {
            Ok(i) => Some(&self.facts.advices[i]),
            Err(_) => None,
        }
    }

    // Whether there is an advice under a shipment number.
    pub(crate) fn has_advice(&self, shipment: &[u8]) -> bool
        ensures { result ≡ is_some (advice_at shipment.now self.now.advices) }
    {
        self.advice(shipment).is_some()
    }

    // Whether there is an order under a number.
    pub(crate) fn has_order(&self, number: &[u8]) -> bool
        ensures { result ≡ is_some (order_at number.now self.now.orders) }
    {
        self.order(number).is_some()
    }

    /// The order under a number, if there is one.
    pub fn order(&self, number: &[u8]) -> Option<&KnownOrder>
        ensures { MatchOption result (order_at number.now self.now.orders ≡ None)
            (λ k. order_at number.now self.now.orders ≡ Some k.now) }
    {
        match find_order(&self.facts.orders, number) {
            Ok(i) => Some(&self.facts.orders[i]),
            Err(_) => None,
        }
    }

    /// What is on hand of a pair, in the unit EA: 0 where there is no row of it.
    pub fn on_hand(&self, item: &[u8], lot: &[u8]) -> u64
        ensures amount { result ≡ of_pair (amount OnHand) item.now lot.now self.now.rows }
        ensures balance { (n : Named) (P : PageFacts) (es : List Event) → IsPart n self.now P
            → n.items item.now ≡ true → Shows P es → result ≡ balance es OnHand item.now lot.now }
    {
        let rows = self.rows();
        amount_of(rows, Column::OnHand, item, lot)
    }

    // The document with a number, if there is one.
    pub(crate) fn document(&self, n: u32) -> Option<&KnownDocument>
        ensures { MatchOption result (document_at n self.now.documents ≡ None)
            (λ d. document_at n self.now.documents ≡ Some d.now) }
    {
        match find_document(&self.facts.documents, n) {
            Ok(i) => Some(&self.facts.documents[i]),
            Err(_) => None,
        }
    }

    /// The page with one event more: what the step of this page changes is put in, each row by its
    /// key. Its time grows with the changes and, where a row is new, with what stands after its
    /// place. Want of memory is the one error; the page is given up.
    pub fn with(self, step: &Step) -> Result<Page, AllocError>
        requires { IsSound (put step.now.changes.items self) }

        ensures { IfOk result (λ page. page ≡ put step.now.changes.items self) }
    {
        let Page { mut facts } = self;
        facts.recent += 1;
        let mut draft = Draft { facts };
        for change in &step.changes {
            draft = draft.put(change)?;
        }
        let Draft { facts } = draft;
        Ok(Page { facts })
    }

    /// Ends a numbered entry: there is one more, with no event since, and nothing else changes.
    pub fn next_entry(&mut self)
        requires { self.old.entries < most_entries }

        ensures next { self.new ≡ next_entry self.old }
        ensures shows { (es : List Event) → Shows self.old es → Shows self.new es }
    {
        self.facts.entries += 1;
        self.facts.recent = 0;
    }
}
