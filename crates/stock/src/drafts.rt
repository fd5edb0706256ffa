ghost use Rattle.std.specs.Prelude.{◌≡◌, IfOk, MatchOption};
ghost use Rattle.page_rows.specs.Keyed.{put_row, put_advice, put_order, put_document};
ghost use Rattle.page_rows.specs.Pages.{PageFacts, AreSorted, IsSound};
ghost use Rattle.stock.specs.Facts.{facts_of};
ghost use Rattle.stock.specs.Puts.{nothing_yet, put_change};
ghost use Rattle.stock.specs.declared.steps.Change.TheVariants as changed;

use crate::facts::Facts;
use crate::page::Page;
use crate::places::put_row;
use crate::searches::{put_advice, put_document, put_order, put_said, send};
use crate::sound::is_kept;
use crate::steps::Change;
use page_rows::{Function, KnownAdvice, KnownDocument, KnownOrder, Row};
use std::alloc::{AllocError, Global};
use std::marker::Model;

/// A page in the making: its lists are in order, and nothing more is known of it.
#[derive(Drop)]
pub struct Draft {
    pub(crate) facts: Facts,
}

impl Model for Draft {
    ghost Value = { PageFacts };

    ghost view = { λ d. facts_of d.facts };

    ghost invariant = { λ d. AreSorted (facts_of d.facts) };
}

impl Draft {
    /// Nothing yet of a depositor with so many numbered entries.
    pub fn new(alloc: Global, entries: u32) -> Draft
        ensures { result ≡ nothing_yet entries }
    {
        let facts = Facts {
            rows: Vec::new(alloc),
            advices: Vec::new(alloc),
            orders: Vec::new(alloc),
            documents: Vec::new(alloc),
            entries,
            recent: 0,
        };
        Draft { facts }
    }

    /// The advices that were put in, by the bytes of their shipment numbers.
    pub fn advices(&self) -> &[KnownAdvice]
        ensures { result.now ≡ self.now.advices }
    {
        &self.facts.advices
    }

    /// The orders that were put in, by the bytes of their numbers.
    pub fn orders(&self) -> &[KnownOrder]
        ensures { result.now ≡ self.now.orders }
    {
        &self.facts.orders
    }

    /// The page with what was put in, and with no event since its last entry; None where that is
    /// none: more reserved of a pair than is on hand; what is open not expected or not reserved;
    /// something reserved for an order of an item of none of its lines; or an amount above what so
    /// many entries can bring.
    pub fn page(self) -> Option<Page>
        ensures { let lists : PageFacts = record self { recent = 0 } in MatchOption result
            (IsSound lists → ⊥) (λ page. page ≡ lists) }
    {
        let Draft { facts } = self;
        if !is_kept(&facts) {
            return None;
        }
        Some(Page {
            facts: Facts { recent: 0, ..facts },
        })
    }

    // The draft with one change; want of memory is the one error.
    pub(crate) fn put(self, change: &Change) -> Result<Draft, AllocError>
        ensures { IfOk result (λ draft. draft ≡ put_change self change.now) }
    {
        match change {
            Change::Stock(row) => self.with_row(row.copy()?),
            Change::Advice(advice) => self.with_advice(advice.copy()?),
            Change::Order(order) => self.with_order(order.copy()?),
            Change::Sent { n, function } => self.with_sent(*n, *function),
            Change::Document { n, accepts } => Ok(self.with_said(*n, *accepts)),
        }
    }

    /// With a row, in the place of that of its pair; want of memory is the one error.
    pub fn with_row(self, row: Row) -> Result<Draft, AllocError>
        ensures { IfOk result (λ draft. draft ≡ record self { rows = put_row row self.rows }) }
    {
        let Draft { mut facts } = self;
        put_row(&mut facts.rows, row)?;
        Ok(Draft { facts })
    }

    /// With an advice, in the place of that of its shipment number; want of memory is the one
    /// error.
    pub fn with_advice(self, advice: KnownAdvice) -> Result<Draft, AllocError>
        ensures { IfOk result
            (λ draft. draft ≡ record self { advices = put_advice advice self.advices }) }
    {
        let Draft { mut facts } = self;
        put_advice(&mut facts.advices, advice)?;
        Ok(Draft { facts })
    }

    /// With an order, in the place of that of its number; want of memory is the one error.
    pub fn with_order(self, order: KnownOrder) -> Result<Draft, AllocError>
        ensures { IfOk result
            (λ draft. draft ≡ record self { orders = put_order order self.orders }) }
    {
        let Draft { mut facts } = self;
        put_order(&mut facts.orders, order)?;
        Ok(Draft { facts })
    }

    /// With a document, in the place of that of its number; want of memory is the one error.
    pub fn with_document(self, document: KnownDocument) -> Result<Draft, AllocError>
        ensures { IfOk result
            (λ draft. draft ≡ record self { documents = put_document document self.documents }) }
    {
        let Draft { mut facts } = self;
        put_document(&mut facts.documents, document)?;
        Ok(Draft { facts })
    }

    fn with_sent(self, n: u32, function: Function) -> Result<Draft, AllocError>
        ensures { IfOk result (λ draft. draft ≡ put_change self (changed.Sent n function)) }
    {
        let Draft { mut facts } = self;
        send(&mut facts.documents, n, function)?;
        Ok(Draft { facts })
    }

    fn with_said(self, n: u32, accepts: bool) -> Draft
        ensures { result ≡ put_change self (changed.Document n accepts) }
    {
        let Draft { mut facts } = self;
        put_said(&mut facts.documents, n, accepts);
        Draft { facts }
    }
}
