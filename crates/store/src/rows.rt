ghost use Rattle.std.specs.Prelude.{◌≡◌, IfOk, map, MatchOption};
ghost use Rattle.definitions.specs.Register.{Deed, deed_mark, body_of};
ghost use Rattle.definitions.specs.Rows.{shown_row, state_text};
ghost use Rattle.store.specs.Sent.{state_name, said_under, sent_row};

use rules::{Entry, OutKind, Page, Row};
use std::alloc::{AllocError, Global};
use std::marker::Model;

/// What a depositor has of a pair of an item and a lot.
#[derive(Clone, Drop)]
pub struct StockRow {
    /// The item, 1 to 20 bytes.
    pub item: Vec<u8>,
    /// The lot, 1 to 12 bytes.
    pub lot: Vec<u8>,
    /// The date on which the lot expires, CCYYMMDD, if an advice gave one.
    pub expiry: Option<Vec<u8>>,
    /// What is announced and not counted yet.
    pub expected: u64,
    /// What is on hand.
    pub on_hand: u64,
    /// What is reserved of it.
    pub reserved: u64,
    /// What has been shipped.
    pub shipped: u64,
}

impl Model for StockRow {
    ghost use Rattle.std.specs.Prelude.{option_map};
    ghost use Rattle.definitions.specs.Rows.{StockRow};

    ghost Value = { StockRow };

    ghost view = { λ r. record {
      item = r.item.items;
      lot = r.lot.items;
      expiry = option_map (λ v. v.items) r.expiry;
      expected = r.expected;
      on_hand = r.on_hand;
      reserved = r.reserved;
      shipped = r.shipped;
    } };
}

/// What the other side said of a document: the first acknowledgment after it that names it decides.
#[derive(Clone, Copy, PartialEq, Eq)]
pub enum DocumentState {
    /// Answers have no state.
    Unasked,
    /// Nothing yet.
    Open,
    /// It is accepted.
    Accepted,
    /// It is refused.
    Refused,
}

impl DocumentState {
    /// The word for it in lists and tables: -, open, accepted or refused.
    pub fn text(self) -> &'static [u8]
        ensures { result.now ≡ state_name self }
    {
        match self {
            DocumentState::Unasked => b"-",
            DocumentState::Open => b"open",
            DocumentState::Accepted => b"accepted",
            DocumentState::Refused => b"refused",
        }
    }

    /// The state with this word; None where no state has it.
    pub fn of_text(text: &[u8]) -> Option<DocumentState>
        ensures { MatchOption result ((state : DocumentState) → text.now ≡ state_name state
            → ⊥) (λ state. text.now ≡ state_name state) }
    {
        match text {
            b"-" => Some(DocumentState::Unasked),
            b"open" => Some(DocumentState::Open),
            b"accepted" => Some(DocumentState::Accepted),
            b"refused" => Some(DocumentState::Refused),
            _ => None,
        }
    }

    /// The state of a document of which this was said.
    pub fn of_said(said: Option<bool>) -> DocumentState
        ensures { state_name result ≡ state_text said }
    {
        match said {
            None => DocumentState::Open,
            Some(true) => DocumentState::Accepted,
            Some(false) => DocumentState::Refused,
        }
    }
}

/// A text that went out to a depositor.
#[derive(Clone, Drop)]
pub struct OutRow {
    /// The number of its entry, 1 to 999,999.
    pub n: u32,
    /// What it is.
    pub kind: OutKind,
    /// The interchange's bytes.
    pub content: Vec<u8>,
    /// What was said of it.
    pub state: DocumentState,
}

impl Model for OutRow {
    ghost use Rattle.definitions.specs.Rows.{OutRow};
    ghost use Rattle.rules.specs.Kinds.{kind_text};
    ghost use Rattle.store.specs.Sent.{state_name};

    ghost Value = { OutRow };

    ghost view = { λ r. record {
      n = r.n;
      kind = kind_text r.kind;
      content = r.content.items;
      state = state_name r.state;
    } };
}

impl StockRow {
    // What a page's row shows.
    fn of(row: &Row) -> Result<StockRow, AllocError>
        ensures { IfOk result (λ shown. shown ≡ shown_row row.now) }
    {
        Ok(StockRow {
            item: row.item.clone()?,
            lot: row.lot.clone()?,
            expiry: row.expiry.clone()?,
            expected: row.expected,
            on_hand: row.on_hand,
            reserved: row.reserved,
            shipped: row.shipped,
        })
    }

    /// What each of a page's rows shows, in their order. It fails at want of memory alone.
    pub fn of_each(alloc: Global, rows: &[Row]) -> Result<Vec<StockRow>, AllocError>
        ensures { IfOk result (λ shown. shown.items ≡ map shown_row rows.now) }
    {
        let mut shown = Vec::new(alloc);
        for row in rows {
            shown.push(StockRow::of(row)?)?;
        }
        Ok(shown)
    }
}

// What the page's documents say of the one under a number.
fn said_of(page: &Page, n: u32) -> Option<bool>
    ensures { result ≡ said_under n page.now.documents }
{
    let documents = page.documents();
    for document in documents {
        if document.n == n {
            return document.said;
        }
    }
    None
}

impl OutRow {
    /// The row of an entry that sent this out, by the page of all its depositor's entries.
    pub(crate) fn of(page: &Page, entry: &Entry, content: Vec<u8>) -> OutRow
        ensures { (deed : Deed) → entry.now.key ≡ deed_mark deed → entry.now.body ≡ body_of deed
            → result ≡ sent_row page.now.documents deed entry.now.n content.items }
    {
        let n = entry.number();
        let kind = entry.kind();
        let state = match kind {
            OutKind::Answer => DocumentState::Unasked,
            _ => DocumentState::of_said(said_of(page, n)),
        };
        OutRow {
            n,
            kind,
            content,
            state,
        }
    }
}
