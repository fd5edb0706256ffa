use page_rows::{KnownAdvice, KnownDocument, KnownOrder, Row};

/// What a page and a draft hold. Nothing is known of it here: each says what is so of its own.
#[derive(Drop)]
pub(crate) struct Facts {
    pub(crate) rows: Vec<Row>,
    pub(crate) advices: Vec<KnownAdvice>,
    pub(crate) orders: Vec<KnownOrder>,
    pub(crate) documents: Vec<KnownDocument>,
    // the numbered entries, and the events since the last of them
    pub(crate) entries: u32,
    pub(crate) recent: u32,
}
