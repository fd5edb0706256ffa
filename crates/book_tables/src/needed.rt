//! The part of a depositor's page that is needed, from the running rows: what is named is looked up
//! by keys, and nothing else is read.
ghost use Rattle.std.specs.Prelude.{◌≡◌, ◌++◌, ℕ, fold, flat_map, map, IfOk, List};
ghost use Rattle.std.specs.Cmp.Lexicographic.{slice_cmp};
ghost use Rattle.std.specs.List.Sorted.{IsStrictlyIncreasing, IsStrictlySortedBy};
ghost use Rattle.std.specs.Ordering.{nat_cmp};
ghost use Rattle.definitions.specs.Bytes.{is_one_of};
ghost use Rattle.definitions.specs.Need as meant;
ghost use Rattle.definitions.specs.Register as register;
ghost use Rattle.definitions.specs.Page.{page_of};
ghost use Rattle.rules.specs.Keyed.{put_row};
ghost use Rattle.rules.specs.Decided.{IsAtRest};
ghost use Rattle.rules.specs.Naming.{facts_of, named_of};
ghost use Rattle.book_statements.specs.Asking.{Asked, OfStanding, Went};
ghost use Rattle.book_tables.specs.Needed.{Gathers, needed_part, none_named, part_for, with_number, with_numbers, with_text, with_texts};

use crate::connected::Tables;
use rules::{Draft, Goods, KnownAdvice, KnownLine, KnownOrder, Name, Need, Page, Row, Who};
use sqlite::Alter;
use std::alloc::{AllocError, Global};
use store::Fault;

/// What is sought of a page by a text.
#[derive(Clone, Copy)]
pub(crate) enum Sought {
    /// The advice under a shipment number.
    Advice,
    /// The order under a number.
    Order,
    /// The lots of an item.
    Lots,
}

// A page in the making with rows.
fn with_rows(draft: Draft, rows: Vec<Row>) -> Result<Draft, AllocError>
    ensures { IfOk result (λ d. d ≡ record draft
        { rows = fold (λ ws r. put_row r ws) draft.rows rows.items }) }
{
    let mut draft = draft;
    for row in rows {
        draft = draft.with_row(row)?;
    }
    Ok(draft)
}

// Adds the names.
fn add_names(alloc: Global, items: &mut Vec<Name>, names: &[Name]) -> Result<(), AllocError>
    ensures { IfOk result (λ done. items.new.items ≡ items.old.items ++ names.now) }
{
    for name in names {
        items.push(Name::of(alloc, name.bytes())?)?;
    }
    Ok(())
}

// Adds the items of goods.
fn add_items(alloc: Global, items: &mut Vec<Name>, lines: &[Goods]) -> Result<(), AllocError>
    ensures { IfOk result (λ done. items.new.items ≡ items.old.items ++ meant.items_of lines.now) }
{
    for line in lines {
        items.push(Name::of(alloc, &line.item)?)?;
    }
    Ok(())
}

// Adds the items of an order's lines.
fn add_ordered(alloc: Global, items: &mut Vec<Name>, lines: &[KnownLine]) -> Result<(), AllocError>
    ensures { IfOk result (λ done. items.new.items ≡ items.old.items ++ map (λ l. l.item)
        lines.now) }
{
    for line in lines {
        items.push(Name::of(alloc, &line.item)?)?;
    }
    Ok(())
}

// Adds the items in lines of advices.
fn add_advised(
    alloc: Global,
    items: &mut Vec<Name>,
    advices: &[KnownAdvice],
) -> Result<(), AllocError>
    ensures { IfOk result (λ done. items.new.items ≡ items.old.items ++ flat_map
        (λ k. meant.items_of k.lines) advices.now) }
{
    for advice in advices {
        add_items(alloc, items, advice.lines())?;
    }
    Ok(())
}

// Adds the items in lines of orders.
fn add_sought(alloc: Global, items: &mut Vec<Name>, orders: &[KnownOrder]) -> Result<(), AllocError>
    ensures { IfOk result (λ done. items.new.items ≡ items.old.items ++ flat_map
        (λ o. map (λ l. l.item) o.lines) orders.now) }
{
    for order in orders {
        add_ordered(alloc, items, &order.lines)?;
    }
    Ok(())
}

// The items that are named, and those in lines of the advices and orders that were found.
fn items_needed(alloc: Global, need: &Need, draft: &Draft) -> Result<Vec<Name>, AllocError>
    ensures { IfOk result (λ items. items.items ≡ need.now.items ++ (flat_map
        (λ k. meant.items_of k.lines) draft.now.advices
        ++ flat_map (λ o. map (λ l. l.item) o.lines) draft.now.orders)) }
{
    let mut items = Vec::new(alloc);
    add_names(alloc, &mut items, &need.items)?;
    add_advised(alloc, &mut items, draft.advices())?;
    add_sought(alloc, &mut items, draft.orders())?;
    Ok(items)
}

// The bytes of names.
fn texts_of(alloc: Global, names: &[Name]) -> Result<Vec<&[u8]>, AllocError>
    ensures { IfOk result (λ texts. map (λ t. t.now) texts.items ≡ names.now) }
{
    let mut texts = Vec::new(alloc);
    for name in names {
        texts.push(name.bytes())?;
    }
    Ok(texts)
}

// The bytes of names in their order, each once: an interchange can name one item in each of its
// lines.
fn once(alloc: Global, names: &[Name]) -> Result<Vec<&[u8]>, AllocError>
    ensures same { IfOk result (λ texts. (t : List ℕ)
        → is_one_of (map (λ s. s.now) texts.items) t ≡ is_one_of names.now t) }
    ensures once { IfOk result
        (λ texts. IsStrictlySortedBy (λ s t. slice_cmp nat_cmp s.now t.now) texts.items) }
{
    let mut texts = texts_of(alloc, names)?;
    texts.sort_unstable();
    texts.dedup();
    Ok(texts)
}

// Numbers in their order, each once.
fn numbers_once(alloc: Global, numbers: &[u32]) -> Result<Vec<u32>, AllocError>
    ensures same { IfOk result (λ rising. (n : ℕ)
        → meant.is_number_of rising.items n ≡ meant.is_number_of numbers.now n) }
    ensures once { IfOk result (λ rising. IsStrictlyIncreasing rising.items) }
{
    let mut rising = numbers.to_vec(alloc)?;
    rising.sort_unstable();
    rising.dedup();
    Ok(rising)
}

impl<S: Alter + Drop> Tables<S> {
    // A page in the making with the advice under a shipment number, if there is one.
    fn with_advice(
        &mut self,
        alloc: Global,
        who: Who,
        draft: Draft,
        shipment: &[u8],
    ) -> Result<Draft, Fault>
        ensures found { Gathers S.Store self.old self.new who draft
            (with_text Sought.Advice shipment.now) result }
        ensures asked { Asked S.Store self.old self.new result }
    {
        match self.advice_under(alloc, who, shipment)? {
            Some(advice) => Ok(draft.with_advice(advice)?),
            None => Ok(draft),
        }
    }

    // With the order under a number, if there is one.
    fn with_order(
        &mut self,
        alloc: Global,
        who: Who,
        draft: Draft,
        number: &[u8],
    ) -> Result<Draft, Fault>
        ensures found { Gathers S.Store self.old self.new who draft
            (with_text Sought.Order number.now) result }
        ensures asked { Asked S.Store self.old self.new result }
    {
        match self.order_under(alloc, who, number)? {
            Some(order) => Ok(draft.with_order(order)?),
            None => Ok(draft),
        }
    }

    // With the lots of an item.
    fn with_lots(
        &mut self,
        alloc: Global,
        who: Who,
        draft: Draft,
        item: &[u8],
    ) -> Result<Draft, Fault>
        ensures found { Gathers S.Store self.old self.new who draft (with_text Sought.Lots item.now)
            result }
        ensures asked { Asked S.Store self.old self.new result }
    {
        let rows = self.lots_of(alloc, who, item)?;
        Ok(with_rows(draft, rows)?)
    }

    // With the document under a number, if there is one.
    fn with_document(
        &mut self,
        alloc: Global,
        who: Who,
        draft: Draft,
        n: u32,
    ) -> Result<Draft, Fault>
        ensures found { Gathers S.Store self.old self.new who draft (with_number n) result }
        ensures asked { Asked S.Store self.old self.new result }
    {
        match self.document_under(alloc, who, n)? {
            Some(document) => Ok(draft.with_document(document)?),
            None => Ok(draft),
        }
    }

    // With what is sought by a text.
    fn with_found(
        &mut self,
        alloc: Global,
        who: Who,
        draft: Draft,
        sought: Sought,
        name: &[u8],
    ) -> Result<Draft, Fault>
        ensures found { Gathers S.Store self.old self.new who draft (with_text sought name.now)
            result }
        ensures asked { Asked S.Store self.old self.new result }
    {
        match sought {
            Sought::Advice => self.with_advice(alloc, who, draft, name),
            Sought::Order => self.with_order(alloc, who, draft, name),
            Sought::Lots => self.with_lots(alloc, who, draft, name),
        }
    }

    // With what is sought by each of these texts.
    fn gather_each(
        &mut self,
        alloc: Global,
        who: Who,
        draft: Draft,
        sought: Sought,
        texts: &[&[u8]],
    ) -> Result<Draft, Fault>
        ensures found { Gathers S.Store self.old self.new who draft (with_texts sought (map
            (λ t. t.now) texts.now)) result }
        ensures went { Went S.Store self.old self.new result }
    {
        let mut draft = draft;
        for text in texts {
            draft = self.with_found(alloc, who, draft, sought, *text)?;
        }
        Ok(draft)
    }

    // With what is sought by names: a name that stands often is looked up once.
    fn gather(
        &mut self,
        alloc: Global,
        who: Who,
        draft: Draft,
        sought: Sought,
        names: &[Name],
    ) -> Result<Draft, Fault>
        ensures found { Gathers S.Store self.old self.new who draft (with_texts sought names.now)
            result }
        ensures went { Went S.Store self.old self.new result }
    {
        let texts = once(alloc, names)?;
        self.gather_each(alloc, who, draft, sought, &texts)
    }

    // With the document under each of these numbers.
    fn gather_numbers(
        &mut self,
        alloc: Global,
        who: Who,
        draft: Draft,
        numbers: &[u32],
    ) -> Result<Draft, Fault>
        ensures found { Gathers S.Store self.old self.new who draft (with_numbers numbers.now)
            result }
        ensures went { Went S.Store self.old self.new result }
    {
        let mut draft = draft;
        for n in numbers {
            draft = self.with_document(alloc, who, draft, *n)?;
        }
        Ok(draft)
    }

    // With the documents under numbers, each looked up once.
    fn gather_documents(
        &mut self,
        alloc: Global,
        who: Who,
        draft: Draft,
        numbers: &[u32],
    ) -> Result<Draft, Fault>
        ensures found { Gathers S.Store self.old self.new who draft (with_numbers numbers.now)
            result }
        ensures went { Went S.Store self.old self.new result }
    {
        let rising = numbers_once(alloc, numbers)?;
        self.gather_numbers(alloc, who, draft, &rising)
    }

    // All but the lots.
    fn named(&mut self, alloc: Global, who: Who, draft: Draft, need: &Need) -> Result<Draft, Fault>
        ensures found { Gathers S.Store self.old self.new who draft
            (λ n. with_numbers need.now.documents (with_texts Sought.Order need.now.orders
            (with_texts Sought.Advice need.now.shipments n))) result }
        ensures went { Went S.Store self.old self.new result }
    {
        let draft = self.gather(alloc, who, draft, Sought::Advice, &need.shipments)?;
        let draft = self.gather(alloc, who, draft, Sought::Order, &need.orders)?;
        self.gather_documents(alloc, who, draft, &need.documents)
    }

    // All that is needed, put into nothing.
    fn gathered(
        &mut self,
        alloc: Global,
        who: Who,
        draft: Draft,
        need: &Need,
    ) -> Result<Draft, Fault>
        ensures found { OfStanding S.Store self.old self.new
            (λ W L. draft ≡ part_for L who none_named
            → IfOk result (λ d. d ≡ part_for L who (named_of need.now
            (facts_of (page_of (register.own L who)))))) }
        ensures went { Went S.Store self.old self.new result }
    {
        let draft = self.named(alloc, who, draft, need)?;
        let items = items_needed(alloc, need, &draft)?;
        self.gather(alloc, who, draft, Sought::Lots, &items)
    }

    // Just what is needed of the page of a depositor that is enrolled. 43 where the rows make no
    // page.
    fn part(&mut self, alloc: Global, who: Who, need: &Need) -> Result<Page, Fault>
        ensures part { OfStanding S.Store self.old self.new
            (λ W L. IfOk result (λ page. page ≡ facts_of
            (meant.part (page_of (register.own L who)) need.now))) }
        ensures rest { IfOk result (λ page. page.recent ≡ 0) }
        ensures asked { Asked S.Store self.old self.new result }
    {
        let entries = self.last_number(alloc, who)?;
        match self.gathered(alloc, who, Draft::new(alloc, entries), need) {
            Ok(draft) => match draft.page() {
                Some(page) => Ok(page),
                None => Err(Fault::NotThisBook),
            },
            Err(fault) => Err(fault),
        }
    }

    /// Just what is needed of a depositor's page; None of a stranger. 43 where the rows make no
    /// page.
    pub fn page_for(&mut self, alloc: Global, who: Who, need: &Need) -> Result<Option<Page>, Fault>
        ensures part { OfStanding S.Store self.old self.new
            (λ W L. IfOk result (λ page. page ≡ needed_part need.now L who)) }
        ensures rest { IfOk result IsAtRest }
        ensures asked { Asked S.Store self.old self.new result }
    {
        if !self.is_enrolled(alloc, who)? {
            return Ok(None);
        }
        match self.part(alloc, who, need) {
            Ok(page) => Ok(Some(page)),
            Err(fault) => Err(fault),
        }
    }
}
