//! The lists of a page, searched and changed by their keys.
ghost use Rattle.std.specs.Prelude.{◌≡◌, ◌≤◌, ◌<◌, true, MatchResult, OnOk, length, nat_lt};
ghost use Rattle.definitions.specs.Bytes.{comes_before};
ghost use Rattle.page_rows.specs.Functions.{function_text};
ghost use Rattle.page_rows.specs.Keyed.{rises_by, shipment_of, number_of, entry_of, put_advice, put_order, put_document};
ghost use Rattle.page_rows.specs.Pages.{is_shipment, is_number, is_document};
ghost use Rattle.page_rows.specs.Steps.{with_sent, with_said};
ghost use Rattle.stock.specs.Searching.{FoundAt, put_at};

use page_rows::{Function, KnownAdvice, KnownDocument, KnownOrder};
use std::alloc::AllocError;

/// Where the advice under a shipment number stands; the error is where it would.
pub(crate) fn find_advice(advices: &[KnownAdvice], shipment: &[u8]) -> Result<usize, usize>
    requires { rises_by comes_before shipment_of advices.now ≡ true }

    ensures { FoundAt comes_before shipment_of (is_shipment shipment.now) shipment.now advices.now
        result }
{
    advices.binary_search_by(|advice| advice.stands_to(shipment))
}

/// Where the order under a number stands; the error is where it would.
pub(crate) fn find_order(orders: &[KnownOrder], number: &[u8]) -> Result<usize, usize>
    requires { rises_by comes_before number_of orders.now ≡ true }

    ensures { FoundAt comes_before number_of (is_number number.now) number.now orders.now result }
{
    orders.binary_search_by(|order| order.stands_to(number))
}

/// Where the document with a number stands; the error is where it would.
pub(crate) fn find_document(documents: &[KnownDocument], n: u32) -> Result<usize, usize>
    requires { rises_by nat_lt entry_of documents.now ≡ true }

    ensures { FoundAt nat_lt entry_of (is_document n) n documents.now result }
{
    documents.binary_search_by(|document| document.stands_to(n))
}

// Puts an item in the place of another, or where it belongs.
fn put_at<T: Drop>(
    list: &mut Vec<T>,
    place: Result<usize, usize>,
    item: T,
) -> Result<(), AllocError>
    requires { MatchResult place (λ i. i < length list.old.items)
        (λ i. i ≤ length list.old.items) }

    ensures { OnOk result (list.new.items ≡ put_at place item list.old.items) }
{
    match place {
        Ok(i) => list[i] = item,
        Err(i) => list.insert(i, item)?,
    }
    Ok(())
}

/// Puts an advice in the place of that of its shipment number, or where that belongs.
pub(crate) fn put_advice(
    advices: &mut Vec<KnownAdvice>,
    advice: KnownAdvice,
) -> Result<(), AllocError>
    requires { rises_by comes_before shipment_of advices.old.items ≡ true }

    ensures { OnOk result (advices.new.items ≡ put_advice advice advices.old.items) }
{
    let place = find_advice(advices, advice.shipment());
    put_at(advices, place, advice)
}

/// Puts an order in the place of that of its number, or where that belongs.
pub(crate) fn put_order(orders: &mut Vec<KnownOrder>, order: KnownOrder) -> Result<(), AllocError>
    requires { rises_by comes_before number_of orders.old.items ≡ true }

    ensures { OnOk result (orders.new.items ≡ put_order order orders.old.items) }
{
    let place = find_order(orders, &order.number);
    put_at(orders, place, order)
}

/// Puts a document in the place of that of its number, or where that belongs.
pub(crate) fn put_document(
    documents: &mut Vec<KnownDocument>,
    document: KnownDocument,
) -> Result<(), AllocError>
    requires { rises_by nat_lt entry_of documents.old.items ≡ true }

    ensures { OnOk result (documents.new.items ≡ put_document document documents.old.items) }
{
    let place = find_document(documents, document.n);
    put_at(documents, place, document)
}

/// Adds the document that is sent under a number, unless there is one.
pub(crate) fn send(
    documents: &mut Vec<KnownDocument>,
    n: u32,
    function: Function,
) -> Result<(), AllocError>
    requires { rises_by nat_lt entry_of documents.old.items ≡ true }

    ensures { OnOk result (documents.new.items ≡ with_sent n (function_text function)
        documents.old.items) }
{
    let Err(i) = find_document(documents, n) else {
        return Ok(());
    };
    let sent = KnownDocument {
        n,
        function,
        said: None,
    };
    documents.insert(i, sent)?;
    Ok(())
}

/// Keeps what is said of a document, if there is one under the number.
pub(crate) fn put_said(documents: &mut Vec<KnownDocument>, n: u32, accepts: bool)
    requires { rises_by nat_lt entry_of documents.old.items ≡ true }

    ensures { documents.new.items ≡ with_said n accepts documents.old.items }
{
    if let Ok(i) = find_document(documents, n) {
        let document = &mut documents[i];
        document.keep(accepts);
    }
}
