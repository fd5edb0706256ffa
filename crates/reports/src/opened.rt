//! What is open on a page under a number.
ghost use Rattle.std.specs.Prelude.{◌≡◌, Ok, Err, IfOk, IfErr};
ghost use Rattle.reports.specs.Opened.{advice_opened, order_opened};
ghost use Rattle.store.specs.Pages.{advice_at, order_at};

use store::{KnownAdvice, KnownOrder, Page, Refusal};

/// The open advice under a shipment number. The error is 22, an unknown advice, or 23, one that was
/// counted.
pub(crate) fn open_advice<'a>(page: &'a Page, shipment: &[u8]) -> Result<&'a KnownAdvice, Refusal>
    ensures ok { IfOk result
        (λ advice. advice_opened (advice_at shipment.now page.now.advices) ≡ Ok advice.now) }
    ensures err { IfErr result
        (λ refusal. advice_opened (advice_at shipment.now page.now.advices) ≡ Err refusal) }
{
    let Some(advice) = page.advice(shipment) else {
        return Err(Refusal::UnknownAdvice);
    };
    if !advice.is_open() {
        return Err(Refusal::AdviceClosed);
    }
    Ok(advice)
}

/// The open order under its number. The error is 24, an unknown order, or 25, one that was picked.
pub(crate) fn open_order<'a>(page: &'a Page, number: &[u8]) -> Result<&'a KnownOrder, Refusal>
    ensures ok { IfOk result
        (λ order. order_opened (order_at number.now page.now.orders) ≡ Ok order.now) }
    ensures err { IfErr result
        (λ refusal. order_opened (order_at number.now page.now.orders) ≡ Err refusal) }
{
    let Some(order) = page.order(number) else {
        return Err(Refusal::UnknownOrder);
    };
    if !order.is_open {
        return Err(Refusal::OrderClosed);
    }
    Ok(order)
}
