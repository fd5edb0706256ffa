//! Rows of what is new: of an advice or an order that comes, with its lines. Its number never came
//! before, so there is no row under their keys; the store refuses a row whose key is there.
ghost use Rattle.std.specs.Prelude.{◌≡◌, [], ◌∷◌, codes, pos};
ghost use Rattle.definitions.specs.Changes.{Puts};
ghost use Rattle.definitions.specs.Tables as cells;
ghost use Rattle.sqlite.specs.Values.{bound};
ghost use Rattle.book_statements.specs.Held.{values};
ghost use Rattle.book_statements.specs.Leading.{Leads};
ghost use Rattle.book_statements.specs.Lines.{advice_line_row, order_line_row, reservation_row};
ghost use Rattle.book_statements.specs.Writing.{WroteIn};

use crate::calls::Calls;
use crate::running::run;
use crate::writing::{advice_params, orders_params};
use rules::{Goods, KnownAdvice, KnownLine, KnownOrder};
use sqlite::types::ValueRef;
use sqlite::{Alter, Transaction};
use store::Fault;

/// Adds a row of `advice`.
pub(crate) fn insert_advice<'a, S: Alter>(
    tx: &mut Transaction<'_, S>,
    calls: &mut Calls,
    who: &'a [u8],
    advice: &'a KnownAdvice,
) -> Result<(), Fault>
    ensures same_reference { tx.new.conn.ghost_name ≡ tx.old.conn.ghost_name }
    ensures wrote { WroteIn S.Store (λ old new. Leads
        (Puts (codes "advice") (cells.Text who.now ∷ cells.advice_cells advice.now) ∷ []) old.now
        new.now)
        tx.old.conn.now tx.new.conn.now calls.old calls.new result }
{
    run(
        tx,
        calls,
        "INSERT INTO advice (who, shipment, ord, is_open) VALUES (?1, ?2, ?3, ?4)",
        &advice_params(who, advice),
    )
}

// The columns of a row of `advice_line`.
fn advice_line_params<'a>(
    who: &'a [u8],
    shipment: &'a [u8],
    n: u32,
    line: &'a Goods,
) -> [ValueRef<'a>; 6]
    ensures { bound result ≡ values (advice_line_row who.now shipment.now n line.now) }
{
    [
        ValueRef::Text(who),
        ValueRef::Text(shipment),
        ValueRef::Int(i64::from(n)),
        ValueRef::Text(&line.item),
        ValueRef::Text(&line.lot),
        ValueRef::Int(i64::from(line.quantity)),
    ]
}

/// Adds a row of `advice_line`: a line of an advice, with its number.
pub(crate) fn insert_advice_line<'a, S: Alter>(
    tx: &mut Transaction<'_, S>,
    calls: &mut Calls,
    who: &'a [u8],
    shipment: &'a [u8],
    n: u32,
    line: &'a Goods,
) -> Result<(), Fault>
    ensures same_reference { tx.new.conn.ghost_name ≡ tx.old.conn.ghost_name }
    ensures wrote { WroteIn S.Store (λ old new. Leads
        (Puts (codes "advice_line") (advice_line_row who.now shipment.now n line.now) ∷ []) old.now
        new.now)
        tx.old.conn.now tx.new.conn.now calls.old calls.new result }
{
    run(
        tx,
        calls,
        "INSERT INTO advice_line (who, shipment, line, item, lot, quantity) VALUES (?1, ?2, ?3, ?4, ?5, ?6)",
        &advice_line_params(who, shipment, n, line),
    )
}

/// Adds a row of `orders`.
pub(crate) fn insert_order<'a, S: Alter>(
    tx: &mut Transaction<'_, S>,
    calls: &mut Calls,
    who: &'a [u8],
    order: &'a KnownOrder,
) -> Result<(), Fault>
    ensures same_reference { tx.new.conn.ghost_name ≡ tx.old.conn.ghost_name }
    ensures wrote { WroteIn S.Store (λ old new. Leads
        (Puts (codes "orders") (cells.Text who.now ∷ cells.orders_cells order.now) ∷ []) old.now
        new.now)
        tx.old.conn.now tx.new.conn.now calls.old calls.new result }
{
    run(
        tx,
        calls,
        "INSERT INTO orders (who, ord, is_open, to_name, to_one, to_two, to_place) VALUES (?1, ?2, ?3, ?4, ?5, ?6, ?7)",
        &orders_params(who, order),
    )
}

// The columns of a row of `order_line`.
fn order_line_params<'a>(
    who: &'a [u8],
    order: &'a [u8],
    n: u32,
    line: &'a KnownLine,
) -> [ValueRef<'a>; 6]
    ensures { bound result ≡ values (order_line_row who.now order.now n line.now) }
{
    let lot = match &line.pin {
        None => ValueRef::Null,
        Some(lot) => ValueRef::Text(lot),
    };
    [
        ValueRef::Text(who),
        ValueRef::Text(order),
        ValueRef::Int(i64::from(n)),
        ValueRef::Text(&line.item),
        lot,
        ValueRef::Int(i64::from(line.quantity)),
    ]
}

/// Adds a row of `order_line`: a line of an order, with its number.
pub(crate) fn insert_order_line<'a, S: Alter>(
    tx: &mut Transaction<'_, S>,
    calls: &mut Calls,
    who: &'a [u8],
    order: &'a [u8],
    n: u32,
    line: &'a KnownLine,
) -> Result<(), Fault>
    ensures same_reference { tx.new.conn.ghost_name ≡ tx.old.conn.ghost_name }
    ensures wrote { WroteIn S.Store (λ old new. Leads
        (Puts (codes "order_line") (order_line_row who.now order.now n line.now) ∷ []) old.now
        new.now)
        tx.old.conn.now tx.new.conn.now calls.old calls.new result }
{
    run(
        tx,
        calls,
        "INSERT INTO order_line (who, ord, line, item, lot, quantity) VALUES (?1, ?2, ?3, ?4, ?5, ?6)",
        &order_line_params(who, order, n, line),
    )
}

// The columns of a row of `reservation`.
fn reservation_params<'a>(who: &'a [u8], order: &'a [u8], line: &'a Goods) -> [ValueRef<'a>; 5]
    ensures { bound result ≡ values (reservation_row who.now order.now line.now) }
{
    [
        ValueRef::Text(who),
        ValueRef::Text(order),
        ValueRef::Text(&line.item),
        ValueRef::Text(&line.lot),
        ValueRef::Int(i64::from(line.quantity)),
    ]
}

/// Adds a row of `reservation`: what is reserved of a pair for an order.
pub(crate) fn insert_reservation<'a, S: Alter>(
    tx: &mut Transaction<'_, S>,
    calls: &mut Calls,
    who: &'a [u8],
    order: &'a [u8],
    line: &'a Goods,
) -> Result<(), Fault>
    ensures same_reference { tx.new.conn.ghost_name ≡ tx.old.conn.ghost_name }
    ensures wrote { WroteIn S.Store (λ old new. Leads
        (Puts (codes "reservation") (reservation_row who.now order.now line.now) ∷ []) old.now
        new.now)
        tx.old.conn.now tx.new.conn.now calls.old calls.new result }
{
    run(
        tx,
        calls,
        "INSERT INTO reservation (who, ord, item, lot, quantity) VALUES (?1, ?2, ?3, ?4, ?5)",
        &reservation_params(who, order, line),
    )
}
