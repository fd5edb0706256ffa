ghost use Rattle.std.specs.Prelude.{◌≡◌, [], ◌∷◌, codes, if◌then◌else◌, IfSome, pos};
ghost use Rattle.definitions.specs.Changes.{Puts, Frees};
ghost use Rattle.definitions.specs.Tables as cells;
ghost use Rattle.sqlite.specs.declared.types.Value.TheVariants as value;
ghost use Rattle.sqlite.specs.Values.{bound};
ghost use Rattle.book_statements.specs.Held.{values};
ghost use Rattle.book_statements.specs.Leading.{Leads};
ghost use Rattle.book_statements.specs.Lines.{advice_line_row, expiry_row, order_line_row, reservation_row};
ghost use Rattle.book_statements.specs.Writing.{WroteIn};

use crate::calls::Calls;
use crate::running::run;
use rules::{Goods, KnownAdvice, KnownLine, KnownOrder, Row};
use sqlite::types::ValueRef;
use sqlite::{Alter, Transaction};
use store::Fault;

// 1 where it is so, else 0.
fn flag(is_so: bool) -> i64
    ensures { result ≡ pos (if is_so then 1 else 0) }
{
    if is_so { 1 } else { 0 }
}

// The number as SQLite has numbers; None above 2^63 - 1.
fn signed(n: u64) -> Option<i64>
    ensures { IfSome result (λ z. z ≡ pos n) }
{
    if n > 9_223_372_036_854_775_807 {
        None
    } else {
        Some(n as i64)
    }
}

// The amounts of a row of `stock`.
#[derive(Clone, Copy, Drop)]
struct Amounts {
    expected: i64,
    on_hand: i64,
    reserved: i64,
    shipped: i64,
}

impl Amounts {
    // Those of the row; None where one is no number of SQLite.
    fn of(row: &Row) -> Option<Amounts>
        ensures { IfSome result (λ a. a ≡ record {
          expected = pos row.now.expected;
          on_hand = pos row.now.on_hand;
          reserved = pos row.now.reserved;
          shipped = pos row.now.shipped;
        }) }
    {
        Some(Amounts {
            expected: signed(row.expected)?,
            on_hand: signed(row.on_hand)?,
            reserved: signed(row.reserved)?,
            shipped: signed(row.shipped)?,
        })
    }
}

// The columns of a row of `stock`.
fn stock_params<'a>(who: &'a [u8], row: &'a Row, amounts: Amounts) -> [ValueRef<'a>; 8]
    ensures { amounts ≡ record {
      expected = pos row.now.expected;
      on_hand = pos row.now.on_hand;
      reserved = pos row.now.reserved;
      shipped = pos row.now.shipped;
    }
        → bound result ≡ values (cells.Text who.now ∷ cells.stock_cells row.now) }
{
    [
        ValueRef::Text(who),
        ValueRef::Text(&row.item),
        ValueRef::Text(&row.lot),
        ValueRef::Int(i64::from(row.since)),
        ValueRef::Int(amounts.expected),
        ValueRef::Int(amounts.on_hand),
        ValueRef::Int(amounts.reserved),
        ValueRef::Int(amounts.shipped),
    ]
}

/// Puts a row of `stock`.
pub(crate) fn put_stock<'a, S: Alter>(
    tx: &mut Transaction<'_, S>,
    calls: &mut Calls,
    who: &'a [u8],
    row: &'a Row,
) -> Result<(), Fault>
    ensures same_reference { tx.new.conn.ghost_name ≡ tx.old.conn.ghost_name }
    ensures wrote { WroteIn S.Store (λ old new. Leads
        (Puts (codes "stock") (cells.Text who.now ∷ cells.stock_cells row.now) ∷ []) old.now
        new.now)
        tx.old.conn.now tx.new.conn.now calls.old calls.new result }
{
    let Some(amounts) = Amounts::of(row) else {
        return Err(calls.refuse());
    };
    run(
        tx,
        calls,
        "INSERT INTO stock (who, item, lot, since, expected, on_hand, reserved, shipped) VALUES (?1, ?2, ?3, ?4, ?5, ?6, ?7, ?8) ON CONFLICT (who, item, lot) DO UPDATE SET since = ?4, expected = ?5, on_hand = ?6, reserved = ?7, shipped = ?8",
        &stock_params(who, row, amounts),
    )
}

// The columns of a row of `lot_expiry`.
fn expiry_params<'a>(who: &'a [u8], row: &'a Row, expiry: &'a [u8]) -> [ValueRef<'a>; 4]
    ensures { bound result ≡ values (expiry_row who.now row.now.item row.now.lot expiry.now) }
{
    [
        ValueRef::Text(who),
        ValueRef::Text(&row.item),
        ValueRef::Text(&row.lot),
        ValueRef::Text(expiry),
    ]
}

/// Puts a row of `lot_expiry`: the date of the pair of a row of `stock`.
pub(crate) fn put_expiry<'a, S: Alter>(
    tx: &mut Transaction<'_, S>,
    calls: &mut Calls,
    who: &'a [u8],
    row: &'a Row,
    expiry: &'a [u8],
) -> Result<(), Fault>
    ensures same_reference { tx.new.conn.ghost_name ≡ tx.old.conn.ghost_name }
    ensures wrote { WroteIn S.Store (λ old new. Leads
        (Puts (codes "lot_expiry") (expiry_row who.now row.now.item row.now.lot expiry.now) ∷ [])
        old.now new.now)
        tx.old.conn.now tx.new.conn.now calls.old calls.new result }
{
    run(
        tx,
        calls,
        "INSERT INTO lot_expiry (who, item, lot, expiry) VALUES (?1, ?2, ?3, ?4) ON CONFLICT (who, item, lot) DO UPDATE SET expiry = ?4",
        &expiry_params(who, row, expiry),
    )
}

// The columns of a row of `advice`.
pub(crate) fn advice_params<'a>(who: &'a [u8], advice: &'a KnownAdvice) -> [ValueRef<'a>; 4]
    ensures { bound result ≡ values (cells.Text who.now ∷ cells.advice_cells advice.now) }
{
    [
        ValueRef::Text(who),
        ValueRef::Text(advice.shipment()),
        ValueRef::Text(advice.order()),
        ValueRef::Int(flag(advice.is_open())),
    ]
}

/// Puts a row of `advice`.
pub(crate) fn put_advice<'a, S: Alter>(
    tx: &mut Transaction<'_, S>,
    calls: &mut Calls,
    who: &'a [u8],
    advice: &'a KnownAdvice,
) -> Result<(), Fault>
    ensures same_reference { tx.new.conn.ghost_name ≡ tx.old.conn.ghost_name }
    ensures wrote { WroteIn S.Store (λ old new. Leads
        (Puts (codes "advice") (cells.Text who.now ∷ cells.advice_cells advice.now) ∷ []) old.now
        new.now)
        tx.old.conn.now tx.new.conn.now calls.old calls.new result }
{
    run(
        tx,
        calls,
        "INSERT INTO advice (who, shipment, ord, is_open) VALUES (?1, ?2, ?3, ?4) ON CONFLICT (who, shipment) DO UPDATE SET ord = ?3, is_open = ?4",
        &advice_params(who, advice),
    )
}

// The columns of a row of `orders`.
pub(crate) fn orders_params<'a>(who: &'a [u8], order: &'a KnownOrder) -> [ValueRef<'a>; 7]
    ensures { bound result ≡ values (cells.Text who.now ∷ cells.orders_cells order.now) }
{
    match &order.address {
        None => [
            ValueRef::Text(who),
            ValueRef::Text(&order.number),
            ValueRef::Int(flag(order.is_open)),
            ValueRef::Null,
            ValueRef::Text(b""),
            ValueRef::Text(b""),
            ValueRef::Text(b""),
        ],
        Some(address) => [
            ValueRef::Text(who),
            ValueRef::Text(&order.number),
            ValueRef::Int(flag(order.is_open)),
            ValueRef::Text(&address.name),
            ValueRef::Text(&address.one),
            ValueRef::Text(&address.two),
            ValueRef::Text(&address.place),
        ],
    }
}

/// Puts a row of `orders`.
pub(crate) fn put_order<'a, S: Alter>(
    tx: &mut Transaction<'_, S>,
    calls: &mut Calls,
    who: &'a [u8],
    order: &'a KnownOrder,
) -> Result<(), Fault>
    ensures same_reference { tx.new.conn.ghost_name ≡ tx.old.conn.ghost_name }
    ensures wrote { WroteIn S.Store (λ old new. Leads
        (Puts (codes "orders") (cells.Text who.now ∷ cells.orders_cells order.now) ∷ []) old.now
        new.now)
        tx.old.conn.now tx.new.conn.now calls.old calls.new result }
{
    run(
        tx,
        calls,
        "INSERT INTO orders (who, ord, is_open, to_name, to_one, to_two, to_place) VALUES (?1, ?2, ?3, ?4, ?5, ?6, ?7) ON CONFLICT (who, ord) DO UPDATE SET is_open = ?3, to_name = ?4, to_one = ?5, to_two = ?6, to_place = ?7",
        &orders_params(who, order),
    )
}

// Whose order it is, and its number.
fn free_params<'a>(who: &'a [u8], order: &'a [u8]) -> [ValueRef<'a>; 2]
    ensures { bound result ≡ value.Text who.now ∷ value.Text order.now ∷ [] }
{
    [ValueRef::Text(who), ValueRef::Text(order)]
}

/// Takes all that is reserved for an order away.
pub(crate) fn free_reservations<'a, S: Alter>(
    tx: &mut Transaction<'_, S>,
    calls: &mut Calls,
    who: &'a [u8],
    order: &'a [u8],
) -> Result<(), Fault>
    ensures same_reference { tx.new.conn.ghost_name ≡ tx.old.conn.ghost_name }
    ensures wrote { WroteIn S.Store (λ old new. Leads (Frees who.now order.now ∷ []) old.now
        new.now)
        tx.old.conn.now tx.new.conn.now calls.old calls.new result }
{
    run(
        tx,
        calls,
        "DELETE FROM reservation WHERE who = ?1 AND ord = ?2",
        &free_params(who, order),
    )
}
