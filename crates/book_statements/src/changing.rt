ghost use Rattle.std.specs.Prelude.{◌≡◌, codes};
ghost use Rattle.definitions.specs.Header.{Who as Partner, who_text};
ghost use Rattle.rules.specs.Tabled.{row_changes, advice_changes, order_changes, table_changes_of, table_changes};
ghost use Rattle.definitions.specs.Tables as cells;
ghost use Rattle.book_statements.specs.Leading.{Leads, puts_of};
ghost use Rattle.book_statements.specs.Writing.{WroteIn};

use crate::calls::Calls;
use crate::inserting::{
    insert_advice, insert_advice_line, insert_order, insert_order_line, insert_reservation,
};
use crate::recording::set_state;
use crate::writing::{free_reservations, put_advice, put_expiry, put_order, put_stock};
use rules::{Change, KnownAdvice, KnownOrder, Row};
use sqlite::{Alter, Transaction};
use store::Fault;

/// Adds the lines of an advice.
fn insert_advice_lines<'a, S: Alter>(
    tx: &mut Transaction<'_, S>,
    calls: &mut Calls,
    who: &'a [u8],
    advice: &'a KnownAdvice,
) -> Result<(), Fault>
    ensures same_reference { tx.new.conn.ghost_name ≡ tx.old.conn.ghost_name }
    ensures wrote { WroteIn S.Store (λ old new. Leads
        (puts_of (codes "advice_line") who.now (cells.advice_line_cells advice.now)) old.now
        new.now)
        tx.old.conn.now tx.new.conn.now calls.old calls.new result }
{
    let shipment = advice.shipment();
    let mut n: u32 = 0;
    for line in advice.lines() {
        let Some(next) = n.checked_add(1) else {
            return Err(calls.refuse());
        };
        n = next;
        insert_advice_line(tx, calls, who, shipment, n, line)?;
    }
    Ok(())
}

/// Adds the lines of an order.
fn insert_order_lines<'a, S: Alter>(
    tx: &mut Transaction<'_, S>,
    calls: &mut Calls,
    who: &'a [u8],
    order: &'a KnownOrder,
) -> Result<(), Fault>
    ensures same_reference { tx.new.conn.ghost_name ≡ tx.old.conn.ghost_name }
    ensures wrote { WroteIn S.Store (λ old new. Leads
        (puts_of (codes "order_line") who.now (cells.order_line_cells order.now)) old.now new.now)
        tx.old.conn.now tx.new.conn.now calls.old calls.new result }
{
    let number = order.number.as_slice();
    let mut n: u32 = 0;
    for line in &order.lines {
        let Some(next) = n.checked_add(1) else {
            return Err(calls.refuse());
        };
        n = next;
        insert_order_line(tx, calls, who, number, n, line)?;
    }
    Ok(())
}

/// Adds what is reserved for an order.
fn insert_reservations<'a, S: Alter>(
    tx: &mut Transaction<'_, S>,
    calls: &mut Calls,
    who: &'a [u8],
    order: &'a KnownOrder,
) -> Result<(), Fault>
    ensures same_reference { tx.new.conn.ghost_name ≡ tx.old.conn.ghost_name }
    ensures wrote { WroteIn S.Store (λ old new. Leads
        (puts_of (codes "reservation") who.now (cells.reservation_cells order.now)) old.now new.now)
        tx.old.conn.now tx.new.conn.now calls.old calls.new result }
{
    let number = order.number.as_slice();
    for line in &order.reserved {
        insert_reservation(tx, calls, who, number, line)?;
    }
    Ok(())
}

/// Puts a row of `stock`, and the date of its pair where it has one.
fn apply_row<'a, S: Alter>(
    tx: &mut Transaction<'_, S>,
    calls: &mut Calls,
    who: &'a [u8],
    row: &'a Row,
) -> Result<(), Fault>
    ensures same_reference { tx.new.conn.ghost_name ≡ tx.old.conn.ghost_name }
    ensures wrote { WroteIn S.Store (λ old new. (w : Partner) → who.now ≡ who_text w
        → Leads (row_changes w row.now) old.now new.now)
        tx.old.conn.now tx.new.conn.now calls.old calls.new result }
{
    put_stock(tx, calls, who, row)?;
    match &row.expiry {
        Some(expiry) => put_expiry(tx, calls, who, row, expiry),
        None => Ok(()),
    }
}

/// Adds an advice that is opened, with its lines, or closes the one that is there.
fn apply_advice<'a, S: Alter>(
    tx: &mut Transaction<'_, S>,
    calls: &mut Calls,
    who: &'a [u8],
    advice: &'a KnownAdvice,
) -> Result<(), Fault>
    ensures same_reference { tx.new.conn.ghost_name ≡ tx.old.conn.ghost_name }
    ensures wrote { WroteIn S.Store (λ old new. (w : Partner) → who.now ≡ who_text w
        → Leads (advice_changes w advice.now) old.now new.now)
        tx.old.conn.now tx.new.conn.now calls.old calls.new result }
{
    if advice.is_open() {
        insert_advice(tx, calls, who, advice)?;
        insert_advice_lines(tx, calls, who, advice)
    } else {
        put_advice(tx, calls, who, advice)
    }
}

/// Adds an order that is opened, with its lines and what is reserved for it, or closes the one that
/// is there: nothing is reserved for it any more.
fn apply_order<'a, S: Alter>(
    tx: &mut Transaction<'_, S>,
    calls: &mut Calls,
    who: &'a [u8],
    order: &'a KnownOrder,
) -> Result<(), Fault>
    ensures same_reference { tx.new.conn.ghost_name ≡ tx.old.conn.ghost_name }
    ensures wrote { WroteIn S.Store (λ old new. (w : Partner) → who.now ≡ who_text w
        → Leads (order_changes w order.now) old.now new.now)
        tx.old.conn.now tx.new.conn.now calls.old calls.new result }
{
    if order.is_open {
        insert_order(tx, calls, who, order)?;
        insert_order_lines(tx, calls, who, order)?;
        insert_reservations(tx, calls, who, order)
    } else {
        put_order(tx, calls, who, order)?;
        free_reservations(tx, calls, who, &order.number)
    }
}

/// Puts one change into the tables.
fn apply_change<'a, S: Alter>(
    tx: &mut Transaction<'_, S>,
    calls: &mut Calls,
    who: &'a [u8],
    change: &'a Change,
) -> Result<(), Fault>
    ensures same_reference { tx.new.conn.ghost_name ≡ tx.old.conn.ghost_name }
    ensures wrote { WroteIn S.Store (λ old new. (w : Partner) → who.now ≡ who_text w
        → Leads (table_changes_of w change.now) old.now new.now)
        tx.old.conn.now tx.new.conn.now calls.old calls.new result }
{
    match change {
        Change::Stock(row) => apply_row(tx, calls, who, row),
        Change::Advice(advice) => apply_advice(tx, calls, who, advice),
        Change::Order(order) => apply_order(tx, calls, who, order),
        Change::Sent { .. } => Ok(()),
        Change::Document { n, accepts } => set_state(tx, calls, who, *n, *accepts),
    }
}

/// Puts changes into the tables, one after another.
pub fn apply_all<'a, S: Alter>(
    tx: &mut Transaction<'_, S>,
    calls: &mut Calls,
    who: &'a [u8],
    changes: &'a [Change],
) -> Result<(), Fault>
    ensures same_reference { tx.new.conn.ghost_name ≡ tx.old.conn.ghost_name }
    ensures wrote { WroteIn S.Store (λ old new. (w : Partner) → who.now ≡ who_text w
        → Leads (table_changes w changes.now) old.now new.now)
        tx.old.conn.now tx.new.conn.now calls.old calls.new result }
{
    for change in changes {
        apply_change(tx, calls, who, change)?;
    }
    Ok(())
}
