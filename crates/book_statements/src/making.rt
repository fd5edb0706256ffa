ghost use Rattle.std.specs.Prelude.{◌≡◌, IsTrue};
ghost use Rattle.sqlite.specs.Held.{state};
ghost use Rattle.book_statements.specs.Carrying.{Widens};
ghost use Rattle.book_statements.specs.Layout.{no_layout};
ghost use Rattle.book_statements.specs.Making.{HasMade, HasBook};
ghost use Rattle.book_statements.specs.Writing.{WroteIn};

use crate::calls::Calls;
use crate::running::run;
use rules::Warehouse;
use sqlite::types::ValueRef;
use sqlite::{Alter, Transaction};
use store::Fault;

/// Makes `book`, `entry` and `outgoing`.
pub(crate) fn make_first<S: Alter>(
    tx: &mut Transaction<'_, S>,
    calls: &mut Calls,
) -> Result<(), Fault>
    ensures same_reference { tx.new.conn.ghost_name ≡ tx.old.conn.ghost_name }
    ensures wrote { WroteIn S.Store (λ old new. HasMade 0 0 old.now → HasMade 3 3 new.now)
        tx.old.conn.now tx.new.conn.now calls.old calls.new result }
{
    run(
        tx,
        calls,
        "CREATE TABLE book (version INTEGER NOT NULL, qualifier TEXT NOT NULL, id TEXT NOT NULL) STRICT",
        &[],
    )?;
    run(
        tx,
        calls,
        "CREATE TABLE entry (seq INTEGER PRIMARY KEY, who TEXT NOT NULL, mark TEXT NOT NULL, n INTEGER NOT NULL, moment TEXT NOT NULL, body BLOB NOT NULL, UNIQUE (who, mark), UNIQUE (who, n)) STRICT",
        &[],
    )?;
    run(
        tx,
        calls,
        "CREATE TABLE outgoing (who TEXT NOT NULL, n INTEGER NOT NULL, kind TEXT NOT NULL, content BLOB NOT NULL, state TEXT NOT NULL, PRIMARY KEY (who, n)) STRICT",
        &[],
    )
}

/// Makes `stock`, `advice` and `advice_line`.
pub(crate) fn make_second<S: Alter>(
    tx: &mut Transaction<'_, S>,
    calls: &mut Calls,
) -> Result<(), Fault>
    ensures same_reference { tx.new.conn.ghost_name ≡ tx.old.conn.ghost_name }
    ensures wrote { WroteIn S.Store (λ old new. HasMade 3 3 old.now → HasMade 6 6 new.now)
        tx.old.conn.now tx.new.conn.now calls.old calls.new result }
{
    run(
        tx,
        calls,
        "CREATE TABLE stock (who TEXT NOT NULL, item TEXT NOT NULL, lot TEXT NOT NULL, since INTEGER NOT NULL, expected INTEGER NOT NULL, on_hand INTEGER NOT NULL, reserved INTEGER NOT NULL, shipped INTEGER NOT NULL, PRIMARY KEY (who, item, lot), CHECK (expected >= 0 AND on_hand >= 0 AND reserved >= 0 AND shipped >= 0 AND reserved <= on_hand)) STRICT",
        &[],
    )?;
    run(
        tx,
        calls,
        "CREATE TABLE advice (who TEXT NOT NULL, shipment TEXT NOT NULL, ord TEXT NOT NULL, is_open INTEGER NOT NULL, PRIMARY KEY (who, shipment)) STRICT",
        &[],
    )?;
    run(
        tx,
        calls,
        "CREATE TABLE advice_line (who TEXT NOT NULL, shipment TEXT NOT NULL, line INTEGER NOT NULL, item TEXT NOT NULL, lot TEXT NOT NULL, quantity INTEGER NOT NULL, PRIMARY KEY (who, shipment, line)) STRICT",
        &[],
    )
}

/// Makes `orders`, `order_line` and `reservation`.
pub(crate) fn make_third<S: Alter>(
    tx: &mut Transaction<'_, S>,
    calls: &mut Calls,
) -> Result<(), Fault>
    ensures same_reference { tx.new.conn.ghost_name ≡ tx.old.conn.ghost_name }
    ensures wrote { WroteIn S.Store (λ old new. HasMade 6 6 old.now → HasMade 9 9 new.now)
        tx.old.conn.now tx.new.conn.now calls.old calls.new result }
{
    run(
        tx,
        calls,
        "CREATE TABLE orders (who TEXT NOT NULL, ord TEXT NOT NULL, is_open INTEGER NOT NULL, to_name TEXT, to_one TEXT NOT NULL, to_two TEXT NOT NULL, to_place TEXT NOT NULL, PRIMARY KEY (who, ord)) STRICT",
        &[],
    )?;
    run(
        tx,
        calls,
        "CREATE TABLE order_line (who TEXT NOT NULL, ord TEXT NOT NULL, line INTEGER NOT NULL, item TEXT NOT NULL, lot TEXT, quantity INTEGER NOT NULL, PRIMARY KEY (who, ord, line)) STRICT",
        &[],
    )?;
    run(
        tx,
        calls,
        "CREATE TABLE reservation (who TEXT NOT NULL, ord TEXT NOT NULL, item TEXT NOT NULL, lot TEXT NOT NULL, quantity INTEGER NOT NULL, PRIMARY KEY (who, ord, item, lot)) STRICT",
        &[],
    )
}

/// Makes `entry_rules` and `lot_expiry`.
pub(crate) fn make_fourth<S: Alter>(
    tx: &mut Transaction<'_, S>,
    calls: &mut Calls,
) -> Result<(), Fault>
    ensures same_reference { tx.new.conn.ghost_name ≡ tx.old.conn.ghost_name }
    ensures wrote { WroteIn S.Store (λ old new. (HasMade 9 9 old.now → HasMade 11 10 new.now)
        × (IsTrue old.is_open × Widens old.now new.now))
        tx.old.conn.now tx.new.conn.now calls.old calls.new result }
{
    run(
        tx,
        calls,
        "CREATE TABLE entry_rules (seq INTEGER PRIMARY KEY, rules INTEGER NOT NULL) STRICT",
        &[],
    )?;
    run(
        tx,
        calls,
        "CREATE TABLE lot_expiry (who TEXT NOT NULL, item TEXT NOT NULL, lot TEXT NOT NULL, expiry TEXT NOT NULL, PRIMARY KEY (who, item, lot)) STRICT",
        &[],
    )
}

/// Adds the row of `book`: version 2, and the warehouse.
pub(crate) fn insert_book<'a, S: Alter>(
    tx: &mut Transaction<'_, S>,
    calls: &mut Calls,
    qualifier: &'a [u8],
    id: &'a [u8],
) -> Result<(), Fault>
    ensures same_reference { tx.new.conn.ghost_name ≡ tx.old.conn.ghost_name }
    ensures wrote { WroteIn S.Store (λ old new. HasMade 11 10 old.now
        → HasBook qualifier.now id.now new.now)
        tx.old.conn.now tx.new.conn.now calls.old calls.new result }
{
    run(
        tx,
        calls,
        "INSERT INTO book (version, qualifier, id) VALUES (?1, ?2, ?3)",
        &[
            ValueRef::Int(2),
            ValueRef::Text(qualifier),
            ValueRef::Text(id),
        ],
    )
}

/// Makes the eleven tables of an empty register, where there was no table. A statement that is
/// refused is 40 or 41.
pub fn make_all<S: Alter>(
    tx: &mut Transaction<'_, S>,
    calls: &mut Calls,
    warehouse: &Warehouse,
) -> Result<(), Fault>
    ensures same_reference { tx.new.conn.ghost_name ≡ tx.old.conn.ghost_name }
    ensures wrote { WroteIn S.Store (λ old new. old.now.schema ≡ no_layout
        → HasBook warehouse.now.qualifier warehouse.now.id new.now)
        tx.old.conn.now tx.new.conn.now calls.old calls.new result }
{
    make_first(tx, calls)?;
    make_second(tx, calls)?;
    make_third(tx, calls)?;
    make_fourth(tx, calls)?;
    let who = warehouse.who();
    insert_book(tx, calls, who.qualifier(), who.id())
}
