ghost use Rattle.std.specs.Prelude.{◌≡◌, ◌∷◌, [], pos, IfOk, OnOk, IsTrue};
ghost use Rattle.definitions.specs.Header.{who_text};
ghost use Rattle.sqlite.specs.declared.types.Value.TheVariants as value;
ghost use Rattle.sqlite.specs.Held.{state};
ghost use Rattle.sqlite.specs.State.{HasCleanDisk, IsLive};
ghost use Rattle.sqlite.specs.Values.{bound};
ghost use Rattle.book_statements.specs.Asking.{Asked, Finds, OnlyReads};

use crate::connected::Tables;
use rules::Who;
use sqlite::types::ValueRef;
use sqlite::{Alter, Row};
use store::Fault;

// A depositor's text, and another.
fn text_params<'a>(who: &'a [u8], text: &'a [u8]) -> [ValueRef<'a>; 2]
    ensures { bound result ≡ value.Text who.now ∷ value.Text text.now ∷ [] }
{
    [ValueRef::Text(who), ValueRef::Text(text)]
}

// A depositor's text, and a number.
fn number_params<'a>(who: &'a [u8], n: u32) -> [ValueRef<'a>; 2]
    ensures { bound result ≡ value.Text who.now ∷ value.Int (pos n) ∷ [] }
{
    [ValueRef::Text(who), ValueRef::Int(i64::from(n))]
}

impl<S: Alter + Drop> Tables<S> {
    /// The rows that a text answers which reads the book's tables, where its parameter is a
    /// depositor.
    pub(crate) fn of_depositor(&mut self, sql: &str, who: Who) -> Result<Vec<Row>, Fault>
        requires { OnlyReads sql.now }

        ensures finds { HasCleanDisk (state S.Store self.new.conn)
            → IfOk result (λ rows. IsTrue (state S.Store self.old.conn).is_open
            × Finds sql.now (value.Text (who_text who)
            ∷ []) (state S.Store self.old.conn).now rows.items) }
        ensures live { OnOk result (IsLive (state S.Store self.old.conn)) }
        ensures asked { Asked S.Store self.old self.new result }
    {
        self.ask(sql, &[ValueRef::Text(who.text())])
    }

    /// The same where the parameters are a depositor and a text.
    pub(crate) fn under_text(&mut self, sql: &str, who: Who, text: &[u8]) -> Result<Vec<Row>, Fault>
        requires { OnlyReads sql.now }

        ensures finds { HasCleanDisk (state S.Store self.new.conn)
            → IfOk result (λ rows. IsTrue (state S.Store self.old.conn).is_open
            × Finds sql.now (value.Text (who_text who)
            ∷ value.Text text.now ∷ []) (state S.Store self.old.conn).now rows.items) }
        ensures live { OnOk result (IsLive (state S.Store self.old.conn)) }
        ensures asked { Asked S.Store self.old self.new result }
    {
        self.ask(sql, &text_params(who.text(), text))
    }

    /// The same where the parameters are a depositor and a number.
    pub(crate) fn under_number(&mut self, sql: &str, who: Who, n: u32) -> Result<Vec<Row>, Fault>
        requires { OnlyReads sql.now }

        ensures finds { HasCleanDisk (state S.Store self.new.conn)
            → IfOk result (λ rows. IsTrue (state S.Store self.old.conn).is_open
            × Finds sql.now (value.Text (who_text who)
            ∷ value.Int (pos n) ∷ []) (state S.Store self.old.conn).now rows.items) }
        ensures live { OnOk result (IsLive (state S.Store self.old.conn)) }
        ensures asked { Asked S.Store self.old self.new result }
    {
        self.ask(sql, &number_params(who.text(), n))
    }
}
