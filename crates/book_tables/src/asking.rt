ghost use Rattle.std.specs.Prelude.{◌≡◌, ◌<◌, ◌^◌, IfOk, length};
ghost use Rattle.definitions.specs.Register as register;
ghost use Rattle.sqlite.specs.Held.{state};
ghost use Rattle.book_statements.specs.Asking.{IsAsked, OfStandingAs};
ghost use Rattle.book_statements.specs.Limits.{Called};
ghost use Rattle.book_tables.specs.Housing.{TellsHouse};

use crate::connected::Tables;
use crate::reading::house_of;
use definitions::Rules;
use rules::Warehouse;
use sqlite::Alter;
use store::Fault;

impl<S: Alter + Drop> Tables<S> {
    /// The version and the warehouse of the book. 43 where `book` hasn't one row, or that row has
    /// no version that is read or no warehouse.
    pub(crate) fn house(&mut self) -> Result<(Rules, Warehouse), Fault>
        ensures whose { OfStandingAs S.Store self.old self.new
            (λ q W L. IfOk result (λ h. (h.0 ≡ q) × (h.1 ≡ W))) }
        ensures tells { TellsHouse S.Store self.old self.new (λ h. h) result }
    {
        let rows = self.ask("SELECT version, qualifier, id FROM book", &[])?;
        match house_of(&rows) {
            Some(house) => Ok(house),
            None => Err(Fault::NotThisBook),
        }
    }

    /// How many entries there are.
    pub(crate) fn count(&mut self) -> Result<u64, Fault>
        ensures few { IfOk result (λ n. n < 2 ^ 63) }
        ensures count { OfStandingAs S.Store self.old self.new
            (λ q W L. IfOk result (λ n. n ≡ length L)) }
        ensures asked { IsAsked (state S.Store self.old.conn) (state S.Store self.new.conn) }
        ensures called { Called self.old self.new result }
    {
        let rows = self.ask("SELECT seq FROM entry", &[])?;
        Ok(rows.len() as u64)
    }

    /// The version and the warehouse of the book, and how many entries there are.
    pub fn found(&mut self) -> Result<((Rules, Warehouse), u64), Fault>
        ensures few { IfOk result (λ found. found.1 < 2 ^ 63) }
        ensures count { OfStandingAs S.Store self.old self.new
            (λ q W L. IfOk result (λ found. (found.0.0 ≡ q) × (found.0.1 ≡ W)
            × (found.1 ≡ length L))) }
        ensures tells { TellsHouse S.Store self.old self.new (λ found. found.0) result }
    {
        let house = self.house()?;
        let entries = self.count()?;
        Ok((house, entries))
    }
}
