ghost use Rattle.std.specs.Prelude.{◌≡◌, ◌≤◌, IfErr, IfOk, None};
ghost use Rattle.sqlite.specs.Held.{state};
ghost use Rattle.sqlite.specs.State.{HasCleanDisk, IsLive, Opens, Relays};
ghost use Rattle.sqlite.specs.Steps.{FailsToOpen, IsFresh};
ghost use Rattle.sqlite.specs.Tree.{Trees};
ghost use Rattle.sqlite_disk.specs.Disk.{MoreFaults};
ghost use Rattle.sqlite_trees.specs.View.{IsClean, IsQuiet, doubt};
ghost use Rattle.book_tables.specs.Comparing.{AreTables, IsLaid};
ghost use Rattle.book_tables.specs.Reopening.{FailsToReopen};

use crate::connected::Tables;
use sqlite::{Alter, Connection, Error, ErrorCode};
use sqlite_trees::store::Store;
use std::alloc::Global;

impl<S: Alter + Drop> Tables<S> {
    /// The tables of a store that was just opened: `Connection::over`, and then `new`. The rows of
    /// each table rise by their rowids, so these can be compared with others.
    pub fn over(alloc: Global, store: S) -> Result<Tables<S>, (Error, S)>
        requires { IsClean (S.Store.view store) → IsFresh (S.Store.view store) }

        ensures opens { IfOk result (λ t. HasCleanDisk (state S.Store t.conn)
            → Opens (state S.Store t.conn) × IsLive (state S.Store t.conn)) }
        ensures tables { IfOk result (λ t. HasCleanDisk (state S.Store t.conn)
            → IsLaid (state S.Store t.conn) → AreTables (state S.Store t.conn).now) }
        ensures trees { IfOk result (λ t. HasCleanDisk (state S.Store t.conn)
            → (state S.Store t.conn).now.trees ≡ (S.Store.view store).trees) }
        ensures clean { IfOk result (λ t. doubt (S.Store.view store).is_clean
            ≤ doubt (state S.Store t.conn).is_clean) }
        ensures fresh { IfOk result (λ t. (t.refused ≡ 0) × (t.made ≡ 0) × (t.limit ≡ None)) }
        ensures unharmed { IfErr result (λ e. IsQuiet S.Store.view S.Store.faults S.Store.recovers
            S.Store.is_shielded store e.1) }
        ensures told { IfErr result (λ e. Relays (S.Store.blamed e.1) e.0) }
        ensures err { IfErr result (λ e. IsClean (S.Store.view e.1)
            → FailsToOpen (S.Store.view store).trees
            (MoreFaults (S.Store.faults store) (S.Store.faults e.1)) e.0) }
    {
        match Connection::over(alloc, store) {
            Ok(conn) => Ok(Tables::new(conn)),
            Err(failed) => Err(failed),
        }
    }

    /// The same tables, opened anew over their store, so that the rows of each are known to rise by
    /// their rowids. An error hands the store back: `Closed` where it was shut or could not be
    /// rolled back, or what `over` tells of what was committed. Either way a crash leaves no more
    /// than before.
    pub fn reopened(self, alloc: Global) -> Result<Tables<S>, (Error, S)>
        ensures opens { IfOk result (λ t. HasCleanDisk (state S.Store t.conn)
            → Opens (state S.Store t.conn) × IsLive (state S.Store t.conn)) }
        ensures tables { IfOk result (λ t. HasCleanDisk (state S.Store t.conn)
            → IsLaid (state S.Store t.conn) → AreTables (state S.Store t.conn).now) }
        ensures trees { IfOk result (λ t. HasCleanDisk (state S.Store t.conn)
            → (state S.Store t.conn).now.trees ≡ (state S.Store self.conn).committed.trees) }
        ensures clean { IfOk result (λ t. doubt (state S.Store self.conn).is_clean
            ≤ doubt (state S.Store t.conn).is_clean) }
        ensures fresh { IfOk result (λ t. (t.refused ≡ 0) × (t.made ≡ 0) × (t.limit ≡ None)) }
        ensures no_more { IfOk result (λ t. HasCleanDisk (state S.Store t.conn) → (db : Trees)
            → (state S.Store t.conn).may_leave db → (state S.Store self.conn).may_leave db) }
        ensures unharmed { IfErr result (λ e. IsQuiet S.Store.view S.Store.faults S.Store.recovers
            S.Store.is_shielded self.conn.store e.1) }
        ensures told { IfErr result (λ e. Relays (S.Store.blamed e.1) e.0) }
        ensures err { IfErr result (λ e. IsClean (S.Store.view e.1)
            → FailsToReopen (state S.Store self.conn)
            (MoreFaults (state S.Store self.conn).faults (S.Store.faults e.1)) e.0) }
    {
        let store = self.into_inner().into_store();
        if store.is_broken() {
            return Err((Error::SqliteFailure(ErrorCode::Closed), store));
        }
        Tables::over(alloc, store)
    }
}
