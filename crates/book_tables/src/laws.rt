//! Laws of the tables: nothing runs, each contract is a law.
ghost use Rattle.std.specs.Prelude.{◌≡◌, List, take};
ghost use Rattle.definitions.specs.declared.rules.Rules.{Rules};
ghost use Rattle.definitions.specs.declared.rules.Rules.TheVariants.{One, Two};
ghost use Rattle.definitions.specs.Header.{Who};
ghost use Rattle.definitions.specs.Register.{Entry};
ghost use Rattle.definitions.specs.Schema.{schemas};
ghost use Rattle.definitions.specs.Tables.{tables};
ghost use Rattle.sqlite.specs.Tree.{Trees};
ghost use Rattle.book_tables.specs.LaidOut.{AreLaidOut};
ghost use Rattle.book_statements.specs.Layout.{book_tables};
ghost use Rattle.book_statements.specs.Carrying.{StandsInAs, first_filled};
ghost use Rattle.book_statements.specs.Standing.{filled, named};

/// Each table of the book has the name, the columns and the key that the definitions give it.
pub fn tables_are_laid_out_as_defined()
    ensures { AreLaidOut (schemas Two) book_tables }
{}

/// The rows that a database of either version holds for a register, table by table, are those that
/// the definitions give to the register's tables.
pub fn tables_hold_what_is_defined()
    ensures two { (W : Who) (L : List Entry) → named (filled W L) ≡ tables Two W L }
    ensures one { (W : Who) (L : List Entry) → take 9 (named (first_filled W L)) ≡ tables One W L }
{}

/// A database stands for one register alone, of one warehouse, in one version.
pub fn a_database_stands_for_one_register()
    ensures { (db : Trees) (q r : Rules) (W V : Who) (L M : List Entry) → StandsInAs q W L db
        → StandsInAs r V M db → (q ≡ r) × (W ≡ V) × (L ≡ M) }
{}
