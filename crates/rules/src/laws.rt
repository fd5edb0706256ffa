//! Laws of replies and of registers: nothing runs, each contract is a law.
ghost use Rattle.std.specs.Prelude.{◌≡◌, ◌<◌, ◌^◌, ◌++◌, ◌∷◌, [], ℕ, List, Some, None, true, map};
ghost use Rattle.definitions.specs.declared.rules.Rules.{Rules};
ghost use Rattle.definitions.specs.Accepted.{IsLegal, after, depositor_of, is_command, left_by, own_of, reply_to};
ghost use Rattle.definitions.specs.Header.{Who, isa};
ghost use Rattle.definitions.specs.Moments.{Moment};
ghost use Rattle.definitions.specs.Register.{Act, Clerk, Command, Entry, Interchange, Known, Performed, Received, interchange_mark, known, next_number, own, ticket_mark};
ghost use Rattle.definitions.specs.History.{History, events, history};
ghost use Rattle.definitions.specs.Movements.{Column, IsCovered, IsExpectedWithin, balance, most_expected};
ghost use Rattle.definitions.specs.declared.widths.TheConstants.{AMOUNT_COLUMN};
ghost use Rattle.definitions.specs.Page.{page_of};
ghost use Rattle.definitions.specs.Reply.{Stored, stored};
ghost use Rattle.definitions.specs.Decision.{standing};
ghost use Rattle.definitions.specs.Events.{Event, Reserved, order_under};
ghost use Rattle.definitions.specs.Rows.{act_function, running_rows};
ghost use Rattle.stock.specs.Pages.{PageFacts, IsSound};
ghost use Rattle.stock.specs.Shows.{Shows, sent_under};
ghost use Rattle.stock.specs.Puts.{put};
ghost use Rattle.stock.specs.declared.steps.Change.{Change};
ghost use Rattle.rules.specs.Decided.{IsPageOf, IsHeldPart, StandsFor};
ghost use Rattle.rules.specs.Defined.{IsDefined};
ghost use Rattle.rules.specs.Fitting.{IsFitting, has_columns};
ghost use Rattle.rules.specs.Given.{given_by, given_under};
ghost use Rattle.rules.specs.LegalPages.{IsLegalPage};
ghost use Rattle.rules.specs.Played.{CanFollow};
ghost use Rattle.definitions.specs.Need.{Need, need_of};
ghost use Rattle.stock.specs.Parts.{IsClosed, IsPart};
ghost use Rattle.rules.specs.Needs.{NamesFor};
ghost use Rattle.rules.specs.Naming.{named_of};
ghost use Rattle.set_effects.specs.Tabled.{stock_part, stock_puts, with_rows};

/// The reply to a command looks at the own entries of the depositor that it names, and at no
/// other's.
pub fn replies_look_at_own_entries()
    ensures { (r : Rules) (W : Who) (K L : List Entry) (c : Command) (t : Moment)
        → ((d : Who) → depositor_of c ≡ Some d → own K d ≡ own L d)
        → reply_to r W K c t ≡ reply_to r W L c t }
{}

/// An interchange that is known with the same bytes is answered with the text that went out for it,
/// and nothing comes of it.
pub fn a_known_interchange_is_answered_again()
    ensures { (r : Rules) (W : Who) (L : List Entry) (text : List ℕ) (t : Moment) (k : Known)
        → known (interchange_mark (isa text 13)) (own_of L (Interchange text)) ≡ Some k
        → k.entry.deed ≡ Received text
        → (reply_to r W L (Interchange text) t ≡ Stored (stored W k))
        × (after r W L (Interchange text, t) ≡ L) }
{}

/// An act that is known under its ticket is answered with its document, and nothing comes of it.
pub fn a_known_act_is_answered_again()
    ensures { (r : Rules) (W : Who) (L : List Entry) (w : Who) (ticket : List ℕ) (act : Act)
        (t : Moment) (k : Known)
        → known (ticket_mark ticket) (own L w) ≡ Some k
        → k.entry.deed ≡ Performed ticket act
        → (reply_to r W L (Clerk w ticket act) t ≡ Stored (stored W k))
        × (after r W L (Clerk w ticket act, t) ≡ L) }
{}

/// Each entry of a legal register can be replayed after those of its depositor that stand before
/// it.
pub fn legal_entries_can_be_replayed()
    ensures { (r : Rules) (W : Who) (L before : List Entry) (e : Entry) (back : List Entry)
        → IsLegal r W L
        → L ≡ before ++ e ∷ back → CanFollow (own before e.who) e }
{}

/// Each entry of a legal register, given again under its own rules after those before it, makes the
/// same entry; so the register is left by its own entries, given in turn, and each is of a command
/// that can be given under its rules.
pub fn legal_entries_can_be_given_again()
    ensures again { (r : Rules) (W : Who) (L before : List Entry) (e : Entry) (back : List Entry)
        → IsLegal r W L → L ≡ before ++ e ∷ back
        → after e.rules W before (given_by e, e.moment) ≡ before ++ e ∷ [] }
    ensures command { (r : Rules) (W : Who) (L before : List Entry) (e : Entry) (back : List Entry)
        → IsLegal r W L → L ≡ before ++ e ∷ back → is_command e.rules (given_by e) ≡ true }
    ensures all { (r : Rules) (W : Who) (L : List Entry) → IsLegal r W L
        → left_by W [] (map given_under L) ≡ L }
{}

/// The rows of a page are those that the definitions give for the events that it stands for, by
/// item and lot bytes.
pub fn rows_are_the_running_rows()
    ensures { (p : PageFacts) (es : List Event) → IsSound p → Shows p es
        → p.rows ≡ running_rows es }
{}

/// The rows of pairs among the changes of an event lead from a depositor's rows of the table
/// `stock` to those of one event more.
pub fn changed_rows_lead_on_in_the_table()
    ensures { (w : Who) (p : PageFacts) (es fs : List Event) (cs : List Change) → IsSound p
        → Shows p es
        → IsSound (put cs p) → Shows (put cs p) fs
        → with_rows (stock_part w (running_rows es)) (stock_puts w cs) ≡ stock_part w
        (running_rows fs) }
{}

/// In a legal register the events of a depositor say of an act's number which document it sent, and
/// of any other entry's number that there is none.
pub fn events_say_what_was_sent()
    ensures acts { (r : Rules) (W : Who) (L : List Entry) (w : Who) (before : List Entry)
        (e : Entry) (back : List
        Entry) (ticket : List ℕ) (act : Act) → IsLegal r W L
        → own L w ≡ before ++ e ∷ back → e.deed ≡ Performed ticket act
        → sent_under (next_number before) (events (own L w)) ≡ Some (act_function act) }
    ensures others { (r : Rules) (W : Who) (L : List Entry) (w : Who) (before : List Entry)
        (e : Entry) (back : List
        Entry) (text : List ℕ) → IsLegal r W L
        → own L w ≡ before ++ e ∷ back → e.deed ≡ Received text
        → sent_under (next_number before) (events (own L w)) ≡ None }
{}

/// A page that stands for the own entries of a depositor of a legal register is the one that the
/// definitions give for them.
pub fn pages_are_the_defined_ones()
    ensures { (r : Rules) (W : Who) (L : List Entry) (w : Who) (p : PageFacts) → IsLegal r W L
        → IsSound p
        → IsPageOf p (history (own L w)) → IsDefined p (page_of (own L w)) }
{}

/// The part of a page that a command's need names has what the command needs.
pub fn what_is_named_is_needed()
    ensures { (P : PageFacts) → IsSound P → (p : PageFacts) (c : Command)
        → IsPart (named_of (need_of c) P) p P → NamesFor (named_of (need_of c) P) p c }
{}

/// A need names with an advice the items of its lines, and with an order those of what is reserved
/// for it; so the part that it names of a page is a page.
pub fn what_is_named_is_closed()
    ensures { (P : PageFacts) → IsSound P → (need : Need) → IsClosed (named_of need P) P }
{}

/// A whole page is the part of itself that is needed, whatever is.
pub fn a_whole_page_is_a_part_of_itself()
    ensures { (need : Need) (P : PageFacts) (h : History) → IsSound P → IsPageOf P h
        → IsHeldPart need P h }
{}

/// The part that a command's need names of a depositor's page is all that a decision on it is
/// given.
pub fn a_part_stands_for_its_page()
    ensures { (c : Command) (page : PageFacts) (h : History) → IsHeldPart (need_of c) page h
        → StandsFor c (Some page) (Some h) }
{}

/// A depositor of a legal register has a page: a sound one of its own entries, with no event since
/// the last of them.
pub fn a_legal_register_has_pages()
    ensures { (r : Rules) (W : Who) (L : List Entry) (w : Who) (h : History) → IsLegal r W L
        → standing (own L w) ≡ Some h
        → (P : PageFacts) × IsLegalPage P h }
{}

/// What the page of a depositor of a legal register lists fits the rules with which the version of
/// its book begins: so many lines of an advice at most, quantities within their limit, and numbers
/// of entries.
pub fn what_a_page_lists_fits()
    ensures { (r : Rules) (W : Who) (L : List Entry) (w : Who) → IsLegal r W L
        → IsFitting r (page_of (own L w)) }
{}

/// No more is ever expected of a pair of a depositor of a legal register than `most_expected`: a
/// line of it in each set of each numbered entry. That has a place in the reports, and fits 64
/// bits.
pub fn what_is_expected_is_bounded()
    ensures within { (r : Rules) (W : Who) (L : List Entry) (w : Who) → IsLegal r W L
        → IsExpectedWithin (events (own L w)) }
    ensures fits { (most_expected < 10 ^ AMOUNT_COLUMN) × (most_expected < 2 ^ 64) }
{}

/// The quantities of an order, and of what was reserved for it, have the places of the picking
/// sheet's column.
pub fn an_order_fits_the_picking_sheet()
    ensures { (M : List Entry) (number : List ℕ) (o : Reserved)
        → order_under number (events M) ≡ Some o
        → has_columns o ≡ true }
{}

/// Of each depositor of a legal register no balance is below 0, no more of a pair is reserved than
/// is on hand, and each balance fits 64 bits.
pub fn goods_of_a_legal_register_are_covered()
    ensures covered { (r : Rules) (W : Who) (L : List Entry) (w : Who) → IsLegal r W L
        → IsCovered (events (own L w)) }
    ensures fits { (r : Rules) (W : Who) (L : List Entry) (w : Who) → IsLegal r W L
        → (c : Column) (item lot : List ℕ) → balance (events (own L w)) c item lot < 2 ^ 64 }
{}
