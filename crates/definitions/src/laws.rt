//! Laws of the definitions: nothing runs, each contract is a law.
ghost use Rattle.std.specs.Prelude.{is_none, ◌≡◌, ◌++◌, ◌==◌, ◌<◌, ◌+◌, ◌-◌, ℕ, true, false, List, [], ◌∷◌, Some, None, length, flat_map, min, slice_index, take, sum, map, Ok, IsPermutation, option_and_then};
ghost use Rattle.std.specs.List.{AllByRecursion, list_all};
ghost use Rattle.definitions.specs.declared.rules.Rules.{Rules};
ghost use Rattle.definitions.specs.declared.rules.Rules.TheVariants.{One, Two};
ghost use Rattle.definitions.specs.Bytes.{Delims, is_data, is_one_of};
ghost use Rattle.definitions.specs.Cut.{Segment, IsCut, IsWritten, cut, element, id_of, last_segment, spelled};
ghost use Rattle.definitions.specs.Moments.{Moment, is_moment, stamp};
ghost use Rattle.definitions.specs.Header.{Who, are_delimiters, delims_of, is_partner, is_unreadable, who_of, who_text, places, separator_offsets, offsets_from};
ghost use Rattle.definitions.specs.Words.{Words, kind_words, IsViable, IsShortestCompletion, is_viable, words_after_all, shortest};
ghost use Rattle.definitions.specs.declared.sheet_kind.SheetKind.{SheetKind};
ghost use Rattle.definitions.specs.declared.set_kind.SetKind.{SetKind};
ghost use Rattle.definitions.specs.declared.set_kind.SetKind.TheVariants.{ShippingOrder, ShipmentAdvice, FunctionalAcknowledgment};
ghost use Rattle.definitions.specs.Faults.{SetFault, IsOutOfPlace, IsSetFault, inner_fault, place_fault, segment_fault, set_fault, fault_from};
ghost use Rattle.definitions.specs.Halt.{structure_note};
ghost use Rattle.definitions.specs.Structure.{IsParts, Set, envelope_fault, groups_of};
ghost use Rattle.definitions.specs.Register.{Act, Command, Entry, is_first, never_fall, mark, command_mark, canonical, own};
ghost use Rattle.definitions.specs.Allotment.{allot, lots_of};
ghost use Rattle.definitions.specs.Elements.{lot_rows, plain_lot_rows};
ghost use Rattle.definitions.specs.First.{HasFirstLimits, lots_since, undated_fault, undated_line, undated_record, nine_tables};
ghost use Rattle.definitions.specs.Reports.{stock_line, stock_record};
ghost use Rattle.definitions.specs.Clerk.{is_act, is_sheet, sheet_of, line_of, RawLine};
ghost use Rattle.definitions.specs.Means.{Advice, Line, acknowledgment_of, advice_of, order_of};
ghost use Rattle.definitions.specs.Events.{Event, advice_fault, expiry};
ghost use Rattle.definitions.specs.History.{events};
ghost use Rattle.definitions.specs.Readings.{moment_of, act_of, first_act};
ghost use Rattle.definitions.specs.Refusals.{Refusal, Fault, is_note, refusal_number, refusal_numbered, fault_number, fault_numbered};
ghost use Rattle.definitions.specs.Reply.{reply};
ghost use Rattle.definitions.specs.Decision.{recalled, standing, reply_by};
ghost use Rattle.definitions.specs.Accepted.{entry_of, is_command, IsLegal, Ruled, left_by, each_given, none_falls};
ghost use Rattle.definitions.specs.Tables.{entry_table, entry_rules_table, tables};
ghost use Rattle.definitions.specs.Schema.{Contents, Stands, later_schemas};
ghost use Rattle.definitions.specs.Changes.{rules_put};
ghost use Rattle.definitions.specs.Carried.{carried};
ghost use Rattle.definitions.specs.Rows.{StockRow, stock_rows, shown_row};
ghost use Rattle.definitions.specs.Page.{Page, page_of};
ghost use Rattle.definitions.specs.Need.{Need, AgreeOn, Covers, is_number_of, need_of_segments, part};

/// A command has the mark of the entry that it makes.
pub fn command_has_the_mark_of_its_entry()
    ensures { (r : Rules) (c : Command) (t : Moment) → mark (entry_of r c t) ≡ command_mark c }
{}

/// A moment is read from what is written of it.
pub fn moments_are_read_back()
    ensures { (t : Moment) → is_moment t ≡ true → moment_of (stamp t) ≡ Some t }
{}

/// A partner is read from its text.
pub fn partners_are_read_back()
    ensures { (w : Who) → is_partner w ≡ true → who_of (who_text w) ≡ Some w }
{}

/// A fault, and a refusal that is no note, is the one of its number.
pub fn numbers_lead_back()
    ensures { ((r : Refusal) → is_note r ≡ false → refusal_numbered (refusal_number r) ≡ Some r)
        × ((f : Fault) → fault_numbered (fault_number f) ≡ Some f) }
{}

/// An act is read from its canonical text.
pub fn acts_are_read_back()
    ensures { (r : Rules) (act : Act) → is_act r act ≡ true → act_of r (canonical act) ≡ Some act }
{}

/// The act that a text of an entry under rules 1 records is the one that is read under rules 2,
/// where that is an act of rules 1.
pub fn acts_are_read_by_their_rules()
    ensures { (text : List ℕ) → act_of One text ≡ option_and_then first_act (act_of Two text) }
{}

/// The rules of a legal register's entries never fall.
pub fn rules_never_fall()
    ensures { (r : Rules) (W : Who) (L : List Entry) → IsLegal r W L → never_fall One L ≡ true }
{}

/// What commands leave, each under its own rules, is a legal register where these never fall.
pub fn rising_rules_are_legal()
    ensures { (W : Who) (cs : List Ruled) → is_partner W ≡ true → each_given cs ≡ true
        → none_falls One cs ≡ true → IsLegal Two W (left_by W [] cs) }
{}

/// The rows of the entries and of their rules determine a legal register, and those of the entries
/// alone one of version 1.
pub fn entries_determine_the_register()
    ensures { (V W : Who) (L M : List Entry)
        → (IsLegal Two V L → IsLegal Two W M → entry_table L ≡ entry_table M
        → entry_rules_table L ≡ entry_rules_table M → L ≡ M)
        × (IsLegal One V L → IsLegal One W M → entry_table L ≡ entry_table M → L ≡ M) }
{}

/// The reply looks at a depositor's history and the entry of the command's mark alone.
pub fn reply_looks_at_little()
    ensures { (r : Rules) (W : Who) (M : List Entry) (c : Command) (t : Moment)
        → reply r W M c t ≡ reply_by r W (standing M) (recalled W (command_mark c) M) c t }
{}

/// Every text has a cut.
pub fn has_a_cut()
    ensures { (d : Delims) (text : List ℕ)
        → IsCut d text ((cut d text).segments) ((cut d text).rest) }
{}

/// It has no other.
pub fn has_one_cut()
    ensures { (d : Delims) (text : List ℕ) (ss : List Segment) (rest : List ℕ)
        → (d.separator == d.terminator) ≡ false → IsCut d text ss rest
        → cut d text ≡ record { segments = ss; rest = rest } }
{}

/// Segments that were written are the one cut of their text.
pub fn written_is_cut_again()
    ensures { (d : Delims) (ss : List Segment) → (d.separator == d.terminator) ≡ false
        → AllByRecursion (IsWritten d) ss
        → cut d (flat_map (spelled d) ss) ≡ record { segments = ss; rest = [] } }
{}

/// Elements of data characters, of which the last isn't empty, may be written as a segment: by the
/// law before, what is written of them is cut into just these again.
pub fn data_elements_may_be_written()
    ensures { (d : Delims) (es : Segment) → are_delimiters d ≡ true
        → list_all (list_all (is_data d)) es ≡ true → 0 < length (element es (length es - 1))
        → IsWritten d es }
{}

/// Ids are viable exactly where they begin a word.
pub fn viable_begins_a_word()
    ensures { (w : Words) (ids : List (List ℕ)) → (is_viable w ids ≡ true → IsViable w ids)
        × (IsViable w ids → is_viable w ids ≡ true) }
{}

/// What is found to complete ids does, and nothing shorter does.
pub fn shortest_completes()
    ensures { (w : Words) (ids more : List (List ℕ)) → shortest (words_after_all w ids) ≡ Some more
        → IsShortestCompletion w ids more }
{}

/// The fault of a set is that of its first segment with one.
pub fn fault_is_the_first()
    ensures { (r : Rules) (d : Delims) (words : Words) (ss : List Segment) (f : SetFault)
        → (set_fault r d words ss ≡ Some f → IsSetFault r d words ss f) × (IsSetFault r d words ss f
        → set_fault r d words ss ≡ Some f) }
{}

/// It is found in one pass.
pub fn fault_by_one_pass()
    ensures { (r : Rules) (d : Delims) (words : Words) (ss : List Segment)
        → set_fault r d words ss ≡ fault_from r d words words [] 1 ss }
{}

/// Each lot gives what is still wanted after the lots before it, as far as it is free.
pub fn share_of_a_lot()
    ensures { (free : List ℕ) (w j : ℕ)
        → slice_index (allot free w) j ≡ min (slice_index free j) (w - sum (take j free)) }
{}

/// The offsets of ISA's elements follow from the widths, and a separator stands after each but the
/// last.
pub fn offsets_follow_from_widths()
    ensures { (map (λ p. p.0) places ≡ offsets_from 0 (map (λ p. p.1) places))
        × (separator_offsets ≡ map (λ p. p.0 + p.1) (take 16 places)) }
{}

/// A sheet is one of its kind, with just the lines that were given.
pub fn sheet_has_the_lines()
    ensures { (r : Rules) (kind : SheetKind) (raw : List RawLine) (ls : List Line)
        → sheet_of r kind raw ≡ Ok ls → (is_sheet r kind ls ≡ true)
        × IsPermutation (map line_of raw) ls }
{}

/// Rows of tables stand for one warehouse and one register alone, in one version.
pub fn rows_stand_for_one_register()
    ensures { (rows : Contents) (V W : Who) (L M : List Entry)
        → (Stands Two V L rows → Stands Two W M rows → (V ≡ W) × (L ≡ M))
        × (Stands One V L rows → Stands One W M rows → (V ≡ W) × (L ≡ M))
        × (Stands One V L rows → Stands Two W M rows → ⊥) }
{}

/// The stock that is shown is the page's, without its sinces.
pub fn stock_is_the_page()
    ensures { (M : List Entry) → stock_rows M ≡ map shown_row (page_of M).rows }
{}

/// The segments of a text that can be read, and of which no condition on the segments holds, are
/// ISA, its groups and IEA put together.
pub fn parts_are_put_together()
    ensures { (text : List ℕ) → is_unreadable text ≡ false → structure_note text ≡ None
        → IsParts ((cut (delims_of text) text).segments) (groups_of
        ((cut (delims_of text) text).segments)) }
{}

/// A segment is out of place exactly where its id and those before it begin no word.
pub fn place_is_by_words()
    ensures { (r : Rules) (d : Delims) (words : Words) (before : List Segment) (s : Segment)
        → (IsViable words (map id_of before ++ id_of s ∷ [])
        → segment_fault r d words before s
        ≡ inner_fault r d (id_of (last_segment before)) (length before + 1)
        s)
        × (IsOutOfPlace words before s
        → segment_fault r d words before s ≡ Some (place_fault r words
        (words_after_all words (map id_of before)) (length before + 1) (id_of s))) }
{}

/// A set without fault names what it says: the shipment number, the order's number, the document's
/// number.
pub fn sets_name_what_they_say()
    ensures { (r : Rules) (d : Delims) (earlier : List (List ℕ)) (s : Set)
        → (envelope_fault (Some ShipmentAdvice) earlier s ≡ None
        → set_fault r d (kind_words r ShipmentAdvice) s.segments ≡ None
        → is_one_of (need_of_segments s.segments).shipments (advice_of s.segments).shipment ≡ true)
        × (envelope_fault (Some ShippingOrder) earlier s ≡ None
        → set_fault r d (kind_words r ShippingOrder) s.segments ≡ None
        → is_one_of (need_of_segments s.segments).orders (order_of s.segments).number ≡ true)
        × (envelope_fault (Some FunctionalAcknowledgment) earlier s ≡ None
        → set_fault r d (kind_words r FunctionalAcknowledgment) s.segments ≡ None
        → is_number_of (need_of_segments s.segments).documents
        (acknowledgment_of s.segments).document ≡ true) }
{}

/// A page agrees with its part on what that was made for.
pub fn page_agrees_with_its_part()
    ensures { (need : Need) (P : Page) → AgreeOn need (part P need) P }
{}

/// Of a part that names more the part is that of the page.
pub fn part_of_a_part()
    ensures { (bigger smaller : Need) (P : Page) → Covers bigger smaller
        → part (part P bigger) smaller ≡ part P smaller }
{}

/// Pages that agree on more agree on less.
pub fn agreement_goes_down()
    ensures { (bigger smaller : Need) (P Q : Page) → Covers bigger smaller → AgreeOn bigger P Q
        → AgreeOn smaller P Q }
{}

/// A set without fault under rules 1 is one under rules 2.
pub fn sets_stay_without_fault()
    ensures { (d : Delims) (kind : SetKind) (ss : List Segment)
        → set_fault One d (kind_words One kind) ss ≡ None
        → set_fault Two d (kind_words Two kind) ss ≡ None }
{}

/// What is an act under rules 1 is one under rules 2.
pub fn acts_stay_acts()
    ensures { (act : Act) → is_act One act ≡ true → is_act Two act ≡ true }
{}

/// What can be given under rules 1 can be given under rules 2.
pub fn commands_stay_commands()
    ensures { (c : Command) → is_command One c ≡ true → is_command Two c ≡ true }
{}

/// Of entries that are all under rules 1 no pair has an expiry.
pub fn first_entries_give_no_expiry()
    ensures { (M : List Entry) (item lot : List ℕ) → list_all is_first M ≡ true
        → expiry (events M) item lot ≡ None }
{}

/// Under rules 1 no pair has an expiry.
pub fn first_rules_give_no_expiry()
    ensures { (W : Who) (L : List Entry) (w : Who) (item lot : List ℕ) → IsLegal One W L
        → expiry (events (own L w)) item lot ≡ None }
{}

/// Rules 1 are by themselves what they were before there were others, wherever rules decide
/// something: the limits, the elements of a lot, the order of lots, an advice, which has no expiry
/// and no fault for one, a row of the stock report and of the export, and the tables of a book of
/// version 1 and what an entry puts into them. The definitions tell rules apart nowhere else.
pub fn first_rules_stay()
    ensures limits { HasFirstLimits }
    ensures elements { (previous : List ℕ) → lot_rows One previous ≡ plain_lot_rows }
    ensures lots { (es : List Event) (item : List ℕ) → lots_of One es item ≡ lots_since es item }
    ensures undated { (d : Delims) (ss : List Segment)
        → set_fault One d (kind_words One ShipmentAdvice) ss ≡ None
        → list_all (λ l. is_none l.expiry) (advice_of ss).lines ≡ true }
    ensures faults { (es : List Event) (a : Advice)
        → list_all (λ l. is_none l.expiry) a.lines ≡ true
        → advice_fault es a ≡ undated_fault es a }
    ensures shown { (row : StockRow) → (stock_line One row ≡ undated_line row)
        × (stock_record One row ≡ undated_record row) }
    ensures schemas { later_schemas One ≡ [] }
    ensures tables { (W : Who) (L : List Entry) → tables One W L ≡ nine_tables W L }
    ensures put { (L : List Entry) (e : Entry) → rules_put One L e ≡ [] }
{}

/// What is carried over of a book of version 1 stands for the same register in version 2.
pub fn carried_books_stand()
    ensures { (rows : Contents) (W : Who) (L : List Entry) → Stands One W L rows
        → Stands Two W L (carried rows) }
{}
