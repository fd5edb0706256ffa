//! Laws of the layouts: nothing runs, each contract is a law.
ghost use Rattle.std.specs.Prelude.{◌≡◌, ◌∷◌, [], ℕ, true, List, Option, Some, codes, map};
ghost use Rattle.std.specs.List.{list_all, AllByRecursion};
ghost use Rattle.definitions.specs.Bytes.{Delims, is_data};
ghost use Rattle.definitions.specs.Cut.{cut, spelled};
ghost use Rattle.definitions.specs.Means.{Advice, Line, Order};
ghost use Rattle.definitions.specs.Moments.{Moment};
ghost use Rattle.definitions.specs.Header.{Who, is_partner, delims_of, are_delimiters};
ghost use Rattle.definitions.specs.History.{Telling};
ghost use Rattle.definitions.specs.Texts.{Told, own_delims, answer, answered, body_944, body_945, body_947, body_997, group_of_sets, receiver_of, refusal_interchange, set_of_segments, ta1, told_of};
ghost use Rattle.sets_out.specs.Documents.{AdjustedLine, Receipt, Shipment, adjusted_for, adjustment_body, receipt_body, receipt_for, shipment_body, shipment_for};
ghost use Rattle.sets_out.specs.Handed.{function_of, number_of, body_of};
ghost use Rattle.sets_out.specs.Headings.{Heading, heading_of, ta1_of};
ghost use Rattle.sets_out.specs.Inside.{IsInside, IsHeadingInside, IsToldInside, IsReceiptOwn, IsShipmentOwn, IsAdjustedOwn, IsDocumentOwn, IsCutAgain};
ghost use Rattle.sets_out.specs.Interchanges.{answer_of, between, groups_for, interchange_segments, refusal_of};
ghost use Rattle.sets_out.specs.declared.sheets.Document.{Document};

/// A TA1 looks at what an answer repeats of ISA, and at nothing else of the text.
pub fn ta1_looks_at_the_heading()
    ensures { (text : List ℕ) (note : Option ℕ) → ta1 text note ≡ ta1_of (heading_of text) note }
{}

/// The answer to an interchange is made of its heading and of what its groups are told.
pub fn answer_is_of_what_is_told()
    ensures { (W w : Who) (t : Moment) (n : ℕ) (text : List ℕ) (ts : List Telling)
        → answer W w t n text ts ≡ answer_of (delims_of text) W w t n (heading_of text) (map told_of
        (answered ts)) }
{}

/// A refusal is made of the heading.
pub fn refusal_is_of_the_heading()
    ensures { (W : Who) (text : List ℕ) (t : Moment) (note : ℕ)
        → refusal_interchange W text t note ≡ refusal_of (delims_of text) W t (heading_of text)
        note }
{}

/// A 944 is made of the advice that a count closes and of its sheet.
pub fn receipt_is_of_the_count()
    ensures { (t : Moment) (n : ℕ) (a : Advice) (sheet : List Line)
        → body_944 t n a sheet ≡ receipt_body t n (receipt_for a sheet) }
{}

/// A 945 is made of the order that a pick closes and of its sheet.
pub fn shipment_is_of_the_pick()
    ensures { (t : Moment) (n : ℕ) (o : Order) (sheet : List Line)
        → body_945 t n o sheet ≡ shipment_body t n (shipment_for o sheet) }
{}

/// A 947 is made of what was on hand before and of the sheet of a recount.
pub fn adjustment_is_of_the_recount()
    ensures { (t : Moment) (n : ℕ) (before sheet : List Line)
        → body_947 t n before sheet ≡ adjustment_body t n (map (adjusted_for before) sheet) }
{}

/// Data bytes are neither separators nor terminators.
pub fn data_may_be_written()
    ensures { (d : Delims) (text : List ℕ) → list_all (is_data d) text ≡ true → IsInside d text }
{}

/// A TA1 is the one segment of the cut of its text.
pub fn ta1_is_cut_again()
    ensures { (d : Delims) (h : Heading) (note : Option ℕ) → are_delimiters d ≡ true
        → IsHeadingInside d h
        → cut d (spelled d (ta1_of h note)) ≡ record { segments = ta1_of h note ∷ []; rest = [] } }
{}

/// A 997 is the cut of its text.
pub fn acknowledgment_is_cut_again()
    ensures { (d : Delims) (place : ℕ) (t : Told) → are_delimiters d ≡ true → IsToldInside d t
        → IsCutAgain d (set_of_segments (codes "997") place (body_997 t)) }
{}

/// A 944 is the cut of its text.
pub fn receipt_is_cut_again()
    ensures { (t : Moment) (n : ℕ) (r : Receipt) → IsReceiptOwn r
        → IsCutAgain own_delims (set_of_segments (codes "944") 1 (receipt_body t n r)) }
{}

/// A 945 is the cut of its text.
pub fn shipment_is_cut_again()
    ensures { (t : Moment) (n : ℕ) (s : Shipment) → IsShipmentOwn s
        → IsCutAgain own_delims (set_of_segments (codes "945") 1 (shipment_body t n s)) }
{}

/// A 947 is the cut of its text.
pub fn adjustment_is_cut_again()
    ensures { (t : Moment) (n : ℕ) (ls : List AdjustedLine) → AllByRecursion IsAdjustedOwn ls
        → IsCutAgain own_delims (set_of_segments (codes "947") 1 (adjustment_body t n ls)) }
{}

/// An answer that isn't empty is the cut of its text.
pub fn answer_is_cut_again()
    ensures { (d : Delims) (W w : Who) (t : Moment) (n : ℕ) (h : Heading) (ts : List Told)
        → are_delimiters d ≡ true → is_partner W ≡ true → is_partner w ≡ true
        → IsHeadingInside d h → AllByRecursion (IsToldInside d) ts
        → IsCutAgain d (interchange_segments d W (receiver_of w) t n (between W w t n h ts)
        (groups_for ts)) }
{}

/// A refusal is the cut of its text.
pub fn refusal_is_cut_again()
    ensures { (d : Delims) (W : Who) (t : Moment) (h : Heading) (note : ℕ) → are_delimiters d ≡ true
        → is_partner W ≡ true
        → IsHeadingInside d h → IsInside d h.qualifier → IsInside d h.id
        → IsCutAgain d (interchange_segments d W (record {
          qualifier = h.qualifier;
          id = h.id;
        }) t 0 (ta1_of
        h (Some note) ∷ []) 0) }
{}

/// A document is the cut of its text.
pub fn document_is_cut_again()
    ensures { (W w : Who) (t : Moment) (n : ℕ) (document : Document) → is_partner W ≡ true
        → is_partner w ≡ true → IsDocumentOwn document
        → IsCutAgain own_delims (interchange_segments own_delims W (receiver_of w) t n
        (group_of_sets W w t n (function_of document) (number_of document)
        (body_of t n document ∷ [])) 1) }
{}
