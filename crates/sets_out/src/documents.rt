ghost use Rattle.std.specs.Prelude.{◌≡◌, ◌++◌, ◌∷◌, [], codes, IfOk, OnOk, OnErr};
ghost use Rattle.definitions.specs.Texts.{document_text, group_of_sets, own_delims, set_of_segments, text_of};
ghost use Rattle.segments.specs.Extends.{Extends};
ghost use Rattle.sets_out.specs.Appends.{Writes};
ghost use Rattle.sets_out.specs.Documents.{receipt_body, shipment_body, adjustment_body};
ghost use Rattle.sets_out.specs.Handed.{function_of, number_of, body_of, receipt_of, shipment_of};

use crate::envelopes::{
    Envelope, append_ge, append_gs, append_iea, append_isa_to, append_se, append_st,
};
use crate::sheets::{AdjustedLine, Document, Receipt, Shipment};
use crate::{adjustments, receipts, shipments};
use segments::{Delims, Moment};
use std::alloc::AllocError;

// The functional identifier of a document's group.
fn function(document: &Document<'_>) -> &'static [u8]
    ensures { result.now ≡ function_of document.now }
{
    match document {
        Document::Received(_) => b"RE",
        Document::Shipped(_) => b"SW",
        Document::Adjusted(_) => b"AW",
    }
}

// The number of a document's set.
fn set_number(document: &Document<'_>) -> &'static [u8]
    ensures { result.now ≡ number_of document.now }
{
    match document {
        Document::Received(_) => b"944",
        Document::Shipped(_) => b"945",
        Document::Adjusted(_) => b"947",
    }
}

// Appends what a document has between ST and SE, or a beginning of that.
fn append_body(
    out: &mut Vec<u8>,
    delims: Delims,
    moment: &Moment,
    number: u32,
    document: &Document<'_>,
) -> Result<usize, AllocError>
    ensures ok { IfOk result (λ n. Writes delims out.old.items out.new.items
        (body_of moment.now number document.now) n) }
    ensures kept { Extends out.old.items out.new.items }
{
    match *document {
        Document::Received(receipt) => receipts::append_body(out, delims, moment, number, receipt),
        Document::Shipped(sent) => shipments::append_body(out, delims, moment, number, sent),
        Document::Adjusted(lines) => adjustments::append_body(out, delims, moment, number, lines),
    }
}

// Appends the set of a document, from ST to SE, or a beginning of it.
fn append_set(
    out: &mut Vec<u8>,
    delims: Delims,
    moment: &Moment,
    number: u32,
    document: &Document<'_>,
) -> Result<usize, AllocError>
    ensures ok { IfOk result (λ n. Writes delims out.old.items out.new.items
        (set_of_segments (number_of document.now) 1 (body_of moment.now number document.now)) n) }
    ensures kept { Extends out.old.items out.new.items }
{
    append_st(out, delims, set_number(document), 1)?;
    let body = append_body(out, delims, moment, number, document)?;
    append_se(out, delims, body + 2, 1)?;
    Ok(body + 2)
}

// Appends the set of a document, from ST to SE, or nothing.
fn write_set(
    out: &mut Vec<u8>,
    moment: &Moment,
    number: u32,
    document: &Document<'_>,
) -> Result<(), AllocError>
    ensures ok { OnOk result (out.new.items ≡ out.old.items ++ text_of own_delims
        (set_of_segments (number_of document.now) 1 (body_of moment.now number document.now))) }
    ensures err { OnErr result (out.new.items ≡ out.old.items) }
{
    let start = out.len();
    match append_set(out, Delims::of_documents(), moment, number, document) {
        Ok(_) => Ok(()),
        Err(e) => {
            out.truncate(start);
            Err(e)
        }
    }
}

/// Appends 944 Warehouse Stock Transfer Receipt Advice, from ST to SE, under its entry's moment and
/// number. After an error, AllocError, the vector holds what it held.
pub fn write_944(
    out: &mut Vec<u8>,
    moment: &Moment,
    number: u32,
    receipt: &Receipt<'_>,
) -> Result<(), AllocError>
    ensures ok { OnOk result (out.new.items ≡ out.old.items ++ text_of own_delims
        (set_of_segments (codes "944") 1 (receipt_body moment.now number
        (receipt_of receipt.now)))) }
    ensures err { OnErr result (out.new.items ≡ out.old.items) }
{
    write_set(out, moment, number, &Document::Received(receipt))
}

/// Appends 945 Warehouse Shipping Advice, from ST to SE, under its entry's moment and number. After
/// an error, AllocError, the vector holds what it held.
pub fn write_945(
    out: &mut Vec<u8>,
    moment: &Moment,
    number: u32,
    shipment: &Shipment<'_>,
) -> Result<(), AllocError>
    ensures ok { OnOk result (out.new.items ≡ out.old.items ++ text_of own_delims
        (set_of_segments (codes "945") 1 (shipment_body moment.now number
        (shipment_of shipment.now)))) }
    ensures err { OnErr result (out.new.items ≡ out.old.items) }
{
    write_set(out, moment, number, &Document::Shipped(shipment))
}

/// Appends 947 Warehouse Inventory Adjustment Advice, from ST to SE, under its entry's moment and
/// number: each of the lines that differs, as they stand. After an error, AllocError, the vector
/// holds what it held.
pub fn write_947(
    out: &mut Vec<u8>,
    moment: &Moment,
    number: u32,
    lines: &[AdjustedLine<'_>],
) -> Result<(), AllocError>
    ensures ok { OnOk result (out.new.items ≡ out.old.items ++ text_of own_delims
        (set_of_segments (codes "947") 1 (adjustment_body moment.now number lines.now))) }
    ensures err { OnErr result (out.new.items ≡ out.old.items) }
{
    write_set(out, moment, number, &Document::Adjusted(lines))
}

// Appends the group of a document, or a beginning of it.
fn append_group(
    out: &mut Vec<u8>,
    delims: Delims,
    envelope: &Envelope,
    document: &Document<'_>,
) -> Result<usize, AllocError>
    ensures ok { IfOk result (λ n. Writes delims out.old.items out.new.items
        (group_of_sets envelope.now.warehouse envelope.now.depositor envelope.now.moment
        envelope.now.number (function_of document.now) (number_of document.now)
        (body_of envelope.now.moment envelope.now.number document.now ∷ [])) n) }
    ensures kept { Extends out.old.items out.new.items }
{
    let first = append_gs(out, delims, envelope, function(document))?;
    let set = append_set(out, delims, &envelope.moment, envelope.number, document)?;
    let last = append_ge(out, delims, 1, envelope.number)?;
    Ok(first + set + last)
}

// Appends a document in its envelopes, or a beginning of it.
pub(crate) fn append_document(
    out: &mut Vec<u8>,
    envelope: &Envelope,
    document: &Document<'_>,
) -> Result<(), AllocError>
    ensures ok { OnOk result (out.new.items ≡ out.old.items
        ++ document_text envelope.now.warehouse envelope.now.depositor envelope.now.moment
        envelope.now.number
        (function_of document.now) (number_of document.now)
        (body_of envelope.now.moment envelope.now.number document.now)) }
    ensures kept { Extends out.old.items out.new.items }
{
    let delims = Delims::of_documents();
    append_isa_to(out, delims, envelope)?;
    append_group(out, delims, envelope, document)?;
    append_iea(out, delims, 1, envelope.number)?;
    Ok(())
}
