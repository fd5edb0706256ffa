//! Texts that are judged: sets with one fault each, each beginning of an interchange, and the
//! widest rows of reports.
use super::calls::worked::{ADVICE, acme, empty, enrols, morning, takes};
use case_files::sets::{ACKNOWLEDGMENTS, ADVICES, LATER_ADVICES, LATER_ORDERS, ORDERS};
use case_files::spreading::spread;
use definitions::Rules;
use reports::{outbox_list, stock_csv, stock_report};
use segments::{Delims, ElementFault, Segment, SetFault, cut};
use std::alloc::{AllocError, Global};
use std::fmt::Write;
use std::test::Fail;
use store::{Command, DocumentState, Keeper, Moment, OutKind, OutRow, Reply, StockRow, submit};
use tables::{SetKind, is_closed, judge};

// The segments of a text with the delimiters of documents.
fn segments_of(alloc: Global, text: &[u8]) -> Result<Vec<Segment<'_>>, AllocError> {
    let mut segments = Vec::new(alloc);
    for segment in cut(text, Delims::of_documents()) {
        segments.push(segment)?;
    }
    Ok(segments)
}

// A fault as the cases write it.
fn told(alloc: Global, fault: &SetFault<'_>) -> Result<String, Fail> {
    let id = std::str::from_utf8(fault.id)?;
    let (position, code) = (fault.position, fault.code);
    match fault.element {
        Some(ElementFault { place, code: wrong }) => {
            Ok(format!(in alloc; "{id} {position} {code} {place} {wrong}")?)
        }
        None => Ok(format!(in alloc; "{id} {position} {code}")?),
    }
}

// What the judge finds in a set, as the cases write it.
fn found(alloc: Global, kind: SetKind, rules: Rules, set: &str) -> Result<String, Fail> {
    let text = spread(alloc, set)?;
    let segments = segments_of(alloc, text.as_bytes())?;
    if !is_closed(&segments) || segments.len() > 100_000 {
        return Err("an open set".into());
    }
    match judge(kind, &segments, rules) {
        Ok(_) => Ok("-".to_string(alloc)?),
        Err(fault) => told(alloc, &fault),
    }
}

// Fails at the first set of a text in which something else is found.
fn all_found(alloc: Global, kind: SetKind, rules: Rules, cases: &str) -> Result<(), Fail> {
    for case in cases.lines() {
        let (set, fault) = case.split_once(' ').ok_or("a fault")?;
        if found(alloc, kind, rules, set)?.as_str() != fault {
            return Err(Fail::new(format_args!("{case}")));
        }
    }
    Ok(())
}

#[test]
fn faults_of_sets_are_told(rt: HostRuntime) -> Result<(), Fail> {
    let alloc = rt.alloc();
    all_found(alloc, SetKind::ShipmentAdvice, Rules::One, ADVICES)?;
    all_found(alloc, SetKind::ShippingOrder, Rules::One, ORDERS)?;
    let acknowledgment = SetKind::FunctionalAcknowledgment;
    all_found(alloc, acknowledgment, Rules::One, ACKNOWLEDGMENTS)?;
    all_found(alloc, SetKind::ShipmentAdvice, Rules::Two, LATER_ADVICES)?;
    all_found(alloc, SetKind::ShippingOrder, Rules::Two, LATER_ORDERS)
}

// The note of an interchange that ends too early.
const ENDED: &[u8] =
    b"ISA*00*          *00*          *ZZ*WHSE1          *ZZ*ACME           *250304*0915*U*00401*000000000*0*P*>~TA1*000000001*250304*0915*R*023~IEA*0*000000000~";

// The advice with CR LF before each terminator: CR can't be one.
const EARLY: &[u8] =
    b"ISA*00*          *00*          *ZZ*ACME           *ZZ*WHSE1          *250304*0915*U*00401*000000001*1*P*>\r\n~GS*AR*ACME*WHSE1*20250304*0915*1*X*004010\r\n~ST*943*0001\r\n~W06*F*PO77*20250303*SHP1\r\n~W04*100*EA**SK*BOLT\r\n~N9*LT*L1\r\n~W03*100\r\n~SE*6*0001\r\n~GE*1*1\r\n~IEA*1*000000001\r\n~";

// Whether an interchange is refused so.
fn is_refused<K: Keeper>(
    alloc: Global,
    book: &mut K,
    text: &[u8],
    moment: Moment,
    (number, note): (u8, &[u8]),
) -> bool {
    match submit(alloc, book, &Command::Interchange(text), moment) {
        Ok(Reply::Refused { refusal, answer }) => {
            refusal.number() == number && answer.as_slice() == note
        }
        _ => false,
    }
}

// Fails at the first beginning of the advice that isn't refused: none can be read that is shorter
// than the header, and each other one ends too early.
fn all_refused<K: Keeper>(alloc: Global, book: &mut K, moment: Moment) -> Result<(), Fail> {
    for n in 0..ADVICE.len() {
        let want: (u8, &[u8]) = if n < 106 { (1, b"") } else { (2, ENDED) };
        if !is_refused(alloc, book, &ADVICE[..n], moment, want) {
            return Err(Fail::new(format_args!("{n}")));
        }
    }
    Ok(())
}

#[test]
fn beginnings_of_an_interchange_are_refused(rt: HostRuntime) -> Result<(), Fail> {
    let (alloc, acme, moment) = (rt.alloc(), acme()?, morning()?);
    let mut book = empty(alloc)?;
    assert!(rt; ADVICE.len() == 255 && enrols(alloc, &mut book, acme, moment));
    all_refused(alloc, &mut book, moment)?;
    assert!(rt; is_refused(alloc, &mut book, EARLY, moment, (1, b"")));
    assert!(rt; takes(alloc, &mut book, moment));
    Ok(())
}

// The widest row of stock, whose amounts no book comes to.
fn widest_row(alloc: Global) -> Result<StockRow, AllocError> {
    Ok(StockRow {
        item: b"ABCDEFGHIJKLMNOPQRST".to_vec(alloc)?,
        lot: b"ABCDEFGHIJKL".to_vec(alloc)?,
        expiry: Some(b"20991231".to_vec(alloc)?),
        expected: 999_999_999_999_999,
        on_hand: 999_999_999_999_999,
        reserved: 999_999_999_999_999,
        shipped: 999_999_999_999_999,
    })
}

// The last text that may go out.
fn last_text(alloc: Global) -> OutRow {
    OutRow {
        n: 999_999,
        kind: OutKind::Adjustment,
        content: Vec::new(alloc),
        state: DocumentState::Refused,
    }
}

#[test]
fn the_widest_rows_are_shown(rt: HostRuntime) -> Result<(), Fail> {
    let alloc = rt.alloc();
    let rows = [widest_row(alloc)?];
    assert!(rt;
        stock_report(alloc, &rows)?.as_slice()
            == b"item                 lot          expiry          expected         on hand        reserved         shipped\nABCDEFGHIJKLMNOPQRST ABCDEFGHIJKL 20991231 999999999999999 999999999999999 999999999999999 999999999999999\n".as_slice()
    );
    assert!(rt;
        stock_csv(alloc, &rows)?.as_slice()
            == b"item,lot,expiry,expected,on_hand,reserved,shipped\nABCDEFGHIJKLMNOPQRST,ABCDEFGHIJKL,20991231,999999999999999,999999999999999,999999999999999,999999999999999\n".as_slice()
    );
    assert!(rt;
        outbox_list(alloc, &[last_text(alloc)])?.as_slice() == b"999999 947 refused\n".as_slice()
    );
    Ok(())
}
