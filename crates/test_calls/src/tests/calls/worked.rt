//! The worked example that the calls have in common: ZZ ACME announces 100 BOLT to ZZ WHSE1 on
//! 2025-03-04, and 90 are counted.
use definitions::TODAY;
use std::alloc::Global;
use std::test::Fail;
use store::{
    Act, Command, Fault, Keeper, Line, Moment, ReplayBook, Reply, Sheet, SheetKind, Warehouse, Who,
    submit,
};

// 943 of one line, under control number 1: 255 bytes.
pub(crate) const ADVICE: &[u8] =
    b"ISA*00*          *00*          *ZZ*ACME           *ZZ*WHSE1          *250304*0915*U*00401*000000001*1*P*>~GS*AR*ACME*WHSE1*20250304*0915*1*X*004010~ST*943*0001~W06*F*PO77*20250303*SHP1~W04*100*EA**SK*BOLT~N9*LT*L1~W03*100~SE*6*0001~GE*1*1~IEA*1*000000001~";

// Its answer under number 1 at 09:15: 265 bytes.
pub(crate) const ANSWER: &[u8] =
    b"ISA*00*          *00*          *ZZ*WHSE1          *ZZ*ACME           *250304*0915*U*00401*000000001*0*P*>~TA1*000000001*250304*0915*A*000~GS*FA*WHSE1*ACME*20250304*0915*1*X*004010~ST*997*0001~AK1*AR*1~AK2*943*0001~AK5*A~AK9*A*1*1*1~SE*6*0001~GE*1*1~IEA*1*000000001~";

// The 944 of the count of 90 of it, under number 2 at the same moment: 259 bytes.
pub(crate) const RECEIPT: &[u8] =
    b"ISA*00*          *00*          *ZZ*WHSE1          *ZZ*ACME           *250304*0915*U*00401*000000002*0*P*>~GS*RE*WHSE1*ACME*20250304*0915*2*X*004010~ST*944*0001~W17*F*20250304*2*PO77*SHP1~W07*90*EA**SK*BOLT~N9*LT*L1~W14*90*100~SE*6*0001~GE*1*2~IEA*1*000000002~";

// What fails a test that met a fault.
pub(crate) fn failed(fault: Fault) -> Fail {
    Fail::new(format_args!("fault {}", fault.number()))
}

// What a call answered, where a fault fails the test.
pub(crate) fn faultless<T>(answer: Result<T, Fault>) -> Result<T, Fail> {
    match answer {
        Ok(value) => Ok(value),
        Err(fault) => Err(failed(fault)),
    }
}

pub(crate) fn house() -> Result<Warehouse, Fail> {
    match Who::new(b"ZZ-WHSE1") {
        Some(who) => Ok(Warehouse::new(who)),
        None => Err("a warehouse".into()),
    }
}

pub(crate) fn acme() -> Result<Who, Fail> {
    Ok(Who::new(b"ZZ-ACME").ok_or("a depositor")?)
}

pub(crate) fn morning() -> Result<Moment, Fail> {
    Ok(Moment::new(2025, 3, 4, 9, 15).ok_or("a moment")?)
}

// A book in memory, of which nobody is a depositor.
pub(crate) fn empty(alloc: Global) -> Result<ReplayBook, Fail> {
    Ok(ReplayBook::new(alloc, house()?))
}

// A sheet of one line: 90 of BOLT, L1.
pub(crate) fn ninety(alloc: Global, kind: SheetKind) -> Result<Sheet, Fail> {
    let mut lines = Vec::new(alloc);
    lines.push(Line::new(
        b"BOLT".to_vec(alloc)?,
        b"L1".to_vec(alloc)?,
        b"90".to_vec(alloc)?,
    ))?;
    match Sheet::new(kind, lines, TODAY) {
        Ok(sheet) => Ok(sheet),
        Err(_) => Err("a sheet".into()),
    }
}

// The count of the advice under a ticket.
pub(crate) fn count<'a>(who: Who, ticket: &'a [u8], sheet: &'a Sheet) -> Command<'a> {
    Command::Clerk {
        who,
        ticket,
        act: Act::Count {
            shipment: b"SHP1",
            sheet,
        },
    }
}

// Whether the reply is an acceptance, with this text.
pub(crate) fn is_accepted(reply: &Reply, want: &[u8]) -> bool {
    match reply {
        Reply::Accepted(text) => text.as_slice() == want,
        _ => false,
    }
}

// Whether the reply is stored, with this text.
pub(crate) fn is_stored(reply: &Reply, want: &[u8]) -> bool {
    match reply {
        Reply::Stored(text) => text.as_slice() == want,
        _ => false,
    }
}

// Whether a book accepts a command, and answers it with this text.
pub(crate) fn accepts<K: Keeper>(
    alloc: Global,
    book: &mut K,
    command: &Command<'_>,
    moment: Moment,
    text: &[u8],
) -> bool {
    match submit(alloc, book, command, moment) {
        Ok(reply) => is_accepted(&reply, text),
        Err(_) => false,
    }
}

// Whether a book enrols a depositor. (A function that holds a command is proved only where it has a
// type parameter: else the checker isn't told which modules hold an act.)
pub(crate) fn enrols<K: Keeper>(alloc: Global, book: &mut K, who: Who, moment: Moment) -> bool {
    accepts(alloc, book, &Command::Enrol(who), moment, b"")
}

// Whether a book takes the advice, and answers it.
pub(crate) fn takes<K: Keeper>(alloc: Global, book: &mut K, moment: Moment) -> bool {
    accepts(alloc, book, &Command::Interchange(ADVICE), moment, ANSWER)
}

// Whether a book takes the count of the advice, and sends the receipt.
pub(crate) fn counts<K: Keeper>(
    alloc: Global,
    book: &mut K,
    who: Who,
    sheet: &Sheet,
    moment: Moment,
) -> bool {
    accepts(alloc, book, &count(who, b"T1", sheet), moment, RECEIPT)
}

// The book of ZZ WHSE1, in which ZZ ACME is enrolled.
pub(crate) fn enrolled(alloc: Global, moment: Moment) -> Result<ReplayBook, Fail> {
    let acme = acme()?;
    let mut book = empty(alloc)?;
    if enrols(alloc, &mut book, acme, moment) {
        Ok(book)
    } else {
        Err("enrolled".into())
    }
}
