//! What a line of words asks for.
ghost use Rattle.std.specs.Prelude.{◌≡◌, IfOk, string_bytes};
ghost use Rattle.command_line.specs.Written.{endpoint_text};

use definitions::SheetKind;
use segments::Moment;
use std::alloc::{AllocError, Global};
use std::net::SocketAddr;

/// Where a line of words stands.
#[derive(Clone, Copy, PartialEq, Eq)]
pub enum Place {
    /// On the command line, after the program's name.
    Program,
    /// In a script.
    Script,
}

/// Where a server listens.
#[derive(Clone, Copy)]
pub enum Endpoint<'a> {
    /// At an IP address and a port.
    Inet(SocketAddr),
    /// At a socket in the file system, by its path: the rights of that say who may call.
    Unix(&'a str),
}

impl Endpoint<'_> {
    /// Its text, as a line says it. The one error is want of memory.
    pub fn text(&self, alloc: Global) -> Result<String, AllocError>
        ensures { IfOk result (λ text. string_bytes text ≡ endpoint_text self.now) }
    {
        match self {
            Endpoint::Inet(address) => address.to_string(alloc),
            Endpoint::Unix(path) => ["unix:", *path].concat(alloc),
        }
    }
}

/// What a line of words asks for.
#[derive(Clone, Copy)]
pub enum Words<'a> {
    /// Run the script in a file.
    Script {
        /// The file's name.
        file: &'a str,
    },
    /// Do something over a book.
    Over {
        /// The file with the book; None in a script, which has a book of its own.
        book: Option<&'a str>,
        /// How that file is opened.
        opening: Opening,
        /// What is done.
        task: Task<'a>,
    },
    /// Ask a running server for something.
    Remote {
        /// Where it listens.
        server: Endpoint<'a>,
        /// What is done, at no moment that the line says: `send`, `count`, `pick`, `recount`,
        /// each done or tried, `stock`, `open`, `orders`, `outbox` or `depositors`.
        task: Task<'a>,
    },
}

/// How the file with a book is opened.
#[derive(Clone, Copy)]
pub struct Opening {
    /// For how many seconds a book that is in use is waited for, 0 to 65535, if the line says it.
    pub wait: Option<u16>,
    /// Whether nothing is supposed of what a torn write leaves; else that each byte is old or new.
    pub is_wary: bool,
}

/// What is done over a book.
#[derive(Clone, Copy)]
pub enum Task<'a> {
    /// Make the book of a warehouse.
    Init {
        /// The warehouse, as `QQ-ID`.
        who: &'a str,
    },
    /// Change the book.
    Act {
        /// What is done.
        act: BookAct<'a>,
        /// The moment, if the line says one.
        at: Option<Moment>,
    },
    /// Tell what a change would be answered now, and leave the book as it is.
    Try {
        /// What would be done.
        act: BookAct<'a>,
        /// The moment, if the line says one.
        at: Option<Moment>,
    },
    /// Show something of the book.
    Show(Show<'a>),
    /// Write each document that went out to a depositor to a file of a folder.
    HandOn {
        /// The depositor, as `QQ-ID`.
        who: &'a str,
        /// The folder's name.
        dir: &'a str,
    },
    /// Do what the lines of a file ask for, one after the other.
    Batch {
        /// The file's name.
        file: &'a str,
    },
    /// Serve the book over HTTP.
    Serve {
        /// Where, and for how long.
        service: Service<'a>,
        /// The moment of each request, if the line says one.
        at: Option<Moment>,
    },
    /// Compare every table of the book with what its register gives.
    Verify {
        /// The seal that the first entries are to have, with their number, if the line says it.
        seal: Option<&'a str>,
    },
    /// Tell the seal of the book.
    Seal {
        /// Of how many entries, the first ones, if the line says it.
        first: Option<&'a str>,
    },
}

/// How often a line may name hosts by which a server is asked, at most.
pub const MOST_HOSTS: usize = 8;

/// Where a book is served, and for how long.
#[derive(Clone, Copy)]
pub struct Service<'a> {
    /// Where to listen.
    pub endpoint: Endpoint<'a>,
    /// Where to listen beside that, for clerks, if the line says it.
    pub clerks_at: Option<Endpoint<'a>>,
    /// How many connections are served, 1 to 65535, if the line says it.
    pub count: Option<u16>,
    /// How many seconds a request is waited for, and again its response, 1 to 65535, if the line
    /// says it.
    pub patience: Option<u16>,
    /// How many connections are there at once, 1 to 65535, if the line says it.
    pub peers: Option<u16>,
    /// Whether clerks' requests are taken too.
    pub clerks: bool,
    /// The names by which a request may call the server, in the order of the line, each one name or
    /// several with a comma between any two; after them the empty text.
    pub hosts: [&'a str; MOST_HOSTS],
    /// The field by which what stands in front says for whom it asks, if the line names one.
    pub from: Option<&'a str>,
}

/// What changes a book.
#[derive(Clone, Copy)]
pub enum BookAct<'a> {
    /// Enrol a depositor.
    Enrol {
        /// The depositor, as `QQ-ID`.
        who: &'a str,
    },
    /// Enrol the depositors of a list.
    Roster {
        /// The file with the list.
        file: &'a str,
    },
    /// Submit an interchange.
    Send {
        /// The file that holds its bytes.
        file: &'a str,
    },
    /// Submit each interchange of a folder.
    Take {
        /// The folder's name.
        dir: &'a str,
        /// The folder below which what was taken is moved with its answers, if the line says it.
        done: Option<&'a str>,
    },
    /// Tell what a clerk did.
    Clerk(ClerkWords<'a>),
}

/// What a clerk did, as the words tell it.
#[derive(Clone, Copy)]
pub struct ClerkWords<'a> {
    /// What was done.
    pub kind: SheetKind,
    /// The depositor, as `QQ-ID`.
    pub who: &'a str,
    /// The ticket.
    pub ticket: &'a str,
    /// The number of the advice or the order; nothing of a recount.
    pub number: &'a str,
    /// The file with the sheet.
    pub sheet: &'a str,
}

/// What can be shown of a book.
#[derive(Clone, Copy)]
pub enum Show<'a> {
    /// What is on hand.
    Stock {
        /// The depositor, as `QQ-ID`.
        who: &'a str,
        /// Whether it is shown as CSV.
        is_csv: bool,
    },
    /// What is open: advices that aren't counted, and orders that aren't picked.
    Open {
        /// The depositor, as `QQ-ID`.
        who: &'a str,
    },
    /// The receiving sheet of an advice.
    Advice {
        /// The depositor, as `QQ-ID`.
        who: &'a str,
        /// The advice's shipment number.
        number: &'a str,
        /// Whether it is shown as CSV, as a count takes it.
        is_csv: bool,
    },
    /// The picking sheet of an order.
    Order {
        /// The depositor, as `QQ-ID`.
        who: &'a str,
        /// The order's number.
        number: &'a str,
        /// Whether it is shown as CSV, as a pick takes it.
        is_csv: bool,
    },
    /// What went out.
    Outbox {
        /// The depositor, as `QQ-ID`.
        who: &'a str,
        /// The number of the one text that is asked for, 1 to 999,999; None for the list.
        number: Option<u32>,
    },
    /// Who is enrolled.
    Depositors,
}

/// Why a line of words asks for nothing.
#[derive(Drop)]
pub enum LineFault {
    /// It can't be read; the text says why.
    Usage(String),
    /// It asks for help, which is this text.
    Help(String),
    /// A growth was refused.
    OutOfMemory,
}

impl From<AllocError> for LineFault {
    ghost use Rattle.command_line.specs.declared.words.LineFault.TheVariants.{OutOfMemory};

    ghost from_gives = { λ _ fault. fault ≡ OutOfMemory };

    fn from(_error: AllocError) -> LineFault {
        LineFault::OutOfMemory
    }
}
