//! Requests and responses, byte for byte.

// An advice of one line, posted: 60 bytes of head, and 255.
pub const REQUEST: &[u8] =
    b"POST /x12 HTTP/1.1\r\nHost: localhost\r\nContent-Length: 255\r\n\r\nISA*00*          *00*          *ZZ*ACME           *ZZ*WHSE1          *250304*0915*U*00401*000000001*1*P*>~GS*AR*ACME*WHSE1*20250304*0915*1*X*004010~ST*943*0001~W06*F*PO77*20250303*SHP1~W04*100*EA**SK*BOLT~N9*LT*L1~W03*100~SE*6*0001~GE*1*1~IEA*1*000000001~";

// Its response: 94 bytes of head, and 265 of the answer.
pub const RESPONSE: &[u8] =
    b"HTTP/1.1 200 OK\r\nContent-Type: application/EDI-X12\r\nContent-Length: 265\r\nConnection: close\r\n\r\nISA*00*          *00*          *ZZ*WHSE1          *ZZ*ACME           *250304*0915*U*00401*000000001*0*P*>~TA1*000000001*250304*0915*A*000~GS*FA*WHSE1*ACME*20250304*0915*1*X*004010~ST*997*0001~AK1*AR*1~AK2*943*0001~AK5*A~AK9*A*1*1*1~SE*6*0001~GE*1*1~IEA*1*000000001~";

// The advice with 101 for 100, under the same control number.
pub const CHANGED: &[u8] =
    b"POST /x12 HTTP/1.1\r\nHost: localhost\r\nContent-Length: 255\r\n\r\nISA*00*          *00*          *ZZ*ACME           *ZZ*WHSE1          *250304*0915*U*00401*000000001*1*P*>~GS*AR*ACME*WHSE1*20250304*0915*1*X*004010~ST*943*0001~W06*F*PO77*20250303*SHP1~W04*101*EA**SK*BOLT~N9*LT*L1~W03*101~SE*6*0001~GE*1*1~IEA*1*000000001~";

// Its response where the advice came before.
pub const CONFLICT: &[u8] =
    b"HTTP/1.1 409 Conflict\r\nContent-Type: application/EDI-X12\r\nContent-Length: 154\r\nConnection: close\r\n\r\nISA*00*          *00*          *ZZ*WHSE1          *ZZ*ACME           *250304*0915*U*00401*000000000*0*P*>~TA1*000000001*250304*0915*R*025~IEA*0*000000000~";

// The first 105 bytes of the advice.
pub const CUT_OFF: &[u8] =
    b"POST /x12 HTTP/1.1\r\nHost: localhost\r\nContent-Length: 105\r\n\r\nISA*00*          *00*          *ZZ*ACME           *ZZ*WHSE1          *250304*0915*U*00401*000000001*1*P*>";

pub const UNREADABLE: &[u8] =
    b"HTTP/1.1 400 Bad Request\r\nContent-Type: text/plain\r\nContent-Length: 13\r\nConnection: close\r\n\r\n1 Unreadable\n";

// The advice with another number in its trailer than in its header.
pub const NOTED: &[u8] =
    b"POST /x12 HTTP/1.1\r\nHost: localhost\r\nContent-Length: 255\r\n\r\nISA*00*          *00*          *ZZ*ACME           *ZZ*WHSE1          *250304*0915*U*00401*000000007*1*P*>~GS*AR*ACME*WHSE1*20250304*0915*1*X*004010~ST*943*0001~W06*F*PO77*20250303*SHP1~W04*100*EA**SK*BOLT~N9*LT*L1~W03*100~SE*6*0001~GE*1*1~IEA*1*000000009~";

pub const NOTE: &[u8] =
    b"HTTP/1.1 422 Unprocessable Entity\r\nContent-Type: application/EDI-X12\r\nContent-Length: 154\r\nConnection: close\r\n\r\nISA*00*          *00*          *ZZ*WHSE1          *ZZ*ACME           *250304*0915*U*00401*000000000*0*P*>~TA1*000000007*250304*0915*R*001~IEA*0*000000000~";

// A 997 of a document.
pub const ACKNOWLEDGMENT: &[u8] =
    b"POST /x12 HTTP/1.1\r\nHost: localhost\r\nContent-Length: 233\r\n\r\nISA*00*          *00*          *ZZ*ACME           *ZZ*WHSE1          *250304*0915*U*00401*000000003*0*P*>~GS*FA*ACME*WHSE1*20250304*0915*3*X*004010~ST*997*0001~AK1*SW*4~AK2*945*0001~AK5*A~AK9*A*1*1*1~SE*6*0001~GE*1*3~IEA*1*000000003~";

pub const EMPTY: &[u8] = b"HTTP/1.1 204 No Content\r\nConnection: close\r\n\r\n";

// What is answered where the store failed, and by a book that has to be opened again.
pub const STORE_FAULT: &[u8] =
    b"HTTP/1.1 503 Service Unavailable\r\nContent-Type: text/plain\r\nContent-Length: 9\r\nConnection: close\r\n\r\n41 Store\n";

pub const REOPEN_FAULT: &[u8] =
    b"HTTP/1.1 503 Service Unavailable\r\nContent-Type: text/plain\r\nContent-Length: 10\r\nConnection: close\r\n\r\n42 Reopen\n";

// What there is after a count of 90.
pub const STOCK: &[u8] =
    b"HTTP/1.1 200 OK\r\nContent-Type: text/plain\r\nContent-Length: 214\r\nConnection: close\r\n\r\nitem                 lot          expiry          expected         on hand        reserved         shipped\nBOLT                 L1                                  0              90               0               0\n";

// What went out by then.
pub const OUTBOX: &[u8] =
    b"HTTP/1.1 200 OK\r\nContent-Type: text/plain\r\nContent-Length: 29\r\nConnection: close\r\n\r\n     1 ANS -\n     2 944 open\n";

// The receipt of the count.
pub const RECEIPT: &[u8] =
    b"HTTP/1.1 200 OK\r\nContent-Type: application/EDI-X12\r\nContent-Length: 259\r\nConnection: close\r\n\r\nISA*00*          *00*          *ZZ*WHSE1          *ZZ*ACME           *250304*0915*U*00401*000000002*0*P*>~GS*RE*WHSE1*ACME*20250304*0915*2*X*004010~ST*944*0001~W17*F*20250304*2*PO77*SHP1~W07*90*EA**SK*BOLT~N9*LT*L1~W14*90*100~SE*6*0001~GE*1*2~IEA*1*000000002~";

pub const NOT_FOUND: &[u8] =
    b"HTTP/1.1 404 Not Found\r\nContent-Type: text/plain\r\nContent-Length: 14\r\nConnection: close\r\n\r\n404 Not Found\n";

pub const NO_GET: &[u8] =
    b"HTTP/1.1 405 Method Not Allowed\r\nContent-Type: text/plain\r\nContent-Length: 23\r\nAllow: POST\r\nConnection: close\r\n\r\n405 Method Not Allowed\n";

pub const NO_POST: &[u8] =
    b"HTTP/1.1 405 Method Not Allowed\r\nContent-Type: text/plain\r\nContent-Length: 23\r\nAllow: GET\r\nConnection: close\r\n\r\n405 Method Not Allowed\n";

// 109 bytes.
pub const BAD_REQUEST: &[u8] =
    b"HTTP/1.1 400 Bad Request\r\nContent-Type: text/plain\r\nContent-Length: 16\r\nConnection: close\r\n\r\n400 Bad Request\n";

pub const NO_LENGTH: &[u8] =
    b"HTTP/1.1 411 Length Required\r\nContent-Type: text/plain\r\nContent-Length: 20\r\nConnection: close\r\n\r\n411 Length Required\n";

pub const TOO_LARGE: &[u8] =
    b"HTTP/1.1 413 Payload Too Large\r\nContent-Type: text/plain\r\nContent-Length: 22\r\nConnection: close\r\n\r\n413 Payload Too Large\n";

pub const ENCODED: &[u8] =
    b"HTTP/1.1 501 Not Implemented\r\nContent-Type: text/plain\r\nContent-Length: 20\r\nConnection: close\r\n\r\n501 Not Implemented\n";
