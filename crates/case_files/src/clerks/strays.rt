//! Paths that lead nowhere, and methods that none of them has.

/// One after the other, over the same book.
pub const CASES: &str = "\
@case a count is asked for
@by document
@asked GET /count/ZZ-ACME/CNT-1/SHP1
@answered
HTTP/1.1 405 Method Not Allowed
Content-Type: text/plain
Content-Length: 23
Allow: POST
Connection: close

405 Method Not Allowed
@ends 3
fault 44 Device
@case a picking sheet is posted
@by look
@asked POST /orders/ZZ-ACME/ORD1
@answered
HTTP/1.1 405 Method Not Allowed
Content-Type: text/plain
Content-Length: 23
Allow: GET
Connection: close

405 Method Not Allowed
@ends 3
fault 44 Device
@case a path with another name
@by document
@asked POST /counts/ZZ-ACME/CNT-1/SHP1
@answered
HTTP/1.1 404 Not Found
Content-Type: text/plain
Content-Length: 14
Connection: close

404 Not Found
@ends 3
fault 44 Device
@case a count without a shipment
@by document
@asked POST /count/ZZ-ACME/CNT-1
@answered
HTTP/1.1 404 Not Found
Content-Type: text/plain
Content-Length: 14
Connection: close

404 Not Found
@ends 3
fault 44 Device
@case a recount with a number
@by document
@asked POST /recount/ZZ-ACME/REC-1/SHP1
@answered
HTTP/1.1 404 Not Found
Content-Type: text/plain
Content-Length: 14
Connection: close

404 Not Found
@ends 3
fault 44 Device
@case depositors are posted
@by look
@asked POST /depositors
@answered
HTTP/1.1 405 Method Not Allowed
Content-Type: text/plain
Content-Length: 23
Allow: GET
Connection: close

405 Method Not Allowed
@ends 3
fault 44 Device
@case what is open of nobody
@by look
@asked GET /open
@answered
HTTP/1.1 404 Not Found
Content-Type: text/plain
Content-Length: 14
Connection: close

404 Not Found
@ends 3
fault 44 Device
@case who is enrolled, with a word more
@by look
@asked GET /depositors/ZZ-ACME
@answered
HTTP/1.1 404 Not Found
Content-Type: text/plain
Content-Length: 14
Connection: close

404 Not Found
@ends 3
fault 44 Device
";
