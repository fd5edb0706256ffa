//! What clerks look at.

/// One after the other, over the book that the deeds (deeds.rt) left.
pub const CASES: &str = "\
@case the picking sheet of an unknown order
@by look
@asked GET /orders/ZZ-ACME/ORD1
@answered
HTTP/1.1 422 Unprocessable Entity
Content-Type: text/plain
Content-Length: 16
Connection: close

24 UnknownOrder
@ends 1
refused 24 UnknownOrder
@case a stranger's picking sheet
@by look
@asked GET /orders/ZZ-NONE/ORD1
@answered
HTTP/1.1 404 Not Found
Content-Type: text/plain
Content-Length: 20
Connection: close

20 UnknownDepositor
@ends 1
refused 20 UnknownDepositor
@case an order's number of 23 characters
@by look
@asked GET /orders/ZZ-ACME/ORD45678901234567890123
@answered
HTTP/1.1 404 Not Found
Content-Type: text/plain
Content-Length: 11
Connection: close

32 BadText
@ends 1
refused 32 BadText
@case the stock as CSV
@by report
@asked GET /stock/ZZ-ACME/csv
@answered
HTTP/1.1 200 OK
Content-Type: text/plain
Content-Length: 68
Connection: close

item,lot,expiry,expected,on_hand,reserved,shipped
BOLT,L1,,0,90,0,0
@printed
item,lot,expiry,expected,on_hand,reserved,shipped
BOLT,L1,,0,90,0,0
@ends 0
@case a stranger's stock as CSV
@by report
@asked GET /stock/ZZ-NONE/csv
@answered
HTTP/1.1 404 Not Found
Content-Type: text/plain
Content-Length: 14
Connection: close

404 Not Found
@ends 1
refused 20 UnknownDepositor
@case the stock
@by report
@asked GET /stock/ZZ-ACME
@answered
HTTP/1.1 200 OK
Content-Type: text/plain
Content-Length: 214
Connection: close

item                 lot          expiry          expected         on hand        reserved         shipped
BOLT                 L1                                  0              90               0               0
@printed
item                 lot          expiry          expected         on hand        reserved         shipped
BOLT                 L1                                  0              90               0               0
@ends 0
@case what went out
@by report
@asked GET /outbox/ZZ-ACME
@answered
HTTP/1.1 200 OK
Content-Type: text/plain
Content-Length: 29
Connection: close

     1 ANS -
     2 944 open
@printed
     1 ANS -
     2 944 open
@ends 0
@case one text of that
@by document
@asked GET /outbox/ZZ-ACME/2
@answered
HTTP/1.1 200 OK
Content-Type: application/EDI-X12
Content-Length: 259
Connection: close

ISA*00*          *00*          *ZZ*WHSE1          *ZZ*ACME           *250304*0915*U*00401*000000002*0*P*>~GS*RE*WHSE1*ACME*20250304*0915*2*X*004010~ST*944*0001~W17*F*20250304*2*PO77*SHP1~W07*90*EA**SK*BOLT~N9*LT*L1~W14*90*100~SE*6*0001~GE*1*2~IEA*1*000000002~\
@printed
ISA*00*          *00*          *ZZ*WHSE1          *ZZ*ACME           *250304*0915*U*00401*000000002*0*P*>~GS*RE*WHSE1*ACME*20250304*0915*2*X*004010~ST*944*0001~W17*F*20250304*2*PO77*SHP1~W07*90*EA**SK*BOLT~N9*LT*L1~W14*90*100~SE*6*0001~GE*1*2~IEA*1*000000002~
@ends 0
@case what is open
@by look
@asked GET /open/ZZ-ACME
@answered
HTTP/1.1 200 OK
Content-Type: text/plain
Content-Length: 88
Connection: close

advice                 lines        expected order
order                  lines ship to
@printed
advice                 lines        expected order
order                  lines ship to
@ends 0
@case what is open of a stranger
@by look
@asked GET /open/ZZ-NONE
@answered
HTTP/1.1 404 Not Found
Content-Type: text/plain
Content-Length: 20
Connection: close

20 UnknownDepositor
@ends 1
refused 20 UnknownDepositor
@case what is open of no depositor
@by look
@asked GET /open/ACME
@answered
HTTP/1.1 404 Not Found
Content-Type: text/plain
Content-Length: 11
Connection: close

32 BadText
@ends 1
refused 32 BadText
@case who is enrolled
@by look
@asked GET /depositors
@answered
HTTP/1.1 200 OK
Content-Type: text/plain
Content-Length: 8
Connection: close

ZZ-ACME
@printed
ZZ-ACME
@ends 0
";
