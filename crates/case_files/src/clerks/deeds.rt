//! What clerks did, and an interchange that is handed in, each asked of a server.

/// One after the other, over a book of ZZ WHSE1 in which ZZ ACME is enrolled, on 2025-03-04 at 09:15.
pub const CASES: &str = "\
@case an advice is handed in
@by document
@asked POST /x12
ISA*00*          *00*          *ZZ*ACME           *ZZ*WHSE1          *250304*0915*U*00401*000000001*1*P*>~GS*AR*ACME*WHSE1*20250304*0915*1*X*004010~ST*943*0001~W06*F*PO77*20250303*SHP1~W04*100*EA**SK*BOLT~N9*LT*L1~W03*100~SE*6*0001~GE*1*1~IEA*1*000000001~\
@answered
HTTP/1.1 200 OK
Content-Type: application/EDI-X12
Content-Length: 265
Connection: close

ISA*00*          *00*          *ZZ*WHSE1          *ZZ*ACME           *250304*0915*U*00401*000000001*0*P*>~TA1*000000001*250304*0915*A*000~GS*FA*WHSE1*ACME*20250304*0915*1*X*004010~ST*997*0001~AK1*AR*1~AK2*943*0001~AK5*A~AK9*A*1*1*1~SE*6*0001~GE*1*1~IEA*1*000000001~\
@printed
ISA*00*          *00*          *ZZ*WHSE1          *ZZ*ACME           *250304*0915*U*00401*000000001*0*P*>~TA1*000000001*250304*0915*A*000~GS*FA*WHSE1*ACME*20250304*0915*1*X*004010~ST*997*0001~AK1*AR*1~AK2*943*0001~AK5*A~AK9*A*1*1*1~SE*6*0001~GE*1*1~IEA*1*000000001~
@ends 0
@case other goods under its number
@by document
@asked POST /x12
ISA*00*          *00*          *ZZ*ACME           *ZZ*WHSE1          *250304*0915*U*00401*000000001*1*P*>~GS*AR*ACME*WHSE1*20250304*0915*1*X*004010~ST*943*0001~W06*F*PO77*20250303*SHP1~W04*101*EA**SK*BOLT~N9*LT*L1~W03*101~SE*6*0001~GE*1*1~IEA*1*000000001~\
@answered
HTTP/1.1 409 Conflict
Content-Type: application/EDI-X12
Content-Length: 154
Connection: close

ISA*00*          *00*          *ZZ*WHSE1          *ZZ*ACME           *250304*0915*U*00401*000000000*0*P*>~TA1*000000001*250304*0915*R*025~IEA*0*000000000~\
@printed
ISA*00*          *00*          *ZZ*WHSE1          *ZZ*ACME           *250304*0915*U*00401*000000000*0*P*>~TA1*000000001*250304*0915*R*025~IEA*0*000000000~
@ends 1
refused 3 Duplicate
@case another number in its trailer
@by document
@asked POST /x12
ISA*00*          *00*          *ZZ*ACME           *ZZ*WHSE1          *250304*0915*U*00401*000000007*1*P*>~GS*AR*ACME*WHSE1*20250304*0915*1*X*004010~ST*943*0001~W06*F*PO77*20250303*SHP1~W04*100*EA**SK*BOLT~N9*LT*L1~W03*100~SE*6*0001~GE*1*1~IEA*1*000000009~\
@answered
HTTP/1.1 422 Unprocessable Entity
Content-Type: application/EDI-X12
Content-Length: 154
Connection: close

ISA*00*          *00*          *ZZ*WHSE1          *ZZ*ACME           *250304*0915*U*00401*000000000*0*P*>~TA1*000000007*250304*0915*R*001~IEA*0*000000000~\
@printed
ISA*00*          *00*          *ZZ*WHSE1          *ZZ*ACME           *250304*0915*U*00401*000000000*0*P*>~TA1*000000007*250304*0915*R*001~IEA*0*000000000~
@ends 1
refused 2 Note(001)
@case no interchange
@by document
@asked POST /x12
X\
@answered
HTTP/1.1 400 Bad Request
Content-Type: text/plain
Content-Length: 13
Connection: close

1 Unreadable
@ends 1
refused 1 Unreadable
@case an advice that nobody announced
@by document
@asked POST /count/ZZ-ACME/CNT-1/SHP9
BOLT,L1,90
@answered
HTTP/1.1 422 Unprocessable Entity
Content-Type: text/plain
Content-Length: 17
Connection: close

22 UnknownAdvice
@ends 1
refused 22 UnknownAdvice
@case a count
@by document
@asked POST /count/ZZ-ACME/CNT-1/SHP1
BOLT,L1,90
@answered
HTTP/1.1 200 OK
Content-Type: application/EDI-X12
Content-Length: 259
Connection: close

ISA*00*          *00*          *ZZ*WHSE1          *ZZ*ACME           *250304*0915*U*00401*000000002*0*P*>~GS*RE*WHSE1*ACME*20250304*0915*2*X*004010~ST*944*0001~W17*F*20250304*2*PO77*SHP1~W07*90*EA**SK*BOLT~N9*LT*L1~W14*90*100~SE*6*0001~GE*1*2~IEA*1*000000002~\
@printed
ISA*00*          *00*          *ZZ*WHSE1          *ZZ*ACME           *250304*0915*U*00401*000000002*0*P*>~GS*RE*WHSE1*ACME*20250304*0915*2*X*004010~ST*944*0001~W17*F*20250304*2*PO77*SHP1~W07*90*EA**SK*BOLT~N9*LT*L1~W14*90*100~SE*6*0001~GE*1*2~IEA*1*000000002~
@ends 0
@case the same count again
@by document
@asked POST /count/ZZ-ACME/CNT-1/SHP1
BOLT,L1,90
@answered
HTTP/1.1 200 OK
Content-Type: application/EDI-X12
Content-Length: 259
Connection: close

ISA*00*          *00*          *ZZ*WHSE1          *ZZ*ACME           *250304*0915*U*00401*000000002*0*P*>~GS*RE*WHSE1*ACME*20250304*0915*2*X*004010~ST*944*0001~W17*F*20250304*2*PO77*SHP1~W07*90*EA**SK*BOLT~N9*LT*L1~W14*90*100~SE*6*0001~GE*1*2~IEA*1*000000002~\
@printed
ISA*00*          *00*          *ZZ*WHSE1          *ZZ*ACME           *250304*0915*U*00401*000000002*0*P*>~GS*RE*WHSE1*ACME*20250304*0915*2*X*004010~ST*944*0001~W17*F*20250304*2*PO77*SHP1~W07*90*EA**SK*BOLT~N9*LT*L1~W14*90*100~SE*6*0001~GE*1*2~IEA*1*000000002~
@ends 0
@case another sheet under its ticket
@by document
@asked POST /count/ZZ-ACME/CNT-1/SHP1
BOLT,L1,91
@answered
HTTP/1.1 409 Conflict
Content-Type: text/plain
Content-Length: 14
Connection: close

21 TicketUsed
@ends 1
refused 21 TicketUsed
@case an advice that was counted
@by document
@asked POST /count/ZZ-ACME/CNT-2/SHP1
BOLT,L1,90
@answered
HTTP/1.1 422 Unprocessable Entity
Content-Type: text/plain
Content-Length: 16
Connection: close

23 AdviceClosed
@ends 1
refused 23 AdviceClosed
@case a stranger's count
@by document
@asked POST /count/ZZ-NONE/CNT-1/SHP1
BOLT,L1,90
@answered
HTTP/1.1 404 Not Found
Content-Type: text/plain
Content-Length: 20
Connection: close

20 UnknownDepositor
@ends 1
refused 20 UnknownDepositor
@case a ticket of 21 characters
@by document
@asked POST /count/ZZ-ACME/CNT-45678901234567890/SHP1
BOLT,L1,90
@answered
HTTP/1.1 404 Not Found
Content-Type: text/plain
Content-Length: 11
Connection: close

32 BadText
@ends 1
refused 32 BadText
@case no depositor
@by document
@asked POST /pick/ACME/PCK-1/ORD1
@answered
HTTP/1.1 404 Not Found
Content-Type: text/plain
Content-Length: 11
Connection: close

32 BadText
@ends 1
refused 32 BadText
@case a bad word before a bad sheet
@by document
@asked POST /count/ACME/CNT-3/SHP1
BOLT
@answered
HTTP/1.1 404 Not Found
Content-Type: text/plain
Content-Length: 11
Connection: close

32 BadText
@ends 1
refused 32 BadText
@case a sheet of two fields
@by document
@asked POST /count/ZZ-ACME/CNT-3/SHP1
BOLT,L1
@answered
HTTP/1.1 422 Unprocessable Entity
Content-Type: text/plain
Content-Length: 11
Connection: close

32 BadText
@ends 1
refused 32 BadText
@case a pair twice in a sheet
@by document
@asked POST /recount/ZZ-ACME/REC-1
BOLT,L1,90
BOLT,L1,80
@answered
HTTP/1.1 422 Unprocessable Entity
Content-Type: text/plain
Content-Length: 16
Connection: close

31 RepeatedLine
@ends 1
refused 31 RepeatedLine
@case a recount that finds no difference
@by document
@asked POST /recount/ZZ-ACME/REC-1
BOLT,L1,90
@answered
HTTP/1.1 422 Unprocessable Entity
Content-Type: text/plain
Content-Length: 16
Connection: close

29 NoDifference
@ends 1
refused 29 NoDifference
@case an unknown order is picked
@by document
@asked POST /pick/ZZ-ACME/PCK-1/ORD1
BOLT,L1,90
@answered
HTTP/1.1 422 Unprocessable Entity
Content-Type: text/plain
Content-Length: 16
Connection: close

24 UnknownOrder
@ends 1
refused 24 UnknownOrder
";
