//! The type of the page. Made by bench/page_source.py from crates/page/page: edit that.

/// The value of the field Content-Type, and the fields that go with it.
pub const TYPE: &[u8] = b"text/html; charset=utf-8\r\n\
Content-Security-Policy: default-src 'none'; script-src \
'sha256-M8u5DDqetqDBKxXKuR+DPLnxEMsJ16izg3bVNTxDlNg='; style-src \
'sha256-wEx1rRqunBLlJDvCPxIgGJiP8pcjoFmm7hhBNBVeXDA='; connect-src 'self'; img-src 'self' data:; \
form-action 'none'; base-uri 'none'; frame-ancestors 'none'\r\n\
X-Content-Type-Options: nosniff\r\n\
Referrer-Policy: no-referrer\r\n\
Cache-Control: no-store\
";

/// The fields of the type, and the name of the field of the length.
pub const TYPE_LINE: &[u8] = b"Content-Type: text/html; charset=utf-8\r\n\
Content-Security-Policy: default-src 'none'; script-src \
'sha256-M8u5DDqetqDBKxXKuR+DPLnxEMsJ16izg3bVNTxDlNg='; style-src \
'sha256-wEx1rRqunBLlJDvCPxIgGJiP8pcjoFmm7hhBNBVeXDA='; connect-src 'self'; img-src 'self' data:; \
form-action 'none'; base-uri 'none'; frame-ancestors 'none'\r\n\
X-Content-Type-Options: nosniff\r\n\
Referrer-Policy: no-referrer\r\n\
Cache-Control: no-store\r\n\
Content-Length: \
";
