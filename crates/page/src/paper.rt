//! The style on paper. Made by bench/page_source.py from crates/page/page/paper.css: edit that.

/// The style on paper.
pub const PAPER: &[u8] = b"@page { size: A4; margin: 14mm; }\n\
@media print {\n\
:root { color-scheme: light; --ink: #000; --line: #888; --soft: #333; --paper: #fff; }\n\
body { background: none; font-size: 10.5pt; padding: 0; }\n\
.top, .waiting, .bar, .skip, button, .tools { display: none; }\n\
.card { border: 0; padding: 0; box-shadow: none; }\n\
.sheet:not(:empty) { display: block; }\n\
main:has(~ .sheet:not(:empty)) { display: none; }\n\
.sheet header { display: flex; justify-content: space-between; gap: 12mm; margin-bottom: 6mm; }\n\
.sheet header h1 { font-size: 20pt; margin-bottom: 2mm; }\n\
.sheet address { max-width: 80mm; border: 1px solid #000; padding: 3mm 4mm; }\n\
.sheet small { display: block; }\n\
.sheet .bars { display: block; margin-top: 1mm; margin-left: -2mm; }\n\
.sheet thead { display: table-header-group; }\n\
.sheet tr { break-inside: avoid; }\n\
.sheet th, .sheet td { padding: 2mm 2mm 2mm 0; border-bottom: 1px solid #888; }\n\
.sheet th.number, .sheet td.number { padding: 2mm 4mm 2mm 0; text-align: right; }\n\
.sheet td.number { font-size: 13pt; font-weight: 700; }\n\
.sheet th:last-child { width: 26mm; }\n\
.sheet .mark { display: block; border: 2px solid #000; padding: 0 1mm; width: max-content; }\n\
.sheet td:last-child { border: 1px solid #000; }\n\
.sheet tr:last-child td { border: 0; border-top: 2px solid #000; font-weight: 700; }\n\
.sheet tr:last-child td:first-child { white-space: nowrap; max-width: 0; overflow: visible; }\n\
.sheet footer { display: flex; gap: 8mm; margin-top: 18mm; break-inside: avoid; }\n\
.sheet footer p { flex: 1; border-top: 1px solid #000; padding-top: 1mm; font-size: 9pt; }\n\
.sheet .printed { margin-top: 6mm; font-size: 8pt; }\n\
}\n\
";
