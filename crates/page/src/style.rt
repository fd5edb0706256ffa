//! The style. Made by bench/page_source.py from crates/page/page/style.css: edit that.

/// The style.
pub const STYLE: &[u8] = b":root {\n\
color-scheme: light dark;\n\
--ground: #f2f4f1; --paper: #fff;\n\
--raised: #f7f9f6; --ink: #17201c;\n\
--soft: #52605a; --line: #d5dcd7;\n\
--main: #0b6354; --main-ink: #fff;\n\
--tint: #e0f0ec; --good: #17663a;\n\
--good-tint: #e1f3e7; --warn: #7d4e00;\n\
--warn-tint: #fdf0d2; --bad: #a1231c;\n\
--bad-tint: #fce6e3; --in: #2460a7;\n\
--in-tint: #e2edfa; --out: #a1500a;\n\
--out-tint: #fbeadb;\n\
}\n\
@media (prefers-color-scheme: dark) {\n\
:root {\n\
--ground: #101513; --paper: #19201d;\n\
--raised: #202825; --ink: #e7ece9;\n\
--soft: #a5b1ab; --line: #36413c;\n\
--main: #62d0bb; --main-ink: #05231d;\n\
--tint: #17372f; --good: #7fd6a0;\n\
--good-tint: #16321f; --warn: #f0c065;\n\
--warn-tint: #38290b; --bad: #ff9d93;\n\
--bad-tint: #431a17; --in: #8fbcf5;\n\
--in-tint: #182c47; --out: #f5b27c;\n\
--out-tint: #3f2510;\n\
}\n\
}\n\
* { box-sizing: border-box; }\n\
[hidden] { display: none !important; }\n\
body {\n\
margin: 0;\n\
background: var(--ground);\n\
color: var(--ink);\n\
font: 16px/1.45 system-ui, \"Segoe UI\", Roboto, Arial, sans-serif;\n\
font-variant-numeric: tabular-nums;\n\
}\n\
h1, h2, h3, p, ul, ol { margin: 0; }\n\
ul, ol { padding: 0; list-style: none; }\n\
h1 { font-size: 1.75rem; line-height: 1.2; overflow-wrap: anywhere; }\n\
h1 small { font-size: 1rem; font-weight: 400; color: var(--soft); }\n\
h2, h3 { font-size: 1.0625rem; }\n\
a { color: var(--main); }\n\
code, .raw { font: 0.9375em ui-monospace, Menlo, monospace; }\n\
progress { width: 9rem; margin-left: 16px; }\n\
:focus-visible { outline: 3px solid var(--main); outline-offset: 2px; border-radius: 4px; }\n\
main:focus-visible, h2:focus-visible { outline: none; }\n\
.unseen {\n\
position: absolute;\n\
width: 1px;\n\
height: 1px;\n\
overflow: hidden;\n\
clip-path: inset(50%);\n\
white-space: nowrap;\n\
}\n\
.skip { position: absolute; left: -999px; }\n\
.skip:focus { left: 8px; top: 8px; z-index: 9; padding: 10px 16px; background: var(--paper); }\n\
.top {\n\
display: flex;\n\
align-items: center;\n\
gap: 8px 24px;\n\
padding: 0 24px;\n\
min-height: 64px;\n\
background: var(--paper);\n\
border-bottom: 1px solid var(--line);\n\
position: sticky;\n\
top: 0;\n\
z-index: 3;\n\
}\n\
.brand, .desk, .reach, .clerk, .row, .check, .question, .outbox summary {\n\
display: flex;\n\
align-items: center;\n\
gap: 12px;\n\
}\n\
.brand { font-weight: 700; font-size: 1.125rem; gap: 8px; }\n\
.brand svg { width: 26px; height: 26px; fill: var(--main); }\n\
.tabs { display: flex; align-self: stretch; gap: 4px; }\n\
.tabs a {\n\
display: flex;\n\
align-items: center;\n\
padding: 0 14px;\n\
color: var(--soft);\n\
font-weight: 600;\n\
text-decoration: none;\n\
border: solid transparent;\n\
border-width: 3px 0;\n\
}\n\
.tabs a:hover { color: var(--ink); background: var(--raised); }\n\
.tabs a[aria-current] { color: var(--main); border-bottom-color: var(--main); }\n\
.desk { margin-left: auto; }\n\
.reach { gap: 8px; margin-right: 8px; color: var(--soft); font-size: 0.875rem; }\n\
.reach:not(:empty)::before {\n\
content: \"\";\n\
width: 10px;\n\
height: 10px;\n\
border-radius: 50%;\n\
background: var(--good);\n\
}\n\
.reach.lost { color: var(--bad); font-weight: 600; }\n\
.reach.lost::before { background: var(--bad); border-radius: 2px; }\n\
.clerk { gap: 8px; color: var(--soft); font-weight: 600; }\n\
.clerk input { width: 4.5em; text-align: center; font-weight: 700; text-transform: uppercase; }\n\
.clerk input.missing, input[aria-invalid] {\n\
border-color: var(--bad);\n\
background: var(--bad-tint);\n\
}\n\
#clerk-hint:not(.unseen) {\n\
position: absolute;\n\
top: 100%;\n\
right: 8px;\n\
padding: 12px 16px;\n\
border-radius: 8px;\n\
background: var(--bad);\n\
color: var(--paper);\n\
font-weight: 600;\n\
}\n\
main, .waiting { max-width: 1760px; margin: 0 auto; padding: 24px; display: grid; gap: 20px; }\n\
.waiting { padding-bottom: 0; }\n\
main > *, .columns > *, .card { min-width: 0; }\n\
main > :empty { display: none; }\n\
.card, .bar {\n\
background: var(--paper);\n\
border: 1px solid var(--line);\n\
border-radius: 12px;\n\
padding: 20px;\n\
}\n\
.card > h2 { margin-bottom: 12px; }\n\
.columns { display: grid; gap: 20px; align-items: start; }\n\
.columns > div:not(.card) { display: grid; gap: 20px; }\n\
.note:not(:last-child), .tools + div > .note { margin-bottom: 12px; }\n\
.head { display: flex; flex-wrap: wrap; gap: 12px 24px; align-items: end; }\n\
.head > :last-child { margin-left: auto; }\n\
.hint, .raw, .ticket, .have small, .about small, .key, .tile span { color: var(--soft); }\n\
.hint, .tile span { font-size: 0.9375rem; }\n\
.row { flex-wrap: wrap; margin-top: 12px; }\n\
.row:empty { margin: 0; }\n\
.end { justify-content: flex-end; margin-top: 20px; }\n\
.tools { display: flex; flex-wrap: wrap; gap: 12px 20px; align-items: end; }\n\
.tools, .ticket { margin-bottom: 14px; }\n\
.line { display: block; }\n\
button, .button, input, select {\n\
font: inherit;\n\
color: inherit;\n\
min-height: 48px;\n\
border-radius: 8px;\n\
border: 1px solid var(--line);\n\
}\n\
button, .button {\n\
display: inline-flex;\n\
align-items: center;\n\
justify-content: center;\n\
padding: 0 18px;\n\
background: var(--raised);\n\
font-weight: 600;\n\
cursor: pointer;\n\
text-decoration: none;\n\
}\n\
button:hover { border-color: var(--main); }\n\
button.main { background: var(--main); border-color: var(--main); color: var(--main-ink); }\n\
button:disabled { opacity: 0.45; cursor: not-allowed; }\n\
input, select { background: var(--paper); padding: 0 12px; border-color: var(--soft); }\n\
input[type=\"checkbox\"] { width: 24px; height: 24px; min-height: 0; accent-color: var(--main); }\n\
.field { display: grid; gap: 4px; }\n\
.label { font-size: 0.875rem; font-weight: 600; color: var(--soft); }\n\
.field select { min-width: 14rem; }\n\
.scan { width: 26rem; max-width: 100%; border-width: 2px; text-transform: uppercase; }\n\
.check { min-height: 48px; }\n\
.question { padding: 12px 0; }\n\
.question input { flex: none; }\n\
summary { cursor: pointer; padding: 12px 0; font-weight: 600; }\n\
.good { --tone: var(--good); --back: var(--good-tint); }\n\
.warn { --tone: var(--warn); --back: var(--warn-tint); }\n\
.bad { --tone: var(--bad); --back: var(--bad-tint); }\n\
.in { --tone: var(--in); --back: var(--in-tint); }\n\
.out { --tone: var(--out); --back: var(--out-tint); }\n\
.note {\n\
padding: 14px 16px;\n\
border-radius: 8px;\n\
border-left: 4px solid var(--tone, var(--soft));\n\
background: var(--back, var(--raised));\n\
overflow-wrap: anywhere;\n\
}\n\
.wide + .note, .tried > * { margin-top: 12px; }\n\
.note .document, .note .note { margin-top: 12px; background: var(--paper); padding: 12px; }\n\
.chip {\n\
display: inline-block;\n\
padding: 1px 10px;\n\
border-radius: 99px;\n\
font-size: 0.875rem;\n\
font-weight: 600;\n\
white-space: nowrap;\n\
background: var(--back, var(--raised));\n\
color: var(--tone, var(--soft));\n\
border: 1px solid;\n\
}\n\
.tiles { display: grid; grid-template-columns: repeat(auto-fit, minmax(150px, 1fr)); gap: 16px; }\n\
.tile b { display: block; font-size: 2rem; line-height: 1.15; color: var(--tone, inherit); }\n\
.flow { margin-top: 20px; }\n\
.flow svg {\n\
display: block;\n\
width: 100%;\n\
height: 14px;\n\
border-radius: 7px;\n\
margin: 6px 0 8px;\n\
background: var(--line);\n\
}\n\
.coming { fill: var(--in); --dot: var(--in); }\n\
.going { fill: var(--out); --dot: var(--out); }\n\
.short { fill: var(--bad); --dot: var(--bad); }\n\
.key { display: flex; flex-wrap: wrap; gap: 6px 28px; }\n\
.key b { color: var(--ink); }\n\
.key li::before {\n\
content: \"\";\n\
display: inline-block;\n\
width: 12px;\n\
height: 12px;\n\
margin-right: 8px;\n\
border-radius: 3px;\n\
background: var(--dot);\n\
}\n\
.plot { min-height: 184px; overflow: hidden; }\n\
.plot rect { fill: var(--main); }\n\
.plot .soon { fill: var(--warn); }\n\
.plot .expired { fill: var(--bad); }\n\
.plot line { stroke: var(--line); }\n\
.plot text { fill: var(--ink); font-size: 13px; text-anchor: middle; }\n\
.wide { overflow-x: auto; }\n\
table { width: 100%; border-collapse: collapse; }\n\
th, th button { text-align: left; font-size: 0.875rem; color: var(--soft); }\n\
th, td { padding: 10px 12px 10px 0; border-bottom: 1px solid var(--line); }\n\
td { overflow-wrap: anywhere; }\n\
tr:last-child td { border-bottom: 0; }\n\
th button { min-height: 40px; padding: 0; border: 0; background: none; gap: 4px; }\n\
th .arrow { width: 0.8em; }\n\
th[aria-sort=\"ascending\"] .arrow::after { content: \"\\2191\"; }\n\
th[aria-sort=\"descending\"] .arrow::after { content: \"\\2193\"; }\n\
.table th { padding-top: 0; padding-bottom: 0; }\n\
.word { white-space: nowrap; }\n\
th.number, td.number { padding-left: 8px; text-align: right; }\n\
th.number button { flex-direction: row-reverse; }\n\
tfoot td { font-weight: 700; border-top: 2px solid var(--line); }\n\
.table .expired { background: var(--bad-tint); }\n\
.table .soon { background: var(--warn-tint); }\n\
.expired td:first-child, .soon td:first-child { padding-left: 8px; }\n\
.names { columns: 14rem; }\n\
.names a, a.open, .back { display: inline-block; padding: 10px 0; font-weight: 600; }\n\
.refused li, .short li { padding: 6px 0; }\n\
.lines > li {\n\
display: grid;\n\
grid-template-columns: minmax(9rem, 1fr) minmax(0, 0.9fr) 9rem 48px 8.5rem;\n\
gap: 6px 14px;\n\
align-items: center;\n\
padding: 10px 8px;\n\
border-top: 1px solid var(--line);\n\
content-visibility: auto;\n\
contain-intrinsic-size: auto 70px;\n\
}\n\
.lines > .filled { background: var(--good-tint); }\n\
.lines > .differs { background: var(--warn-tint); }\n\
.lines > .found { outline: 3px solid var(--main); outline-offset: -3px; }\n\
.goods { display: flex; flex-wrap: wrap; gap: 0 12px; overflow-wrap: anywhere; }\n\
.have { text-align: right; }\n\
.lines input { width: 100%; font-size: 1.25rem; font-weight: 700; text-align: right; }\n\
.lines .same { padding: 0; font-size: 1.25rem; }\n\
.lines .added .same { visibility: hidden; }\n\
.adding { border-top: 1px solid var(--line); }\n\
.bar {\n\
position: sticky;\n\
bottom: 0;\n\
display: flex;\n\
gap: 12px;\n\
align-items: center;\n\
justify-content: space-between;\n\
padding: 12px 20px;\n\
box-shadow: 0 -2px 12px #0f20181f;\n\
z-index: 2;\n\
}\n\
address { font-style: normal; overflow-wrap: anywhere; white-space: pre-wrap; }\n\
.outbox > li { border-top: 1px solid var(--line); }\n\
.outbox summary { font-weight: 400; }\n\
.outbox summary::before { content: \"\\25B8\"; color: var(--soft); }\n\
.outbox [open] > summary::before { content: \"\\25BE\"; }\n\
.outbox summary b { min-width: 2.5em; text-align: right; }\n\
.outbox summary .chip { margin-left: auto; }\n\
.plain .number { padding-right: 0; }\n\
.document { padding-bottom: 8px; }\n\
.segments { border: 1px solid var(--line); border-radius: 8px; padding: 4px 12px; }\n\
.segments li { display: flex; flex-wrap: wrap; gap: 0 16px; padding: 3px 0; }\n\
.segments code { white-space: pre-wrap; overflow-wrap: anywhere; }\n\
.segments .what { color: var(--soft); font-size: 0.875rem; margin-left: auto; }\n\
.review {\n\
width: min(760px, 100vw - 24px);\n\
max-height: calc(100dvh - 24px);\n\
padding: 24px;\n\
border: 1px solid var(--line);\n\
border-radius: 14px;\n\
background: var(--paper);\n\
color: var(--ink);\n\
}\n\
.review::backdrop { background: #0a120eb0; }\n\
.review h2 { font-size: 1.375rem; }\n\
.sheet { display: none; }\n\
@media (min-width: 1100px) {\n\
.columns { grid-template-columns: 1fr 1fr; }\n\
.wide-first { grid-template-columns: minmax(0, 1fr) 360px; }\n\
}\n\
@media (max-width: 1499px) {\n\
.late { grid-template-columns: 1fr; }\n\
}\n\
@media (max-width: 1023px) {\n\
.reach:not(.lost) { font-size: 0; gap: 0; }\n\
.top { gap: 8px; padding: 0 16px; }\n\
.tabs a { padding: 0 10px; }\n\
}\n\
@media (max-width: 760px) {\n\
main, .waiting { padding: 14px; gap: 14px; }\n\
body { padding-bottom: 64px; }\n\
.tabs {\n\
position: fixed;\n\
inset: auto 0 0 0;\n\
height: 60px;\n\
gap: 0;\n\
background: var(--paper);\n\
border-top: 1px solid var(--line);\n\
z-index: 4;\n\
}\n\
.tabs a { flex: 1 1 auto; justify-content: center; padding: 0 2px; font-size: 0.75rem; }\n\
.tabs a[aria-current] { border-color: var(--main) transparent; background: var(--tint); }\n\
.card { padding: 14px; border-radius: 10px; }\n\
.tiles { grid-template-columns: 1fr 1fr; }\n\
.tile b { font-size: 1.625rem; }\n\
.bar { bottom: 64px; padding: 10px 14px; font-size: 0.875rem; }\n\
.field, .field select, .scan { width: 100%; }\n\
.lines > li { grid-template-columns: 1fr 48px 6.5rem; padding: 10px 4px; }\n\
.lines .goods, .lines .about { grid-column: 1 / -1; }\n\
.lines .about:empty, .table td:empty { display: none; }\n\
.lines .have { text-align: left; }\n\
.table table, .table thead, .table tbody, .table tfoot { display: block; }\n\
.table tr { display: flex; flex-wrap: wrap; gap: 2px 14px; align-items: baseline; }\n\
.table tr { padding: 10px 0; border-bottom: 1px solid var(--line); }\n\
.table thead tr { padding: 3px; flex-flow: row; align-items: center; overflow-x: auto; }\n\
.table tr > * { padding: 0 !important; border: 0; }\n\
.word { white-space: normal; }\n\
th, td.number, .bar button { white-space: nowrap; }\n\
.table td:nth-child(2) { font-weight: 700; }\n\
td.number::before { content: attr(data-name) \" \"; color: var(--soft); font-weight: 400; }\n\
td.number::before { font-size: 0.875rem; }\n\
.table .expired, .table .soon { margin: 0 -8px; padding: 10px 8px; }\n\
.review { padding: 16px; }\n\
.plain th, .plain td, .plain .chip { font-size: 0.875rem; }\n\
.plain th, .plain td { padding-right: 0; }\n\
}\n\
";
