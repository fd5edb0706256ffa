//! The script, part 3. Made by bench/page_source.py from crates/page/page/script/03-texts.js: edit
//! that.

/// The script, part 3.
pub const SCRIPT_3: &[u8] = b"function linesOf(text) {\n\
return text.split(\"\\n\").filter((line) => line !== \"\");\n\
}\n\
function stockRows(text) {\n\
return linesOf(text).slice(1).map((line) => {\n\
const [item, lot, expiry, ...amounts] = line.split(\",\");\n\
const [expected, onHand, reserved, shipped] = amounts.map(Number);\n\
return { item, lot, expiry, expected, onHand, reserved, shipped };\n\
});\n\
}\n\
function sheetLines(text) {\n\
return linesOf(text)\n\
.map((line) => line.split(\",\"))\n\
.filter((parts) => /^\\d+$/.test(parts[2] ?? \"\"))\n\
.map(([item, lot, quantity]) => ({ item, lot, quantity: Number(quantity) }));\n\
}\n\
function sheetOf(lines) {\n\
return lines.map(({ item, lot, quantity }) => `${item},${lot},${quantity}\\n`).join(\"\");\n\
}\n\
function openWork(text) {\n\
const advices = [];\n\
const orders = [];\n\
let isOrders = false;\n\
for (const line of linesOf(text).slice(1)) {\n\
const short = /^ {2}\\S+ +\\(short\\) +(\\d+)$/.exec(line);\n\
const order = /^(\\S+) +(\\d+) (.*)$/.exec(line);\n\
const advice = /^(\\S+) +(\\d+) +(\\d+) (\\S+)$/.exec(line);\n\
if (/^order +lines ship to$/.test(line)) isOrders = true;\n\
else if (isOrders && short) orders.at(-1).short += Number(short[1]);\n\
else if (isOrders && order) {\n\
orders.push({ number: order[1], lines: +order[2], to: order[3], short: 0 });\n\
} else if (advice) {\n\
const [, number, lines, pieces, of] = advice;\n\
advices.push({ number, lines: +lines, pieces: +pieces, order: of });\n\
}\n\
}\n\
return { advices, orders };\n\
}\n\
const GOODS = /^([A-Z0-9.-]{1,20}) +([A-Z0-9.-]{1,12}|\\(short\\)) +(\\d{1,6})$/;\n\
function pickingSheet(text) {\n\
const address = [];\n\
const lines = [];\n\
const short = [];\n\
for (const line of linesOf(text).slice(1)) {\n\
const goods = line.length === 40 ? GOODS.exec(line) : null;\n\
if (goods) {\n\
const quantity = Number(goods[3]);\n\
const to = goods[2] === \"(short)\" ? short : lines;\n\
to.push({ item: goods[1], lot: goods[2], quantity });\n\
} else address.push(line.slice(3));\n\
}\n\
return { address, lines, short };\n\
}\n\
function sentTexts(text) {\n\
return linesOf(text).map((line) => {\n\
const [number, kind, state] = line.trim().split(\" \");\n\
return { number: Number(number), kind, state };\n\
});\n\
}\n\
function segmentsOf(text) {\n\
if (!text.startsWith(\"ISA\") || text.length < 106) return [[text]];\n\
const separator = text[3];\n\
return text\n\
.split(text[105])\n\
.map((segment) => segment.replace(/^[\\r\\n]+/, \"\"))\n\
.filter((segment) => segment !== \"\")\n\
.map((segment) => segment.split(separator));\n\
}\n\
const SEGMENT_NAMES = {\n\
ISA: \"interchange begins\", IEA: \"interchange ends\", GS: \"group begins\", GE: \"group ends\",\n\
ST: \"set begins\", SE: \"set ends\", TA1: \"interchange acknowledged\", AK1: \"answer to a \
group\",\n\
AK2: \"answer to a set\", AK3: \"segment in error\", AK4: \"element in error\",\n\
AK5: \"set taken or rejected\", AK9: \"group taken or rejected\", W17: \"receipt\",\n\
W07: \"counted\", W14: \"totals of the receipt\", W06: \"shipment\", LX: \"line\", W12: \
\"shipped\",\n\
W03: \"total shipped\", W15: \"adjustment\", W19: \"adjusted\", N9: \"reference\",\n\
};\n\
const KIND_NAMES = {\n\
944: \"goods counted\", 945: \"goods shipped\", 947: \"stock recounted\",\n\
};\n\
const STATE_NAMES = {\n\
open: [\"warn\", \"no 997 yet\"], accepted: [\"good\", \"accepted\"], refused: [\"bad\", \
\"refused\"],\n\
};\n\
function segmentList(text) {\n\
const segments = segmentsOf(text);\n\
const mark = text.startsWith(\"ISA\") ? text[3] : \"*\";\n\
const shown = segments.map((elements) => el(\"li\",\n\
el(\"code\", elements.join(mark)),\n\
el(\"span.what\", SEGMENT_NAMES[elements[0]] ?? \"\"),\n\
));\n\
return el(\"ol.segments\", shown);\n\
}\n\
function documentWords(text) {\n\
const segments = segmentsOf(text);\n\
const kind = segments.find(([id]) => id === \"ST\")?.[1] ?? \"\";\n\
const words = kind === \"944\" ? receiptWords : kind === \"945\" ? shipmentWords\n\
: kind === \"947\" ? adjustmentWords : answerWords;\n\
const none = { act: \"\", heads: [], rows: [], into: 0, out: 0, change: 0, rejects: \"\" };\n\
return { ...none, ...words(segments) };\n\
}\n\
function answerWords(segments) {\n\
const bad = segments.filter(([id, verdict]) => id === \"AK5\" && verdict !== \"A\").length;\n\
const all = segments.filter(([id]) => id === \"AK5\").length;\n\
const groups = segments.filter(([id, verdict]) => id === \"AK9\" && verdict === \"R\").length;\n\
const rejects = bad ? `${bad} of ${several(all, \"set\")}` : groups ? several(groups, \"group\") : \
\"\";\n\
const title = `An answer to what the depositor sent${rejects && `, rejects ${rejects}`}`;\n\
return { title, rejects };\n\
}\n\
function receiptWords(segments) {\n\
const rows = [];\n\
let [title, act, into] = [\"944\", \"\", 0];\n\
for (const [id, ...of] of segments) {\n\
if (id === \"W17\") {\n\
title = `944 number ${of[2]}: shipment ${of[4]} of order ${of[3] || \"-\"}`;\n\
act = `Count of ${of[4]}`;\n\
}\n\
if (id === \"W07\") rows.push([of[4], \"\", counted(+of[0])]);\n\
if (id === \"N9\") rows.at(-1)[1] = of[1];\n\
if (id === \"W14\") {\n\
title += `, ${counted(+of[0])} of ${counted(+of[1])} announced`;\n\
into = +of[0];\n\
}\n\
}\n\
return { title, act, heads: [\"Item\", \"Lot\", \"Received\"], rows, into };\n\
}\n\
function shipmentWords(segments) {\n\
const rows = [];\n\
let [title, act, out] = [\"945\", \"\", 0];\n\
for (const [id, ...of] of segments) {\n\
if (id === \"W06\") [title, act] = [`945 number ${of[3]}: order ${of[1]}`, `Pick of ${of[1]}`];\n\
if (id === \"W12\") {\n\
const [, ordered, shipped, short] = of.map(Number);\n\
const rest = short ? `, ${counted(short)} short` : \"\";\n\
rows.push([of[7], \"all lots\", `${counted(shipped)} of ${counted(ordered)}${rest}`]);\n\
}\n\
if (id === \"N9\") rows.push([\"\", of[1], counted(+of[2])]);\n\
if (id === \"W03\") {\n\
title += `, ${several(+of[0], \"piece\")} shipped`;\n\
out = +of[0];\n\
}\n\
}\n\
return { title, act, heads: [\"Item\", \"Lot\", \"Shipped\"], rows, out };\n\
}\n\
function adjustmentWords(segments) {\n\
const rows = [];\n\
let [title, change] = [\"947\", 0];\n\
for (const [id, ...of] of segments) {\n\
if (id === \"W15\") title = `947 number ${of[1]}: stock recounted`;\n\
if (id === \"W19\") {\n\
rows.push([of[5], \"\", `${+of[1] > 0 ? \"+\" : \"\"}${counted(+of[1])}`]);\n\
change += +of[1];\n\
}\n\
if (id === \"N9\") rows.at(-1)[1] = of[1];\n\
}\n\
return { title, act: \"Recount\", heads: [\"Item\", \"Lot\", \"Difference\"], rows, change };\n\
}\n\
function toldBy(who, { number, kind }, text) {\n\
const [day = \"\", time = \"\"] = segmentsOf(text)[0].slice(9, 11);\n\
const [year, month, date] = [0, 2, 4].map((at) => +day.slice(at, at + 2));\n\
const at = new Date(Date.UTC(2000 + year, month - 1, date, +time.slice(0, 2), +time.slice(2)));\n\
const { act, title, into, out, change, rejects } = documentWords(text);\n\
return { who, number, kind, at, act, title, into, out, change, rejects };\n\
}\n\
function documentShown(text) {\n\
const { title, heads, rows } = documentWords(text);\n\
return el(\"div.document\",\n\
el(\"h3\", title),\n\
rows.length ? el(\"div.wide\", plainTable(heads, rows, [2])) : null,\n\
el(\"details\", { open: rows.length === 0 },\n\
el(\"summary\", \"As it went out, by segment\"), segmentList(text)),\n\
);\n\
}\n\
";
