//! The script, part 10. Made by bench/page_source.py from crates/page/page/script/10-depositor.js:
//! edit that.

/// The script, part 10.
pub const SCRIPT_10: &[u8] = b"const STOCK_COLUMNS = [\n\
{ name: \"Item\", value: ({ item }) => item },\n\
{ name: \"Lot\", value: ({ lot }) => lot },\n\
{ name: \"Expires\", value: ({ expiry }) => expiry, cell: ({ expiry }) => expiryShown(expiry) },\n\
{ name: \"Expected\", value: ({ expected }) => expected, isNumber: true },\n\
{ name: \"On hand\", value: ({ onHand }) => onHand, isNumber: true },\n\
{ name: \"Reserved\", value: ({ reserved }) => reserved, isNumber: true },\n\
{ name: \"Shipped\", value: ({ shipped }) => shipped, isNumber: true },\n\
];\n\
const MOST_SENT = 50;\n\
function stockTotals(rows) {\n\
const items = new Set(rows.map(({ item }) => item)).size;\n\
const sums = [(row) => row.expected, (row) => row.onHand, (row) => row.reserved,\n\
(row) => row.shipped].map((amount) => counted(total(rows, amount)));\n\
return [`${several(items, \"item\")}, ${several(rows.length, \"lot\")}`, \"\", \"\", ...sums];\n\
}\n\
function stockCard(rows) {\n\
const table = tableOf({\n\
label: \"Stock\", columns: STOCK_COLUMNS, none: \"Nothing fits.\", totals: stockTotals,\n\
mark: ({ expiry, onHand }) => (onHand ? freshness(expiry) : \"\"),\n\
});\n\
const only = el(\"input\", { type: \"checkbox\", on: { change: () => narrow() } });\n\
const narrow = () => {\n\
const text = scan.field.value.trim().toUpperCase();\n\
table.put(rows.filter(({ item, lot, onHand, expiry }) => `${item} ${lot}`.includes(text) &&\n\
(!only.checked || (onHand > 0 && freshness(expiry) !== \"\"))));\n\
};\n\
const scan = scanField(\"Search item or lot\", narrow, nowAndThen(narrow));\n\
narrow();\n\
return card(\"Stock\", el(\"div.tools\", scan.box,\n\
el(\"label.check\", only, \" Expired or expiring soon\")), table.box);\n\
}\n\
function outboxCard(who, sent) {\n\
const list = el(\"ul.outbox\");\n\
const newest = [...sent].reverse();\n\
const more = el(\"li\", button(\"Show more\", () => render(10 * MOST_SENT)));\n\
let shown = 0;\n\
const render = (most) => {\n\
more.remove();\n\
fill(list, newest.slice(shown, shown += most).map((it) => sentItem(who, it)));\n\
if (shown < sent.length) list.append(more);\n\
};\n\
render(MOST_SENT);\n\
const none = hint(\"Nothing went out yet.\");\n\
return card(\"Outbox\", sent.length ? list : none);\n\
}\n\
function sentItem(who, { number, kind, state }) {\n\
const place = el(\"div\");\n\
const name = kind === \"ANS\" ? \"Answer\" : `${kind} ${KIND_NAMES[kind] ?? \"\"}`;\n\
const opened = async () => {\n\
if (!details.open || place.childNodes.length) return;\n\
try {\n\
show(place, documentShown(await read(\"outbox\", who, String(number))));\n\
} catch (error) {\n\
show(place, errorNote(error));\n\
}\n\
};\n\
const details = el(\"details\", { on: { toggle: opened } },\n\
el(\"summary\", el(\"b\", number), el(\"span\", name),\n\
stateChip(state)), place);\n\
return el(\"li\", details);\n\
}\n\
function stateChip(state) {\n\
const [kind, words] = STATE_NAMES[state] ?? [\"\", \"\"];\n\
return words && chip(kind, words);\n\
}\n\
async function depositorView(view, who) {\n\
const head = await depositorHead(view, \"depositor\", who || \"Depositor\", who);\n\
if (!head) return;\n\
const [rows, works, sent] = await Promise.all([\n\
stockOf(who), workOf(who), read(\"outbox\", who).then(sentTexts),\n\
]);\n\
if (!view.isCurrent()) return;\n\
const open = tableOf({\n\
label: \"Open work\", columns: WORK_COLUMNS.filter(({ name }) => name !== \"Depositor\"),\n\
none: \"Nothing waits.\",\n\
});\n\
open.put(works);\n\
show(view.main, head, depositorTiles(rows, sent),\n\
el(\"div.columns\", card(\"On hand by month of expiry\", expiryPlot(rows)),\n\
card(\"Open work\", open.box)),\n\
stockCard(rows), outboxCard(who, sent));\n\
}\n\
function depositorTiles(rows, sent) {\n\
const expired = rows.filter(({ expiry, onHand }) => onHand && freshness(expiry) === \"expired\");\n\
const refused = sent.filter(({ state }) => state === \"refused\").length;\n\
return el(\"div.tiles.card\",\n\
tile(total(rows, (row) => row.onHand), \"pieces on hand\"),\n\
tile(total(rows, (row) => row.reserved), \"reserved\"),\n\
tile(total(rows, (row) => row.expected), \"expected\"),\n\
tile(total(expired, (row) => row.onHand), \"pieces expired\", expired.length ? \"bad\" : \"\"),\n\
tile(refused, refused === 1 ? \"document refused\" : \"documents refused\",\n\
refused ? \"bad\" : \"\"));\n\
}\n\
";
