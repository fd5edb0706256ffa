//! The script, part 8. Made by bench/page_source.py from crates/page/page/script/08-house.js: edit
//! that.

/// The script, part 8.
pub const SCRIPT_8: &[u8] = b"const AT_ONCE = 6;\n\
const MOST_TEXTS = 20;\n\
const readings = new Map();\n\
async function bookState() {\n\
const { status, text } = await ask(\"/health\", {}, WAIT_TO_READ);\n\
const entries = Number(/^entries (\\d+)$/m.exec(text)?.[1] ?? 0);\n\
if (status !== 200 || entries < Number(kept(\"entries\"))) {\n\
readings.clear();\n\
keep(\"old\", null);\n\
}\n\
keep(\"entries\", String(entries));\n\
return status === 200 ? text + codeOf(today()) : \"\";\n\
}\n\
async function reading(name, book, length, fetched) {\n\
const before = readings.get(name);\n\
const holds = before && ((book && before.book === book) || (length && before.length === length));\n\
const value = holds ? before.value : await fetched();\n\
readings.set(name, { book, length: length || (holds ? before.length : 0), value });\n\
return value;\n\
}\n\
async function depositors() {\n\
return linesOf(await read(\"depositors\"));\n\
}\n\
async function stockOf(who) {\n\
return stockRows(await read(\"stock\", who, \"csv\"));\n\
}\n\
async function workOf(who) {\n\
const { advices, orders } = openWork(await read(\"open\", who));\n\
const counts = advices.map(({ number, lines, pieces, order }) => (\n\
{ who, kind: \"count\", number, lines, pieces, about: `order ${order}`, short: 0 }));\n\
const picks = orders.map(({ number, lines, to, short }) => (\n\
{ who, kind: \"pick\", number, lines, pieces: null, about: to === \"-\" ? \"\" : to, short }));\n\
return [...counts, ...picks];\n\
}\n\
async function outboxOf(who) {\n\
const text = await read(\"outbox\", who);\n\
const refused = [...text.matchAll(/^ *(\\d+) (\\d+) refused$/gm)].map(([, number, kind]) => (\n\
{ who, number: Number(number), kind }));\n\
const newest = sentTexts(text.slice(-24 * MOST_TEXTS)).slice(-MOST_TEXTS).reverse();\n\
return { length: text.length + 1, refused, newest };\n\
}\n\
async function datedOf(who) {\n\
const rows = await stockOf(who);\n\
const near = rows.filter(({ onHand, expiry }) => onHand && freshness(expiry));\n\
const reserved = total(rows, (row) => row.reserved);\n\
return { reserved, near: near.map((row) => ({ ...row, who })) };\n\
}\n\
function oldTexts() {\n\
return JSON.parse(kept(\"old\") ?? \"{}\");\n\
}\n\
async function toldToday(who, newest) {\n\
const all = [];\n\
const old = oldTexts()[who] ?? 0;\n\
for (const sent of newest.filter(({ number }) => number > old)) {\n\
const number = String(sent.number);\n\
const told = await reading(`text/${who}/${number}`, \"\", 1, async () =>\n\
toldBy(who, sent, await read(\"outbox\", who, number)));\n\
if (told.at < today()) {\n\
keep(\"old\", JSON.stringify({ ...oldTexts(), [who]: sent.number }));\n\
break;\n\
}\n\
all.push(told);\n\
}\n\
return all;\n\
}\n\
async function askEach(view, names, each) {\n\
const left = [...names];\n\
const worker = async () => {\n\
for (let who = left.shift(); who && view.isCurrent(); who = left.shift()) await each(who);\n\
};\n\
await Promise.all([...Array(AT_ONCE)].map(worker));\n\
}\n\
function viewOf({ kind, who, number }) {\n\
return [kind === \"count\" ? \"receiving\" : \"picking\", who, number];\n\
}\n\
const WORK_COLUMNS = [\n\
{\n\
name: \"To do\", value: ({ kind }) => kind,\n\
cell: ({ kind }) => chip(kind === \"count\" ? \"in\" : \"out\", kind === \"count\" ? \"Count\" : \
\"Pick\"),\n\
},\n\
{ name: \"Depositor\", value: ({ who }) => who },\n\
{\n\
name: \"Number\", value: ({ number }) => number,\n\
cell: (work) => linkTo(viewOf(work), work.number, \"open\"),\n\
},\n\
{ name: \"Lines\", value: ({ lines }) => lines, isNumber: true },\n\
{ name: \"Pieces\", value: ({ pieces }) => pieces, isNumber: true },\n\
{\n\
name: \"Short\", value: ({ short }) => short || null, isNumber: true,\n\
cell: ({ short }) => (short ? chip(\"bad\", counted(short)) : \"\"),\n\
},\n\
{ name: \"Order or name\", value: ({ about }) => about, isText: true },\n\
];\n\
async function depositorHead(view, name, title, who) {\n\
const names = await depositors();\n\
const heard = (event) => {\n\
if (event.target.value) location.hash = `${name}/${event.target.value}`;\n\
};\n\
const head = el(\"div.head\", el(\"h1\", title), labelled(\"Depositor\",\n\
el(\"select\", { on: { change: heard } }, el(\"option\", { value: \"\" }, \"Choose ..\"),\n\
names.map((it) => el(\"option\", { selected: it === who }, it)))));\n\
if (who && !names.includes(who)) throw new Refused(404, \"20 UnknownDepositor\");\n\
if (who) return head;\n\
if (names.length === 1) location.replace(`#${name}/${names[0]}`);\n\
else if (view.isCurrent()) {\n\
const links = names.map((it) => el(\"li\", linkTo([name, it], it)));\n\
show(view.main, head, el(\"ul.names.card\", links));\n\
}\n\
return null;\n\
}\n\
const CAPITALS = { autocomplete: \"off\", autocapitalize: \"characters\", spellcheck: \"false\" \
};\n\
function scanField(words, entered, typed) {\n\
const field = el(\"input.scan\", {\n\
...CAPITALS, type: \"search\", enterkeyhint: \"go\",\n\
on: {\n\
input: () => typed?.(field.value.trim().toUpperCase()),\n\
keydown: (event) => {\n\
if (event.key !== \"Enter\") return;\n\
event.preventDefault();\n\
const text = field.value.trim().toUpperCase();\n\
if (text !== \"\") entered(text);\n\
},\n\
},\n\
});\n\
return { field, box: labelled(words, field) };\n\
}\n\
async function workList(view, kind, words) {\n\
const [book, names] = await Promise.all([bookState(), depositors()]);\n\
if (!view.isCurrent()) return;\n\
const works = new Map();\n\
const said = el(\"div\");\n\
const columns = WORK_COLUMNS.filter(({ name }) =>\n\
name !== \"To do\" && name !== (kind === \"count\" ? \"Short\" : \"Pieces\"));\n\
const table = tableOf({ label: words.title, columns, by: 0, none: words.none });\n\
const narrowed = (text) => names.flatMap((who) => works.get(who) ?? []).filter((work) =>\n\
work.kind === kind && `${work.who} ${work.number} ${work.about}`.toUpperCase().includes(text));\n\
let [isRead, awaited] = [false, \"\"];\n\
const go = (text) => {\n\
if (!isRead) {\n\
awaited = text;\n\
return show(said, hint(\"Reading what is open ..\"));\n\
}\n\
const likely = narrowed(text);\n\
const found = likely.filter(({ number }) => number === text);\n\
const [only, another] = found.length ? found : likely;\n\
if (only && !another) location.hash = viewOf(only).join(\"/\");\n\
else show(said, note(\"warn\", only ? `${several(likely.length, \"depositor\")} ` +\n\
`or numbers fit \"${text}\": choose below.` : `Nothing open fits \"${text}\".`));\n\
};\n\
const put = () => view.isCurrent() && table.put(narrowed(scan.field.value.trim().toUpperCase()));\n\
const scan = scanField(words.field, go, nowAndThen(put));\n\
show(view.main, el(\"h1\", words.title),\n\
el(\"div.card\", el(\"div.tools\", scan.box), said, table.box));\n\
scan.field.focus();\n\
const draw = nowAndThen(put);\n\
await askEach(view, names, async (who) => {\n\
works.set(who, await reading(`open/${who}`, book, 0, () => workOf(who)));\n\
draw();\n\
});\n\
put();\n\
isRead = true;\n\
if (awaited && view.isCurrent()) go(awaited);\n\
}\n\
";
