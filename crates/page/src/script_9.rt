//! The script, part 9. Made by bench/page_source.py from crates/page/page/script/09-today.js: edit
//! that.

/// The script, part 9.
pub const SCRIPT_9: &[u8] = b"const EXPIRY_COLUMNS = [\n\
{ name: \"Depositor\", value: ({ who }) => who },\n\
{ name: \"Item\", value: ({ item }) => item },\n\
{ name: \"Lot\", value: ({ lot }) => lot },\n\
{ name: \"Expires\", value: ({ expiry }) => expiry, cell: ({ expiry }) => expiryShown(expiry) },\n\
{ name: \"On hand\", value: ({ onHand }) => onHand, isNumber: true },\n\
{ name: \"Reserved\", value: ({ reserved }) => reserved, isNumber: true },\n\
];\n\
const ACT_COLUMNS = [\n\
{ name: \"When\", value: ({ made }) => made },\n\
{ name: \"Act\", value: ({ words }) => words, isText: true },\n\
{\n\
name: \"Answer\", value: ({ outcome }) => outcome, isText: true,\n\
cell: ({ kind: [kind, word], outcome }) => [chip(kind, word), ` ${outcome}`],\n\
},\n\
{ name: \"Ticket\", value: ({ ticket }) => ticket, cell: ({ ticket }) => el(\"code\", ticket) },\n\
];\n\
const MOST_ACTS = 20;\n\
function outcomeChip({ state, status }) {\n\
if (state !== \"done\") return [\"warn\", \"open\"];\n\
return status === 200 ? [\"good\", \"done\"] : [\"bad\", \"refused\"];\n\
}\n\
function lastActs(told) {\n\
const mine = keptActs().map((act) => ({\n\
made: act.made, order: act.order, words: actWords(act), outcome: outcomeWords(act),\n\
ticket: act.ticket, kind: outcomeChip(act), text: `${act.who}: ${outcomeWords(act)}`,\n\
}));\n\
const known = new Set(mine.map(({ text }) => text));\n\
const others = told.filter(({ act, who, title }) => act && !known.has(`${who}: ${title}`));\n\
const theirs = others.map(({ at, act, who, title }) => ({\n\
made: stampOf(at), order: at.getTime(), words: `${act} for ${who}`, outcome: title, ticket: \"\",\n\
kind: [\"good\", \"done\"],\n\
}));\n\
return [...mine, ...theirs].sort((one, other) => other.order - one.order).slice(0, MOST_ACTS);\n\
}\n\
function todayFigures(all) {\n\
const works = all.flatMap((it) => it.works);\n\
const counts = works.filter(({ kind }) => kind === \"count\");\n\
const picks = works.filter(({ kind }) => kind === \"pick\");\n\
const near = all.flatMap((it) => it.dated.near);\n\
const expired = near.filter(({ expiry }) => freshness(expiry) === \"expired\").length;\n\
const soon = near.length - expired;\n\
const told = all.flatMap((it) => it.told);\n\
const change = total(told, (it) => it.change);\n\
return [\n\
el(\"div.tiles\",\n\
tile(counts.length, counts.length === 1 ? \"delivery to count\" : \"deliveries to count\"),\n\
tile(picks.length, picks.length === 1 ? \"order to pick\" : \"orders to pick\"),\n\
tile(soon, \"lots expire within 30 days\", soon ? \"warn\" : \"\"),\n\
tile(expired, expired === 1 ? \"lot has expired\" : \"lots have expired\", expired ? \"bad\" : \
\"\")),\n\
flowBar(\"What waits\", [\n\
[\"coming\", total(counts, (work) => work.pieces), \"to come in\"],\n\
[\"going\", total(all, (it) => it.dated.reserved), \"reserved to go out\"],\n\
[\"short\", total(picks, (work) => work.short), \"short\"],\n\
]),\n\
flowBar(\"Today so far\", [\n\
[\"coming\", total(told, (it) => it.into), \"came in\"],\n\
[\"going\", total(told, (it) => it.out), \"went out\"],\n\
], change ? `${change > 0 ? \"+\" : \"\"}${counted(change)} by recounts` : \"\"),\n\
];\n\
}\n\
function refusedCard(all) {\n\
const documents = all.flatMap((it) => it.outbox.refused).map(({ who, number, kind }) => \
el(\"li\",\n\
linkTo([\"depositor\", who], who), ` refused ${kind} number ${number}: call them.`));\n\
const sets = all.flatMap((it) => it.told).filter(({ rejects }) => rejects);\n\
const told = sets.map(({ who, number, rejects }) => el(\"li\", linkTo([\"depositor\", who], who),\n\
`: answer ${number} of today rejects ${rejects}: tell them.`));\n\
const lines = [...documents, ...told];\n\
const more = lines.length - MOST_ACTS;\n\
return lines.length > 0 && card(\"Refused\", el(\"ul.refused\", lines.slice(0, MOST_ACTS)),\n\
more > 0 && hint(`${several(more, \"other\")}.`));\n\
}\n\
function todayParts() {\n\
const house = new Map();\n\
const [top, refused] = [el(\"div.card\"), el(\"div\")];\n\
const progress = el(\"progress\", { \"aria-label\": \"Reading the house\" });\n\
const open = tableOf({ label: \"Open work\", columns: WORK_COLUMNS, none: \"Nothing waits.\" });\n\
const near = tableOf({\n\
label: \"Expired, or expiring within 30 days\", columns: EXPIRY_COLUMNS, by: 3,\n\
none: \"Nothing on hand expires within 30 days.\", mark: ({ expiry }) => freshness(expiry),\n\
});\n\
const acts = tableOf({ label: \"Acts\", columns: ACT_COLUMNS, by: -1, none: \"No act today.\" });\n\
const all = () => [...house.values()];\n\
const figures = () => {\n\
show(top, todayFigures(all()));\n\
show(refused, refusedCard(all()));\n\
};\n\
const draws = [\n\
(most) => open.put(all().flatMap((it) => it.works), most),\n\
(most) => near.put(all().flatMap((it) => it.dated.near), most),\n\
() => acts.put(lastActs(all().flatMap((it) => it.told))),\n\
];\n\
const draw = (at, most) => {\n\
figures();\n\
draws[at](most);\n\
};\n\
return { house, top, refused, progress, open, near, acts, draw };\n\
}\n\
async function todayView(view) {\n\
const parts = todayParts();\n\
const { top, refused, progress, open, near, acts, draw } = parts;\n\
const named = { weekday: \"long\", day: \"numeric\", month: \"long\" };\n\
const day = today().toLocaleDateString(\"en-GB\", named);\n\
for (const at of [0, 1, 2]) draw(at);\n\
show(view.main, el(\"h1\", \"Today \", el(\"small\", day), progress), top, refused,\n\
el(\"div.columns.late\", card(\"Open work\", open.box), el(\"div\",\n\
card(\"Expired, or expiring within 30 days\", near.box), card(\"Last acts\", acts.box))));\n\
anew(view, parts, await gather(view, parts, \"\"));\n\
}\n\
function unread() {\n\
const outbox = { length: 0, refused: [], newest: [] };\n\
return { works: [], dated: { reserved: 0, near: [] }, outbox, told: [] };\n\
}\n\
function roundsOf(book) {\n\
return [\n\
async (who, it) => {\n\
it.outbox = await reading(`outbox/${who}`, book, 0, () => outboxOf(who));\n\
it.works = await reading(`open/${who}`, book, it.outbox.length, () => workOf(who));\n\
},\n\
async (who, it) => {\n\
const name = `dated/${who}/${codeOf(today())}`;\n\
it.dated = await reading(name, book, it.outbox.length, () => datedOf(who));\n\
},\n\
async (who, it) => {\n\
it.told = await toldToday(who, it.outbox.newest);\n\
},\n\
];\n\
}\n\
async function gather(view, { house, progress, draw }, before) {\n\
const [book, names] = await Promise.all([bookState(), depositors()]);\n\
if (book && book === before) return book;\n\
for (const who of names) house.set(who, house.get(who) ?? unread());\n\
Object.assign(progress, { max: 3 * names.length, value: 0, hidden: false });\n\
let done = 0;\n\
for (const [at, round] of roundsOf(book).entries()) {\n\
let most = 20;\n\
const drawn = () => {\n\
progress.value = done;\n\
if (view.isCurrent()) draw(at, most);\n\
};\n\
const some = nowAndThen(drawn);\n\
await askEach(view, names, async (who) => {\n\
await round(who, house.get(who) ?? unread());\n\
done += 1;\n\
some();\n\
});\n\
most = undefined;\n\
drawn();\n\
}\n\
progress.hidden = true;\n\
return book;\n\
}\n\
function anew(view, parts, book) {\n\
setTimeout(async () => {\n\
if (!view.isCurrent()) return;\n\
const now = document.hidden ? book : await gather(view, parts, book).catch(() => \"\");\n\
anew(view, parts, now);\n\
}, 60000);\n\
}\n\
";
