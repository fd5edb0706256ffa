//! The script, part 11. Made by bench/page_source.py from crates/page/page/script/11-lines.js: edit
//! that.

/// The script, part 11.
pub const SCRIPT_11: &[u8] = b"const IDENTIFIER = /^[A-Z0-9.-]+$/;\n\
const FASTEST_HAND = 60;\n\
const MOST_FIELDS = 60;\n\
function draftName({ kind, who, subject }) {\n\
return `draft.${kind}/${who}/${subject}`;\n\
}\n\
function draftOf(plan) {\n\
try {\n\
return JSON.parse(kept(draftName(plan)) ?? \"\") ?? { values: {}, added: [] };\n\
} catch {\n\
return { values: {}, added: [] };\n\
}\n\
}\n\
function dropDraft(plan) {\n\
keep(draftName(plan), null);\n\
}\n\
function pairName({ item, lot }) {\n\
return `${item},${lot}`;\n\
}\n\
function lineMaker(list, made) {\n\
const rows = new Map();\n\
const shown = (row) => {\n\
if (!row.item.isConnected) list.append(row.item);\n\
return row;\n\
};\n\
return {\n\
rowOf: (field) => {\n\
const row = rows.get(pairName(field)) ?? made(field);\n\
rows.set(pairName(field), row);\n\
return shown(row);\n\
},\n\
bad: () => {\n\
const row = [...rows.values()].find(({ input }) => input.hasAttribute(\"aria-invalid\"));\n\
return row && shown(row);\n\
},\n\
};\n\
}\n\
function lineFields(how) {\n\
const { plan, add } = how;\n\
const draft = draftOf(plan);\n\
const [list, said, told] = [el(\"ul.lines\"), el(\"div\"), el(\"p\", { role: \"status\" })];\n\
const fields = new Map(how.fields.map((field) => [pairName(field), field]));\n\
if (add) for (const { item, lot } of draft.added) fields.set(`${item},${lot}`, add(item, lot));\n\
const text = (field) => draft.values[pairName(field)] ?? \"\";\n\
const changed = () => {\n\
keep(draftName(plan), JSON.stringify(draft));\n\
told.textContent = how.told([...fields.values()].filter((it) => text(it) !== \"\").length);\n\
};\n\
const { rowOf, bad } = lineMaker(list, (it) => fieldRow(it, how, draft, changed, scan));\n\
const adding = addForm((item, lot) => {\n\
if (!add || fields.has(`${item},${lot}`)) return;\n\
show(said);\n\
draft.added.push({ item, lot });\n\
fields.set(`${item},${lot}`, add(item, lot));\n\
changed();\n\
rowOf(fields.get(`${item},${lot}`)).input.focus();\n\
});\n\
const scan = scanner(fields, rowOf, said, (item, lot) => add && adding.ask(item, lot));\n\
const { field, box } = scanField(\"Scan or type a lot or an item\", scan);\n\
const look = () => (bad() ? bad()?.input.focus() : how.look([...fields.values()].map((it) => (\n\
{ field: it, isTyped: text(it) !== \"\", quantity: Number(text(it)) }))));\n\
changed();\n\
return {\n\
box: el(\"div.card\", el(\"div.tools\", box, hint(`\\u201c=\\u201d takes over what is \
${how.have}.`)),\n\
said, list, add ? adding.box : null),\n\
bar: el(\"div.bar\", told, button(`Review the ${plan.kind}`, look, { class: \"main\" })),\n\
scan: field,\n\
show: (passes) => {\n\
list.replaceChildren();\n\
for (const [name, it] of fields) if (passes(name, text(it))) rowOf(it);\n\
},\n\
};\n\
}\n\
function fieldRow(field, how, draft, changed, scanned) {\n\
const name = pairName(field);\n\
const mark = () => {\n\
const text = draft.values[name] ?? \"\";\n\
item.classList.toggle(\"filled\", text !== \"\");\n\
item.classList.toggle(\"differs\", text !== \"\" && Number(text) !== field.have);\n\
};\n\
const accept = (text) => {\n\
if (text === \"\") delete draft.values[name];\n\
else draft.values[name] = text;\n\
mark();\n\
changed();\n\
};\n\
const input = quantityField(field, how.digits, draft.values[name] ?? \"\", accept, scanned);\n\
const same = button(\"=\", () => {\n\
input.value = String(field.have);\n\
input.dispatchEvent(new Event(\"input\"));\n\
}, { class: \"same\", \"aria-label\": `${how.have} of ${field.item}, lot ${field.lot}` });\n\
const item = el(\"li\", { class: field.isAdded ? \"added\" : \"\" },\n\
el(\"div.goods\", el(\"b\", field.item), el(\"span\", field.lot)),\n\
el(\"div.about\", field.isAdded && chip(\"warn\", \"not announced\"),\n\
field.reserved ? [chip(\"\", `${counted(field.reserved)} reserved`), \" \"] : null,\n\
field.expiry && [el(\"small\", \"expires \"), expiryShown(field.expiry)]),\n\
el(\"div.have\", el(\"small\", how.have), ` ${counted(field.have)}`),\n\
same, input);\n\
mark();\n\
return { input, item };\n\
}\n\
function quantityField({ item, lot }, digits, first, accept, scanned) {\n\
let [good, before, last] = [first, first, 0];\n\
const input = el(\"input\", {\n\
type: \"text\", inputmode: \"numeric\", autocomplete: \"off\", enterkeyhint: \"next\", value: \
first,\n\
\"aria-label\": `Quantity of ${item}, lot ${lot}`,\n\
});\n\
const isQuantity = () => new RegExp(`^\\\\d{0,${digits}}$`).test(input.value.trim());\n\
input.addEventListener(\"input\", (event) => {\n\
if (event.timeStamp - last > FASTEST_HAND) before = good;\n\
last = event.timeStamp;\n\
input.toggleAttribute(\"aria-invalid\", !isQuantity());\n\
if (!isQuantity()) return;\n\
good = input.value.trim();\n\
accept(good);\n\
});\n\
input.addEventListener(\"keydown\", (event) => {\n\
if (event.key !== \"Enter\") return;\n\
event.preventDefault();\n\
if (isQuantity()) return byId(\"view\").querySelector(\".scan\").focus();\n\
const text = input.value.trim().toUpperCase();\n\
input.value = before;\n\
input.dispatchEvent(new Event(\"input\"));\n\
scanned(text.startsWith(before) ? text.slice(before.length) : text);\n\
});\n\
input.addEventListener(\"focus\", () => input.select());\n\
return input;\n\
}\n\
function scanner(fields, rowOf, said, unknown) {\n\
let awaited = \"\";\n\
return (text) => {\n\
const parts = text.split(/[ ,;]+/);\n\
const all = [...fields.values()];\n\
const exact = fields.get(parts.slice(0, 2).join(\",\"));\n\
const ofItem = all.filter(({ item }) => item === text);\n\
const ofLot = all.filter(({ item, lot }) => lot === text && (!awaited || item === awaited));\n\
clearScan(text);\n\
for (const it of document.querySelectorAll(\".found\")) it.classList.remove(\"found\");\n\
show(said);\n\
const fit = exact ? [exact] : ofLot.length ? ofLot : ofItem;\n\
const found = fit.slice(0, MOST_FIELDS).map(rowOf);\n\
if (found.length === 1) {\n\
awaited = \"\";\n\
found[0].item.scrollIntoView({ block: \"center\" });\n\
found[0].input.focus();\n\
} else if (found.length > 1) {\n\
awaited = ofItem.length ? text : \"\";\n\
for (const { item } of found) item.classList.add(\"found\");\n\
found[0].item.scrollIntoView({ block: \"nearest\" });\n\
const next = ofItem.length ? \"lot\" : \"item\";\n\
show(said, note(\"warn\", `${text}: ${found.length} lines. Scan the ${next}.`));\n\
} else {\n\
const isLot = awaited !== \"\" && parts.length === 1;\n\
const [item, lot = \"\"] = isLot ? [awaited, text] : parts;\n\
awaited = \"\";\n\
show(said, note(\"bad\", `${text} isn't on this sheet.`));\n\
unknown(item, lot);\n\
}\n\
};\n\
}\n\
function clearScan(text) {\n\
const field = byId(\"view\").querySelector(\".scan\");\n\
if (!field) return;\n\
field.value = \"\";\n\
field.dispatchEvent(new Event(\"input\"));\n\
say(text);\n\
field.focus();\n\
}\n\
function addForm(added) {\n\
const field = (most) => el(\"input\", { ...CAPITALS, type: \"text\", maxlength: most });\n\
const [item, lot] = [field(20), field(12)];\n\
const said = hint();\n\
const add = (event) => {\n\
event.preventDefault();\n\
const [one, other] = [item, lot].map((it) => it.value.trim().toUpperCase());\n\
if (!IDENTIFIER.test(one) || !IDENTIFIER.test(other)) {\n\
said.textContent = \"An item and a lot have capitals, digits, - and . alone.\";\n\
return;\n\
}\n\
said.textContent = item.value = lot.value = \"\";\n\
box.open = false;\n\
added(one, other);\n\
};\n\
const form = el(\"form.tools\", { on: { submit: add } }, labelled(\"Item\", item),\n\
labelled(\"Lot\", lot), el(\"button\", { type: \"submit\" }, \"Add this line\"));\n\
const box = el(\"details.adding\",\n\
el(\"summary\", \"Add a line that wasn't announced\"), form, said);\n\
const ask = (one, other) => {\n\
box.open = true;\n\
item.value = one;\n\
lot.value = other;\n\
(other ? item : lot).focus();\n\
};\n\
return { box, ask };\n\
}\n\
function differencesOf(lines, kindOf) {\n\
const differing = lines.filter(({ field, quantity }) =>\n\
field.isAdded || quantity !== field.have);\n\
return differing.map(({ field, quantity }) => ({\n\
kind: kindOf(field, quantity), item: field.item, lot: field.lot,\n\
from: field.isAdded ? \"-\" : counted(field.have), to: counted(quantity),\n\
}));\n\
}\n\
function givenBy(lines) {\n\
return lines.map(({ field: { item, lot }, quantity }) => ({ item, lot, quantity }));\n\
}\n\
async function datedFields(who, lines) {\n\
const rows = await stockOf(who).catch(() => /** @type {Row[]} */ ([]));\n\
const dates = new Map(rows.map((row) => [pairName(row), row.expiry]));\n\
return lines.map(({ item, lot, quantity }) => (\n\
{ item, lot, have: quantity, expiry: dates.get(`${item},${lot}`) }));\n\
}\n\
function workHead(view, { who, subject }, fields, have, ...more) {\n\
const pieces = total(fields, (field) => field.have);\n\
return el(\"div.head\",\n\
el(\"div\", linkTo([view], \"\\u2190 All\", \"back\"), el(\"h1\", subject),\n\
hint(linkTo([\"depositor\", who], who), ` \\u00b7 ${several(fields.length, \"line\")}, ` +\n\
`${several(pieces, \"piece\")} ${have}`)),\n\
el(\"div.row\", more));\n\
}\n\
function filledOf(fields) {\n\
return (typed) => `${typed} of ${several(fields.length, \"line\")} filled in`;\n\
}\n\
";
