//! The script, part 13. Made by bench/page_source.py from crates/page/page/script/13-picking.js:
//! edit that.

/// The script, part 13.
pub const SCRIPT_13: &[u8] = b"async function pickingView(view, who, order) {\n\
if (!order) {\n\
return workList(view, \"pick\", {\n\
title: \"Picking\", field: \"Scan or type an order number\", none: \"No order waits.\",\n\
});\n\
}\n\
const sheet = pickingSheet(await read(\"orders\", who, order));\n\
const fields = await datedFields(who, sheet.lines);\n\
if (!view.isCurrent()) return;\n\
const plan = { kind: \"pick\", who, subject: order };\n\
const lines = lineFields({\n\
plan, fields, have: \"to pick\", digits: 6, told: filledOf(fields),\n\
look: (typed) => reviewPick(plan, typed),\n\
});\n\
show(view.main, workHead(\"picking\", plan, fields, \"to pick\",\n\
button(\"Print the sheet\", () => window.print())),\n\
el(\"div.columns.wide-first\", lines.box,\n\
el(\"div\", addressCard(sheet.address), shortCard(sheet.short))), lines.bar);\n\
lines.show(() => true);\n\
printSheet(plan, sheet, fields);\n\
lines.scan.focus();\n\
}\n\
function addressCard(address) {\n\
const lines = address.map((line) => el(\"span.line\", line));\n\
return card(\"Ship to\", address.length ? el(\"address\", lines)\n\
: hint(\"The order names no address.\"));\n\
}\n\
function shortCard(short) {\n\
if (short.length === 0) return null;\n\
const rows = short.map(({ item, quantity }) => el(\"li\", el(\"b\", item), \" \",\n\
chip(\"bad\", several(quantity, \"piece\"))));\n\
return card(\"Short\", hint(\n\
\"Ordered, and not reserved: leave these out, the 945 says so.\"),\n\
el(\"ul.short\", rows));\n\
}\n\
function reviewPick(plan, typed) {\n\
const picked = typed.filter(({ quantity }) => quantity > 0);\n\
const left = typed.filter(({ isTyped }) => !isTyped).length;\n\
const none = \"Nothing is shipped: the order closes, and what it has reserved is free again.\";\n\
const some = `${several(left, \"line\")} without a quantity: not shipped, and free again.`;\n\
review({\n\
...plan, lines: givenBy(picked), heads: [\"To pick\", \"Picked\"],\n\
differences: differencesOf(typed, ({ have }, quantity) => (\n\
quantity === 0 ? \"not picked\" : quantity > have ? \"over\" : \"short\")),\n\
questions: [picked.length === 0 ? none : left && some],\n\
same: \"All is picked as the sheet says.\",\n\
done: () => {\n\
location.hash = \"picking\";\n\
},\n\
});\n\
}\n\
function printSheet({ who, subject }, { address, short }, fields) {\n\
const pieces = total(fields, (field) => field.have);\n\
const sums = [several(fields.length, \"line\"), \"\", \"\", \"\", counted(pieces), \"\"];\n\
show(byId(\"sheet\"),\n\
el(\"header\",\n\
el(\"div\", el(\"p\", `Picking sheet \\u00b7 ${who}`), el(\"h1\", subject),\n\
barcode(subject, 0.3, 14)),\n\
el(\"address\", el(\"small\", \"Ship to\"),\n\
(address.length ? address : [\"-\"]).map((it) => el(\"span.line\", it)))),\n\
plainTable([\"\", \"Item\", \"Lot\", \"Expires\", \"Quantity\", \"Picked\"],\n\
[...fields.map(printLine), sums], [4]),\n\
short.length ? el(\"p\", el(\"b\", \"Short: \"),\n\
short.map(({ item, quantity }) => `${item} ${counted(quantity)}`).join(\", \")) : null,\n\
el(\"footer\", [\"Picked by\", \"Checked by\", \"Date, time\"].map((words) => el(\"p\", words))),\n\
el(\"p.printed\", `Printed ${stampOf(new Date())}`));\n\
}\n\
function printLine({ item, lot, have, expiry = \"\" }, at) {\n\
return [at + 1, [el(\"b\", item), barcode(item, 0.23, 8)],\n\
[el(\"b\", lot), barcode(lot, 0.23, 8)],\n\
[dated(expiry), freshness(expiry) === \"expired\" && el(\"b.mark\", \"EXPIRED\")],\n\
counted(have), \"\"];\n\
}\n\
";
