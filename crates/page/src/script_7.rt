//! The script, part 7. Made by bench/page_source.py from crates/page/page/script/07-tables.js: edit
//! that.

/// The script, part 7.
pub const SCRIPT_7: &[u8] = b"const MOST_ROWS = 200;\n\
function compared(one, other) {\n\
if (one === other) return 0;\n\
if (one === null || one === \"\") return 1;\n\
if (other === null || other === \"\") return -1;\n\
return one < other ? -1 : 1;\n\
}\n\
function tableOf({ label, columns, by = 0, none, totals, mark }) {\n\
const sorted = { by, isDown: false, most: MOST_ROWS };\n\
let rows = [];\n\
const box = el(\"div.table\");\n\
const press = (at) => {\n\
sorted.isDown = sorted.by === at ? !sorted.isDown : false;\n\
sorted.by = at;\n\
render();\n\
};\n\
const line = (row) => el(\"tr\", { class: mark ? mark(row) : \"\" }, columns.map((column) =>\n\
cellOf(column, column.cell ? column.cell(row) : shownValue(column, row))));\n\
const foot = (sums) => el(\"tfoot\", el(\"tr\", columns.map((column, at) =>\n\
cellOf(column, sums[at]))));\n\
const render = (most = sorted.most) => keepFocus(box, () => {\n\
if (rows.length === 0) return show(box, hint(none));\n\
const value = columns[sorted.by]?.value ?? (() => null);\n\
const sign = sorted.isDown ? -1 : 1;\n\
const all = [...rows].sort((one, other) => sign * compared(value(one), value(other)));\n\
const heads = columns.map((column, at) => headOf(column, at, sorted, () => press(at)));\n\
const left = all.length - most;\n\
const more = button(`Show more: ${counted(left)} rows are left`, () => {\n\
sorted.most += 5 * MOST_ROWS;\n\
render();\n\
});\n\
show(box, el(\"table\", { \"aria-label\": label },\n\
el(\"thead\", el(\"tr\", heads)),\n\
el(\"tbody\", all.slice(0, most).map(line)), totals && foot(totals(rows))),\n\
left > 0 && more);\n\
});\n\
const put = (others, most) => {\n\
rows = others;\n\
render(most);\n\
};\n\
put([]);\n\
return { box, put };\n\
}\n\
function keepFocus(box, draw) {\n\
const at = document.activeElement;\n\
const had = box.contains(at) ? at?.textContent : null;\n\
draw();\n\
if (had === null) return;\n\
const all = [...box.querySelectorAll(\"a, button\")];\n\
all.find((it) => it.textContent === had)?.focus({ preventScroll: true });\n\
}\n\
function headOf({ name, isNumber }, at, { by, isDown }, pressed) {\n\
const sort = by !== at ? \"none\" : isDown ? \"descending\" : \"ascending\";\n\
const arrow = el(\"span.arrow\", { \"aria-hidden\": \"true\" });\n\
const pressable = el(\"button\", { type: \"button\", on: { click: pressed } }, name, arrow);\n\
return el(\"th\", { scope: \"col\", class: isNumber ? \"number\" : \"\", \"aria-sort\": sort }, \
pressable);\n\
}\n\
function plainTable(heads, rows, numbers) {\n\
const kind = (at) => ({ class: numbers.includes(at) ? \"number\" : \"\" });\n\
const head = heads.map((words, at) => el(\"th\", { scope: \"col\", ...kind(at) }, words));\n\
const lines = rows.map((cells) => el(\"tr\", cells.map((it, at) => el(\"td\", kind(at), it))));\n\
return el(\"table.plain\", el(\"thead\", el(\"tr\", head)),\n\
el(\"tbody\", lines));\n\
}\n\
function shownValue({ value, isNumber }, row) {\n\
const shown = value(row);\n\
return isNumber && typeof shown === \"number\" ? counted(shown) : shown;\n\
}\n\
function cellOf({ name, isNumber, isText }, shown) {\n\
const kind = isNumber ? \"number\" : isText ? \"\" : \"word\";\n\
return el(\"td\", { class: kind, \"data-name\": name }, shown);\n\
}\n\
const fresh = { at: 0, from: \"\", after: \"\" };\n\
function freshness(expiry) {\n\
const now = Math.floor(Date.now() / 60000);\n\
if (now !== fresh.at) {\n\
const day = today();\n\
Object.assign(fresh, { at: now, from: codeOf(day) });\n\
day.setDate(day.getDate() + 30);\n\
fresh.after = codeOf(day);\n\
}\n\
if (!expiry || expiry > fresh.after) return \"\";\n\
return expiry < fresh.from ? \"expired\" : \"soon\";\n\
}\n\
function expiryShown(expiry) {\n\
const kind = freshness(expiry);\n\
if (kind === \"\") return dated(expiry);\n\
const days = daysTo(expiry) ?? 0;\n\
const near = days === 0 ? \"today\" : `in ${several(days, \"day\")}`;\n\
return [`${dated(expiry)} `, chip(kind === \"expired\" ? \"bad\" : \"warn\",\n\
kind === \"expired\" ? \"expired\" : near)];\n\
}\n\
function total(rows, amount) {\n\
return rows.reduce((sum, row) => sum + amount(row), 0);\n\
}\n\
function tile(value, words, kind = \"\") {\n\
const shown = typeof value === \"number\" ? counted(value) : value;\n\
return el(`div.tile.${kind}`, el(\"b\", shown), el(\"span\", words));\n\
}\n\
function card(title, ...children) {\n\
return el(\"section.card\", el(\"h2\", title), children);\n\
}\n\
function linkTo(parts, shown, kind = \"\") {\n\
return el(\"a\", { href: `#${parts.join(\"/\")}`, class: kind }, shown);\n\
}\n\
";
