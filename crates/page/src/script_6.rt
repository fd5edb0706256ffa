//! The script, part 6. Made by bench/page_source.py from crates/page/page/script/06-drawings.js:
//! edit that.

/// The script, part 6.
pub const SCRIPT_6: &[u8] = b"const CODE_WIDTHS = (\n\
\"212222222122222221121223121322131222122213122312132212221213221312231212112232122132\" +\n\
\"122231113222123122123221223211221132221231213212223112312131311222321122321221312212\" +\n\
\"322112322211212123212321232121111323131123131321112313132113132311211313231113231311\" +\n\
\"112133112331132131113123113321133121313121211331231131213113213311213131311123311321\" +\n\
\"331121312113312311332111314111221411431111111224111422121124121421141122141221112214\" +\n\
\"112412122114122411142112142211241211221114413111241112134111111242121142121241114212\" +\n\
\"124112124211411212421112421211212141214121412121111143111341131141114113114311411113\" +\n\
\"411311113141114131311141411131211412211214211232\"\n\
).match(/.{6}/g) ?? [];\n\
const CODE_END = \"2331112\";\n\
const START_B = 104;\n\
function code128(text) {\n\
const codes = [...text].map((letter) => letter.charCodeAt(0) - 32);\n\
const sum = codes.reduce((all, code, at) => all + code * (at + 1), START_B);\n\
return [START_B, ...codes, sum % 103];\n\
}\n\
function barcode(text, module, height) {\n\
const widths = code128(text).map((code) => CODE_WIDTHS[code]).join(\"\") + CODE_END;\n\
let at = 10;\n\
let path = \"\";\n\
[...widths].forEach((width, place) => {\n\
if (place % 2 === 0) path += `M${at} 0h${width}v1h-${width}z`;\n\
at += Number(width);\n\
});\n\
const size = { width: `${((at + 10) * module).toFixed(2)}mm`, height: `${height}mm` };\n\
return drawn(\"svg\", {\n\
...size, viewBox: `0 0 ${at + 10} 1`, preserveAspectRatio: \"none\", class: \"bars\",\n\
role: \"img\", \"aria-label\": `Code 128 of ${text}`,\n\
}, drawn(\"path\", { d: path }));\n\
}\n\
function drawByWidth(box, draw) {\n\
let last = 0;\n\
new ResizeObserver(() => {\n\
const width = Math.round(box.clientWidth);\n\
if (width === last || width === 0) return;\n\
last = width;\n\
show(box, draw(width));\n\
}).observe(box);\n\
}\n\
function flowBar(title, parts, more = \"\") {\n\
const all = Math.max(1, total(parts, ([, pieces]) => pieces));\n\
let at = 0;\n\
const shapes = parts.map(([kind, pieces]) => {\n\
const width = (pieces / all) * 1000;\n\
at += width;\n\
return drawn(\"rect\", { x: at - width, y: 0, width, height: 10, class: kind });\n\
});\n\
const key = parts.map(([kind, pieces, words]) => el(`li.${kind}`, el(\"b\", counted(pieces)),\n\
` ${words}`));\n\
return el(\"div.flow\", el(\"h3\", title), drawn(\"svg\", {\n\
viewBox: \"0 0 1000 10\", preserveAspectRatio: \"none\", \"aria-hidden\": \"true\",\n\
}, shapes), el(\"ul.key\", key, more && el(\"li.other\", more)));\n\
}\n\
function expiryMonths(rows) {\n\
const now = today();\n\
const months = [...Array(12).keys()].map((ahead) => {\n\
const day = new Date(now.getFullYear(), now.getMonth() + ahead, 1);\n\
const name = day.toLocaleString(\"en-US\", { month: \"short\" });\n\
const year = ahead === 0 || day.getMonth() === 0 ? String(day.getFullYear()) : \"\";\n\
return { kind: ahead < 2 ? \"soon\" : \"\", name, year, pieces: 0 };\n\
});\n\
const before = { kind: \"expired\", name: \"Past\", year: \"\", pieces: 0 };\n\
const after = { kind: \"\", name: \"Later\", year: \"\", pieces: 0 };\n\
for (const { expiry, onHand } of rows) {\n\
if (!expiry || onHand === 0) continue;\n\
const day = dayOf(expiry);\n\
const ahead = (day.getFullYear() - now.getFullYear()) * 12 + day.getMonth() - now.getMonth();\n\
const to = (daysTo(expiry) ?? 0) < 0 ? before : months[ahead] ?? after;\n\
to.pieces += onHand;\n\
}\n\
return [before, ...months, after];\n\
}\n\
function expiryPlot(rows) {\n\
const months = expiryMonths(rows);\n\
const most = Math.max(...months.map(({ pieces }) => pieces));\n\
if (most === 0) return hint(\"Nothing on hand has a date.\");\n\
const box = el(\"div.plot\");\n\
drawByWidth(box, (width) => expiryDrawing(months, most, width));\n\
return box;\n\
}\n\
function expiryDrawing(months, most, width) {\n\
const step = width / months.length;\n\
const isNarrow = step < 34;\n\
const full = 120;\n\
const bars = months.map(({ kind, name, year, pieces }, at) => {\n\
const height = pieces === 0 ? 0 : Math.max(3, (pieces / most) * full);\n\
const middle = at * step + step / 2;\n\
const short = isNarrow ? name.slice(0, kind === \"expired\" ? 3 : 1) : name;\n\
return [\n\
drawn(\"rect\", {\n\
x: at * step + step * 0.16, y: 22 + full - height, width: step * 0.68, height, rx: 2,\n\
class: kind,\n\
}, drawn(\"title\", {}, `${name} ${year}: ${several(pieces, \"piece\")}`)),\n\
pieces > 0 && !isNarrow &&\n\
drawn(\"text\", { x: middle, y: 16 + full - height }, COMPACT.format(pieces)),\n\
drawn(\"text\", { x: middle, y: full + 40 }, short),\n\
drawn(\"text\", { x: middle, y: full + 56 }, isNarrow ? \"\" : year),\n\
];\n\
});\n\
const told = months.filter(({ pieces }) => pieces > 0)\n\
.map(({ name, year, pieces }) => `${name} ${year} ${counted(pieces)}`);\n\
const line = drawn(\"line\", { x1: 0, x2: width, y1: 22 + full, y2: 22 + full });\n\
return drawn(\"svg\", {\n\
viewBox: `0 0 ${width} 184`, width, height: 184, role: \"img\",\n\
\"aria-label\": `Pieces on hand by month of expiry: ${told.join(\", \")}`,\n\
}, bars, line);\n\
}\n\
";
