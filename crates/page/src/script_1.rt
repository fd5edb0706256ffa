//! The script, part 1. Made by bench/page_source.py from crates/page/page/script/01-elements.js:
//! edit that.

/// The script, part 1.
pub const SCRIPT_1: &[u8] = b"\"use strict\";\n\
const SVG_SPACE = \"http://www.w3.org/2000/svg\";\n\
const DAY = 86400000;\n\
function byId(id) {\n\
return document.getElementById(id);\n\
}\n\
function dress(made, traits) {\n\
for (const [name, value] of Object.entries(traits)) {\n\
if (name === \"on\") {\n\
for (const [what, heard] of Object.entries(value)) made.addEventListener(what, heard);\n\
} else if (typeof value === \"boolean\") {\n\
made.toggleAttribute(name, value);\n\
} else if (value !== null && value !== undefined) {\n\
made.setAttribute(name, String(value));\n\
}\n\
}\n\
}\n\
function fill(into, children) {\n\
for (const child of children.flat(3)) {\n\
if (child === null || child === undefined || child === false) continue;\n\
into.append(child instanceof Node ? child : document.createTextNode(String(child)));\n\
}\n\
}\n\
function el(kind, ...rest) {\n\
const [tag, ...classes] = kind.split(\".\");\n\
const made = document.createElement(tag);\n\
if (classes.length) made.className = classes.join(\" \");\n\
if (rest[0]?.constructor === Object) dress(made, rest.shift());\n\
fill(made, rest);\n\
return made;\n\
}\n\
function drawn(tag, traits = {}, ...children) {\n\
const made = document.createElementNS(SVG_SPACE, tag);\n\
dress(made, traits);\n\
fill(made, children);\n\
return made;\n\
}\n\
function show(into, ...children) {\n\
into.replaceChildren();\n\
fill(into, children);\n\
}\n\
function button(words, pressed, traits = {}) {\n\
return el(\"button\", { type: \"button\", ...traits, on: { click: pressed } }, words);\n\
}\n\
function labelled(words, field) {\n\
return el(\"label.field\", el(\"span.label\", words), field);\n\
}\n\
function hint(...children) {\n\
return el(\"p.hint\", children);\n\
}\n\
function note(kind, ...children) {\n\
const role = kind === \"bad\" ? \"alert\" : \"status\";\n\
return el(`div.note.${kind}`, { role }, ...children);\n\
}\n\
function chip(kind, words) {\n\
return el(`span.chip.${kind}`, words);\n\
}\n\
function say(words) {\n\
byId(\"said\").textContent = words;\n\
}\n\
const WHOLE = new Intl.NumberFormat(\"en-US\");\n\
const COMPACT = new Intl.NumberFormat(\"en-US\", { notation: \"compact\" });\n\
function counted(value) {\n\
return WHOLE.format(value);\n\
}\n\
function several(value, one, many = `${one}s`) {\n\
return `${counted(value)} ${value === 1 ? one : many}`;\n\
}\n\
function two(value) {\n\
return String(value).padStart(2, \"0\");\n\
}\n\
function today() {\n\
const now = new Date();\n\
return new Date(now.getFullYear(), now.getMonth(), now.getDate());\n\
}\n\
function dayOf(text) {\n\
return new Date(+text.slice(0, 4), +text.slice(4, 6) - 1, +text.slice(6, 8));\n\
}\n\
function codeOf(day) {\n\
return `${day.getFullYear()}${two(day.getMonth() + 1)}${two(day.getDate())}`;\n\
}\n\
function dated(text) {\n\
return text ? `${text.slice(0, 4)}-${text.slice(4, 6)}-${text.slice(6, 8)}` : \"\";\n\
}\n\
function daysTo(text) {\n\
return text ? Math.round((dayOf(text).getTime() - today().getTime()) / DAY) : null;\n\
}\n\
function stampOf(now) {\n\
return `${dated(codeOf(now))} ${two(now.getHours())}:${two(now.getMinutes())}`;\n\
}\n\
function nowAndThen(draw) {\n\
let [timer, next] = [0, 0];\n\
return () => {\n\
if (timer) return;\n\
timer = setTimeout(() => {\n\
const begun = performance.now();\n\
draw();\n\
const ended = performance.now();\n\
[timer, next] = [0, ended + Math.max(250, 5 * (ended - begun))];\n\
}, Math.max(0, next - performance.now()));\n\
};\n\
}\n\
const spare = {};\n\
const store = (() => {\n\
try {\n\
return localStorage;\n\
} catch {\n\
return {};\n\
}\n\
})();\n\
function kept(name) {\n\
return spare[`whx12.${name}`] ?? store[`whx12.${name}`] ?? null;\n\
}\n\
function keep(name, text) {\n\
const at = `whx12.${name}`;\n\
delete spare[at];\n\
if (text === null) return void delete store[at];\n\
try {\n\
store[at] = text;\n\
} catch {\n\
spare[at] = text;\n\
}\n\
}\n\
function keptNames(beginning) {\n\
const names = Object.keys({ ...store, ...spare });\n\
return names.filter((name) => name.startsWith(`whx12.${beginning}`)).map((name) => \
name.slice(6));\n\
}\n\
";
