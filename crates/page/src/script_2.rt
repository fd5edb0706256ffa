//! The script, part 2. Made by bench/page_source.py from crates/page/page/script/02-server.js: edit
//! that.

/// The script, part 2.
pub const SCRIPT_2: &[u8] = b"const WAIT_TO_READ = 30000;\n\
const WAIT_TO_ACT = 60000;\n\
class Lost extends Error {}\n\
class Refused extends Error {\n\
constructor(status, text) {\n\
super(text.trim() || `status ${status}`);\n\
this.status = status;\n\
this.text = text;\n\
}\n\
}\n\
const REFUSALS = {\n\
20: [\"Nobody is enrolled under this id.\", \"Choose the depositor from the list.\"],\n\
21: [\n\
\"This ticket was given before, with another act or other lines.\",\n\
\"See the outbox for what was done, then review again: you get a new ticket.\",\n\
],\n\
22: [\n\
\"No advice with this shipment number has passed.\",\n\
\"Compare the delivery note. The 943 may not be here, or was rejected.\",\n\
],\n\
23: [\n\
\"This advice was counted before.\",\n\
\"Recount the lots that differ.\",\n\
],\n\
24: [\n\
\"No order with this number has passed.\",\n\
\"Compare the number. The 940 may not be here, or was rejected.\",\n\
],\n\
25: [\n\
\"This order was picked before, perhaps by someone else just now.\",\n\
\"The 945 in the outbox says what was shipped. Don't ship it again.\",\n\
],\n\
26: [\n\
\"A line has more of a lot than this order has reserved.\",\n\
\"Pick what the sheet shows, from the lots that it shows.\",\n\
],\n\
27: [\n\
\"A line names a lot that no count has named.\",\n\
\"Look for a typing error. Else name the lot in the next count.\",\n\
],\n\
28: [\n\
\"A line sets less than open orders have reserved.\",\n\
\"Pick those orders first, with what there is; then recount.\",\n\
],\n\
29: [\"Every line is what the book has.\", \"Nothing to do: no 947 goes out.\"],\n\
30: [\n\
\"A quantity is too large: over 999,999, in a recount over 999,999,999.\",\n\
\"Look for a typing error; count each shipment by itself.\",\n\
],\n\
31: [\"A lot of an item stands twice.\", \"Make it one line with the sum.\"],\n\
32: [\n\
\"A number, item, lot or quantity can't be read.\",\n\
\"Use capitals, digits, - and . alone, and whole numbers.\",\n\
],\n\
33: [\"Over 999 lines.\", \"Split it into several acts.\"],\n\
34: [\"The depositor has used up its numbers.\", \"Enrol it under a second id.\"],\n\
};\n\
const STATUSES = {\n\
403: [\n\
\"The server turned this page away.\",\n\
\"Open it at the clerks' own address, not through another name or page.\",\n\
],\n\
503: [\n\
\"The server met a fault.\",\n\
\"Look at the server's disk, then at its journal.\",\n\
],\n\
};\n\
function refusalNumber(text) {\n\
const found = /^(\\d{1,2}) [A-Z][A-Za-z]+/.exec(text);\n\
return found ? Number(found[1]) : 0;\n\
}\n\
function isDocument({ status, text }) {\n\
return status === 200 && text.startsWith(\"ISA\");\n\
}\n\
function refusalWords(status, text) {\n\
const number = refusalNumber(text);\n\
const faulty = [\"The server answered with something unexpected.\", \"Tell who keeps the \
server.\"];\n\
const [what, cure] = (status !== 503 && REFUSALS[number]) || STATUSES[status] || faulty;\n\
return { what, cure, line: text.trim().split(\"\\n\")[0] || `status ${status}` };\n\
}\n\
function refusalNote(status, text) {\n\
const { what, cure, line } = refusalWords(status, text);\n\
return note(\"bad\", el(\"strong\", what), el(\"p\", cure), el(\"p.raw\", line));\n\
}\n\
function errorNote(error) {\n\
if (error instanceof Refused) return refusalNote(error.status, error.text);\n\
if (error instanceof Lost) {\n\
const cure = \"Is the server running, and this device in its network?\";\n\
return note(\"bad\", el(\"strong\", \"The server doesn't answer.\"), el(\"p\", cure));\n\
}\n\
return note(\"bad\", el(\"strong\", \"This can't be done here.\"), el(\"p\", error.message));\n\
}\n\
function pathOf(...parts) {\n\
for (const part of parts) {\n\
if (!/^[A-Z0-9.-]+$/i.test(part) || part === \".\" || part === \"..\") {\n\
throw new Error(`A browser can't ask for \"${part}\". Use the command line for it.`);\n\
}\n\
}\n\
return `/${parts.join(\"/\")}`;\n\
}\n\
async function ask(path, how, patience) {\n\
const stop = new AbortController();\n\
const timer = setTimeout(() => stop.abort(), patience);\n\
try {\n\
const got = await fetch(path, {\n\
...how, cache: \"no-store\", redirect: \"error\", signal: stop.signal,\n\
});\n\
const text = await got.text();\n\
showReach(true);\n\
return { status: got.status, text };\n\
} catch {\n\
showReach(false);\n\
throw new Lost(path);\n\
} finally {\n\
clearTimeout(timer);\n\
}\n\
}\n\
async function read(...parts) {\n\
const { status, text } = await ask(pathOf(...parts), {}, WAIT_TO_READ);\n\
if (status !== 200) throw new Refused(status, text);\n\
return text;\n\
}\n\
function post(path, body) {\n\
const headers = { \"Content-Type\": \"text/csv\" };\n\
return ask(path, { method: \"POST\", headers, body }, WAIT_TO_ACT);\n\
}\n\
function showReach(isReached) {\n\
const place = byId(\"reach\");\n\
const words = isReached ? \"Server answers\" : \"No answer\";\n\
if (place.textContent !== words) show(place, words);\n\
place.classList.toggle(\"lost\", !isReached);\n\
}\n\
";
