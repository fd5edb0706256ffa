//! The script, part 4. Made by bench/page_source.py from crates/page/page/script/04-acts.js: edit
//! that.

/// The script, part 4.
pub const SCRIPT_4: &[u8] = b"const AGAIN_AFTER = 4000;\n\
const MOST_KEPT = 40;\n\
const waiters = new Map();\n\
const underWay = new Set();\n\
function clerk() {\n\
return byId(\"clerk\").value;\n\
}\n\
function device() {\n\
const known = kept(\"device\");\n\
if (known) return known;\n\
const letters = \"ABCDEFGHJKLMNPQRSTUVWXYZ23456789\";\n\
const made = [...crypto.getRandomValues(new Uint8Array(2))].map((byte) => letters[byte % 32]);\n\
keep(\"device\", made.join(\"\"));\n\
return made.join(\"\");\n\
}\n\
function newTicket() {\n\
const number = (Number(kept(\"number\") ?? \"0\") % 9999) + 1;\n\
keep(\"number\", String(number));\n\
return `${clerk()}-${codeOf(new Date()).slice(2)}-${device()}-${number}`;\n\
}\n\
function actWords({ kind, who, subject }) {\n\
if (kind === \"count\") return `Count of ${subject} for ${who}`;\n\
return kind === \"pick\" ? `Pick of ${subject} for ${who}` : `Recount for ${who}`;\n\
}\n\
function actPath({ kind, who, ticket, subject }, ...before) {\n\
const parts = [...before, kind, who, ticket];\n\
return kind === \"recount\" ? pathOf(...parts) : pathOf(...parts, subject);\n\
}\n\
function keepAct(act) {\n\
keep(`act.${act.ticket}`, JSON.stringify(act));\n\
}\n\
function keptActs() {\n\
const acts = [];\n\
for (const name of keptNames(\"act.\")) {\n\
try {\n\
acts.push(JSON.parse(kept(name) ?? \"\"));\n\
} catch {\n\
keep(name, null);\n\
}\n\
}\n\
return acts.sort((one, other) => one.order - other.order);\n\
}\n\
function isAside(ticket) {\n\
return keptActs().some((act) => act.ticket === ticket && act.state === \"aside\");\n\
}\n\
function forgetOld() {\n\
const over = keptActs().filter((act) => act.state !== \"open\" && act.isTold);\n\
for (const act of over.slice(0, -MOST_KEPT)) keep(`act.${act.ticket}`, null);\n\
}\n\
function openActLike({ kind, who, subject }) {\n\
const isLike = (act) => act.kind === kind && act.who === who && act.subject === subject;\n\
return keptActs().find((act) => act.state === \"open\" && isLike(act));\n\
}\n\
function settles(act, got) {\n\
if (isDocument(got)) return true;\n\
if (got.status < 400 || got.status >= 500) return false;\n\
return refusalNumber(got.text) >= 20 || act.tries === 1;\n\
}\n\
async function give(act) {\n\
if (underWay.has(act.ticket)) return;\n\
underWay.add(act.ticket);\n\
act.tries += 1;\n\
keepAct(act);\n\
try {\n\
const got = await post(actPath(act), act.body);\n\
if (settles(act, got)) settle(act, got);\n\
else act.fault = refusalWords(got.status, got.text).line.slice(0, 60);\n\
} catch (error) {\n\
if (!(error instanceof Lost)) throw error;\n\
act.fault = \"\";\n\
} finally {\n\
underWay.delete(act.ticket);\n\
if (act.state === \"done\" || !isAside(act.ticket)) keepAct(act);\n\
showWaiting();\n\
}\n\
}\n\
function settle(act, { status, text }) {\n\
Object.assign(act, { state: \"done\", status, text, answered: stampOf(new Date()) });\n\
const waiter = waiters.get(act.ticket);\n\
waiters.delete(act.ticket);\n\
act.isTold = waiter !== undefined;\n\
if (status === 200) dropDraft(act);\n\
keepAct(act);\n\
waiter?.(act);\n\
say(`${actWords(act)}: ${status === 200 ? \"done\" : \"refused\"}`);\n\
forgetOld();\n\
}\n\
async function giveAgain() {\n\
for (const act of keptActs()) {\n\
if (act.state === \"open\") await give(act);\n\
}\n\
}\n\
function outcomeWords(act) {\n\
if (act.state === \"aside\") return \"set aside without an answer\";\n\
if (act.state === \"open\") return \"no answer yet\";\n\
if (act.status === 200) return documentWords(act.text).title;\n\
return `refused: ${refusalWords(act.status, act.text).what}`;\n\
}\n\
function triesWords(act) {\n\
if (act.tries < 2) return \"\";\n\
return `Given ${act.tries} times under ticket ${act.ticket}: this is its answer, it counts \
once.`;\n\
}\n\
function showWaiting() {\n\
const acts = keptActs().filter((act) => act.state === \"open\" || !act.isTold);\n\
const shown = acts.filter((act) => !waiters.has(act.ticket) || act.tries > 1 || act.fault);\n\
const place = byId(\"waiting\");\n\
place.hidden = shown.length === 0;\n\
const there = new Map([...place.children].map((it) => [it.dataset.told, it]));\n\
const notes = shown.map((act) => {\n\
const told = [act.ticket, act.state, act.fault].join(\" \");\n\
const made = there.get(told)\n\
?? (act.state === \"open\" ? waitingAct(act) : answeredNote(act));\n\
made.dataset.told = told;\n\
return made;\n\
});\n\
const isSame = notes.length === there.size && notes.every((it) => it.isConnected);\n\
if (!isSame) show(place, notes);\n\
}\n\
function waitingNote({ ticket, fault }, lead, ...more) {\n\
const why = fault ? `The server has a fault: ${fault}.` : \"No answer came.\";\n\
return note(\"warn\", el(\"strong\", lead, why),\n\
el(\"p\", \"It may be done, or not. The page gives it again every few seconds under ticket \",\n\
el(\"code\", ticket), \", until the answer comes; it counts once.\"), more);\n\
}\n\
function waitingAct(act) {\n\
const aside = button(\"Set aside\", () => {\n\
if (aside.dataset.sure) return setAside(act);\n\
aside.dataset.sure = \"yes\";\n\
aside.textContent = \"It may have been done. Set aside?\";\n\
});\n\
return waitingNote(act, `${actWords(act)}: `,\n\
el(\"p.row\", button(\"Give it again now\", () => void giveAgain()), aside));\n\
}\n\
function answeredNote(act) {\n\
const seen = () => {\n\
act.isTold = true;\n\
keepAct(act);\n\
showWaiting();\n\
void showView();\n\
};\n\
const isDone = act.status === 200;\n\
return note(isDone ? \"good\" : \"bad\",\n\
el(\"strong\", `${actWords(act)}: the answer came.`),\n\
el(\"p\", `Ticket ${act.ticket}: ${outcomeWords(act)}. ${triesWords(act)}`),\n\
isDone ? documentShown(act.text) : refusalNote(act.status, act.text),\n\
el(\"p.row\", button(\"Seen\", seen)));\n\
}\n\
function setAside(act) {\n\
Object.assign(act, { state: \"aside\", isTold: true, answered: stampOf(new Date()) });\n\
keepAct(act);\n\
waiters.delete(act.ticket);\n\
showWaiting();\n\
}\n\
function startActs() {\n\
const field = byId(\"clerk\");\n\
field.value = kept(\"clerk\") ?? \"\";\n\
field.addEventListener(\"input\", () => {\n\
field.value = field.value.toUpperCase().replace(/[^A-Z0-9]/g, \"\").slice(0, 4);\n\
field.classList.remove(\"missing\");\n\
byId(\"clerk-hint\").classList.add(\"unseen\");\n\
keep(\"clerk\", field.value);\n\
});\n\
addEventListener(\"storage\", showWaiting);\n\
const again = async () => {\n\
await giveAgain().catch(() => {});\n\
setTimeout(again, AGAIN_AFTER);\n\
};\n\
showWaiting();\n\
void again();\n\
}\n\
";
