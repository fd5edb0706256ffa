//! The script, part 12. Made by bench/page_source.py from crates/page/page/script/12-receiving.js:
//! edit that.

/// The script, part 12.
pub const SCRIPT_12: &[u8] = b"async function receivingView(view, who, shipment) {\n\
if (!shipment) {\n\
return workList(view, \"count\", {\n\
title: \"Receiving\", field: \"Scan or type a shipment number\",\n\
none: \"No delivery is announced.\",\n\
});\n\
}\n\
const sheet = sheetLines(await read(\"advices\", who, shipment, \"csv\"));\n\
const fields = await datedFields(who, sheet);\n\
if (!view.isCurrent()) return;\n\
const plan = { kind: \"count\", who, subject: shipment };\n\
const lines = lineFields({\n\
plan, fields, have: \"announced\", digits: 6, told: filledOf(fields),\n\
add: (item, lot) => ({ item, lot, have: 0, isAdded: true }),\n\
look: (typed) => reviewCount(plan, typed),\n\
});\n\
show(view.main, workHead(\"receiving\", plan, fields, \"announced\"), lines.box, lines.bar);\n\
lines.show(() => true);\n\
lines.scan.focus();\n\
}\n\
function reviewCount(plan, typed) {\n\
const meant = typed.filter(({ field, isTyped }) => isTyped || !field.isAdded);\n\
const others = meant.filter(({ field }) => field.isAdded).length;\n\
const left = meant.filter(({ isTyped }) => !isTyped).length;\n\
review({\n\
...plan, lines: givenBy(meant), heads: [\"Announced\", \"Counted\"],\n\
differences: differencesOf(meant, ({ have, isAdded }, quantity) => (isAdded\n\
? \"not announced\" : quantity === 0 ? \"missing\" : quantity > have ? \"over\" : \"under\")),\n\
questions: [\n\
left && `${several(left, \"line\")} without a quantity: nothing was found, send 0.`,\n\
others && `${several(others, \"line\")} that nobody announced: I have compared item and lot ` +\n\
\"with the label.\",\n\
],\n\
same: \"All is there as it was announced.\",\n\
done: () => {\n\
location.hash = \"receiving\";\n\
},\n\
});\n\
}\n\
";
