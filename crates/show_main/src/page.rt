//! The page but for its data: the text before it, and the text behind it. `page/assemble.sh` makes this file of the three in `page/`.

/// The page up to its data: the style, and what stands on the page.
pub const HEAD: &str = r##"<!DOCTYPE html>
<html lang="en">
<head>
<meta charset="utf-8">
<meta name="viewport" content="width=device-width, initial-scale=1">
<title>A replay of blink, step by step</title>
<style>
:root {
  color-scheme: light dark;
  --back: #fbfbf9; --front: #1d1f21; --soft: #5c6266; --line: #b0b6ba; --box: #ffffff; --head: #eceeec;
  --link: #1a62b8; --pick: #fff0b8; --lightness: 42%;
}
@media (prefers-color-scheme: dark) {
  :root {
    --back: #17191b; --front: #e8e8e5; --soft: #a3a9ad; --line: #596066; --box: #212427; --head: #2d3236;
    --link: #74b4ff; --pick: #40391a; --lightness: 66%;
  }
}
* { box-sizing: border-box; }
body { margin: 0; height: 100vh; display: grid; grid-template: auto minmax(0, 1fr) / minmax(0, 1fr) 19rem;
  font: 14px/1.35 system-ui, sans-serif; background: var(--back); color: var(--front); }
header { grid-column: 1 / 3; display: flex; flex-wrap: wrap; gap: .6rem; align-items: center; padding: .4rem .8rem;
  border-bottom: 1px solid var(--line); }
h1 { font-size: 1rem; margin: 0 .5rem 0 0; }
button { font: inherit; padding: .15rem .6rem; border: 1px solid var(--line); border-radius: 4px; background: var(--box);
  color: inherit; cursor: pointer; }
:focus-visible { outline: 2px solid var(--link); outline-offset: 1px; }
#steps { flex: 1 1 12rem; display: flex; gap: .6rem; align-items: center; }
#slider { flex: 1 1 6rem; min-width: 4rem; }
#count { font-variant-numeric: tabular-nums; white-space: nowrap; min-width: 6rem; text-align: right; }
#tour { flex: 1 1 100%; margin: 0 -.8rem -.4rem; padding: .4rem .8rem; border-top: 1px solid var(--line); border-left: 5px solid var(--link);
  background: var(--pick); display: flex; gap: .4rem 1rem; align-items: flex-start; justify-content: space-between; }
#tour[hidden], #next-page[hidden] { display: none; }
#note { margin: 0; max-width: 56rem; font-size: 1.05rem; min-height: 4.1em; }
#note.soft { color: var(--soft); min-height: 0; }
#tour nav { flex: none; display: flex; flex-wrap: wrap; gap: .4rem; align-items: center; justify-content: flex-end; max-width: 19rem; }
#note-count { font-variant-numeric: tabular-nums; white-space: nowrap; }
button:disabled { opacity: .45; cursor: default; }
a { color: var(--link); }
#next-page { flex: 1 0 100%; text-align: right; }
main { display: flex; flex-direction: column; min-height: 0; }
#told { padding: .45rem .8rem .3rem; border-bottom: 1px solid var(--line); }
#sight { overflow: auto; flex: 1 1 0; min-height: 0; padding: .3rem .8rem; }
main p { margin: 0 0 .15rem; }
#now { font-size: 1.05rem; }
#now code, #turns { font-family: ui-monospace, "DejaVu Sans Mono", monospace; }
#now code { font-size: 1.1rem; font-weight: 700; }
#way, #part, #signs, #whole { color: var(--soft); }
#way, #part, #signs, #whole, #tally { font-size: .85rem; }
#way, #now { min-height: 1.3em; }
#tally span { margin-right: 1.2rem; padding: 0 .2rem; }
aside { border-left: 1px solid var(--line); display: flex; flex-direction: column; min-height: 0; }
h2 { font-size: .8rem; margin: .5rem .7rem .15rem; color: var(--soft); font-weight: 600; }
#workers, #decided { overflow: auto; flex: 0 1 auto; min-height: 4rem; border-bottom: 1px solid var(--line); padding: 0 .7rem .2rem; font-size: .85rem; }
aside p { margin: 0; overflow-wrap: anywhere; }
table { border-collapse: collapse; width: 100%; }
td, th { text-align: left; vertical-align: top; padding: .1rem .3rem .1rem 0; overflow-wrap: anywhere; }
th { font-weight: 600; white-space: nowrap; width: 1px; padding-right: .6rem; }
td span { display: block; }
td .soft { color: var(--soft); }
.acts { background: var(--pick); }
svg.sign { display: inline-block; width: .8rem; height: .8rem; margin: 0 .3rem 0 0; vertical-align: -1px; }
#turns { overflow: auto; flex: 1 1 0; min-height: 5rem; font-size: 13px; }
#lines { position: relative; }
details { flex: none; border-top: 1px solid var(--line); padding: .3rem .7rem; font-size: .85rem; }
details code { display: block; max-height: 5.2em; overflow: auto; word-break: break-all; user-select: all; }
summary { cursor: pointer; color: var(--soft); font-weight: 600; }
#turns div div { position: absolute; left: 0; right: 0; height: 18px; line-height: 18px; padding: 0 .7rem; cursor: pointer; white-space: pre; }
#turns div div[aria-current] { background: var(--pick); font-weight: 700; }
#whole, #signs { position: sticky; left: 0; overflow-wrap: anywhere; }
svg { display: block; margin: .3rem 0; }
svg text { fill: var(--front); font: 12px ui-monospace, "DejaVu Sans Mono", monospace; }
svg .soft { fill: var(--soft); }
svg .level { font: 600 12px system-ui, sans-serif; fill: var(--soft); }
.box { fill: var(--box); stroke: var(--line); }
.head { fill: var(--head); }
.full .box { stroke: var(--front); stroke-width: 3; }
.empty .box { stroke: var(--front); stroke-width: 1.5; stroke-dasharray: 1.5 3; }
.lost .box { stroke: var(--soft); stroke-width: 2; stroke-dasharray: 7 4; }
svg .name { font-weight: 700; }
.cut { stroke: var(--line); }
.ring { fill: none; stroke-width: 4; stroke: hsl(var(--hue) 75% var(--lightness)); }
.ring.read { stroke-dasharray: 2 4; }
.ring.latch { stroke-dasharray: 12 4; }
.ring.unlatch { stroke-dasharray: 2 9; }
.spot { fill: hsl(var(--hue) 75% var(--lightness)); stroke: var(--front); stroke-width: 1; print-color-adjust: exact; }
.owed { fill: var(--front); }
svg .debt { fill: var(--back); font-weight: 700; }
.way { fill: none; stroke: var(--soft); stroke-width: 1.2; }
.link { fill: none; stroke: var(--link); stroke-width: 1.8; }
#tip-way path { fill: var(--soft); }
#tip-link path { fill: var(--link); }
@media (max-width: 900px) {
  body { grid-template: auto auto auto / minmax(0, 1fr); height: auto; }
  header { grid-column: 1; position: sticky; top: 0; z-index: 1; background: var(--back); gap: .2rem .5rem; padding: .25rem .6rem; }
  h1 { flex: 1 1 10rem; margin: 0; font-size: .95rem; }
  #steps { order: 1; flex-basis: 100%; gap: .4rem; }
  /* the note and its buttons stand in the header's own rows, so that keys has room beside them */
  #tour { display: contents; }
  #note { order: 2; flex: 1 1 100%; max-width: none; margin: 0 -.6rem; padding: .25rem .6rem; font-size: .9rem; line-height: 1.3; min-height: 0;
    background: var(--pick); border-left: 5px solid var(--link); }
  #tour nav { order: 3; flex: 1 1 auto; max-width: none; justify-content: flex-start; font-size: .85rem; gap: .2rem .4rem; }
  #next-page { order: 5; }
  #keys { order: 4; font-size: .85rem; }
  #count { min-width: 0; }
  #told { padding: .25rem .6rem; }
  #now { font-size: 1rem; }
  #way:empty { display: none; }
  /* a shadow at the edge behind which the tree goes on */
  #sight { flex: none; max-height: 75vh; padding: .2rem .6rem; background:
    linear-gradient(to right, var(--back) 2rem, transparent) local, linear-gradient(to left, var(--back) 2rem, transparent) 100% 0 local,
    linear-gradient(to right, var(--line), transparent 1rem), linear-gradient(to left, var(--line), transparent 1rem); }
  aside { border-left: 0; border-top: 1px solid var(--line); height: 90vh; }
}
@media print {
  :root { color-scheme: light; --back: #fff; --front: #000; --soft: #444; --line: #888; --box: #fff; --head: #eee; --link: #1a62b8;
    --pick: #eee; --lightness: 42%; }
  body { display: block; height: auto; }
  header { position: static; }
  #steps, #keys, #tour nav, #turns, h2.turns, details { display: none; }
  #note { min-height: 0; }
  main, aside { display: block; border: 0; height: auto; }
  #sight, #workers, #decided { overflow: visible; height: auto !important; max-height: none; border: 0; }
  #tree svg { max-width: 100%; height: auto; }
}
</style>
</head>
<body>
<header>
  <h1 id="sizes">Replay</h1>
  <nav id="steps" aria-label="turns">
    <button id="home" title="Home">first</button>
    <button id="back" title="left arrow">back</button>
    <input id="slider" type="range" min="0" value="0" aria-label="turn">
    <button id="on" title="right arrow">on</button>
    <button id="end" title="End">last</button>
  </nav>
  <span id="count"></span>
  <label id="keys"><input id="short" type="checkbox" checked> keys shortened</label>
  <section id="tour" aria-label="guided tour">
    <p id="note" aria-live="polite"></p>
    <nav aria-label="notes">
      <button id="note-back" title="p">previous note</button>
      <span id="note-count"></span>
      <button id="note-on" title="n">next note</button>
      <a id="next-page" href="index.html"></a>
    </nav>
  </section>
</header>
<main>
  <div id="told">
    <p id="now" aria-live="polite"></p>
    <p id="way"></p>
    <p id="tally"></p>
    <p id="part"></p>
  </div>
  <div id="sight" role="region" aria-label="tree" tabindex="0">
    <div id="tree"></div>
    <p id="whole"></p>
    <p id="signs">Thick frame: full. Dotted: an empty leaf. Dashed: unlinked. High key in reverse: a debt. Each worker has a shape and a
      colour. The ring is the last step's, in its worker's colour: dots a read, dashes a latch, whole a write, far dots a latch let go. A
      short arrow leads to a page that isn't drawn.</p>
  </div>
</main>
<aside>
  <h2>Workers</h2>
  <div id="workers"></div>
  <h2 id="so-far">Decided</h2>
  <div id="decided"></div>
  <h2 class="turns">Turns</h2>
  <div id="turns" role="region" aria-label="turns" tabindex="0"><div id="lines"></div></div>
  <details id="again">
    <summary>The schedule, for blink replay</summary>
    <code id="asked"></code>
  </details>
</aside>
<script type="text/plain" id="notes"></script>
<script type="text/plain" id="replay">
"##;

/// The page behind its data: what reads the data, draws the tree, and steps.
pub const TAIL: &str = r##"</script>
<script>
"use strict";
// ---- the replay, read from the text above

const GREATEST = "18446744073709551615";

// What one thing has been: a line for each frame that changed it, read when it is first asked for.
class Versions {
  constructor(read) {
    this.read = read;
    this.since = [];
    this.kept = [];
  }
  add(frame, words) {
    this.since.push(frame);
    this.kept.push({ words, value: undefined });
  }
  // What it is in this frame, or undefined before its first.
  at(frame) {
    let low = 0;
    let high = this.since.length;
    while (low < high) {
      const middle = (low + high) >> 1;
      if (this.since[middle] <= frame) low = middle + 1;
      else high = middle;
    }
    if (low === 0) return undefined;
    const version = this.kept[low - 1];
    if (version.value === undefined) version.value = this.read(version.words);
    return version.value;
  }
}

function unlessDash(word) {
  return word === "-" ? null : word;
}

function pageOf(text) {
  const [number, holder, level, floor, high, link, ...entries] = text.split(" ");
  return {
    number,
    holder: holder === "-" ? null : Number(holder),
    level: Number(level),
    floor: unlessDash(floor),
    high,
    link: unlessDash(link),
    entries: entries.map((entry) => entry.split(":")),
  };
}

// What a worker has under way, or null.
function seatOf(text) {
  if (text === "-") return null;
  const [place, remembered, job, ...state] = text.split(" ");
  return {
    place: Number(place),
    remembered: remembered === "-" ? [] : remembered.split("."),
    debt: job === "-" ? null : job.split(":"),
    state: state.join(" "),
  };
}

const DEEDS = {
  R: { kind: "read", verb: "reads" },
  L: { kind: "latch", verb: "latches" },
  W: { kind: "write", verb: "writes" },
  U: { kind: "unlatch", verb: "lets go" },
};

// A turn's line: its worker, and the step with its page where it has one.
function frameOf(kind, line) {
  const [worker, step] = line.split(" ");
  const deed = step !== undefined && /^[RLWU][0-9]+$/.test(step) ? DEEDS[step[0]] : null;
  return { kind, line, worker: Number(worker), step, deed, page: deed === null ? null : step.slice(1), decided: 0 };
}

// What each line of the frames does to the replay, by the line's first word; it comes to the frame `at`.
const LINES = {
  workers(replay, rest) {
    replay.workers = Number(rest);
    for (let worker = 0; worker < replay.workers; worker += 1) replay.seats.push(new Versions(seatOf));
  },
  fan(replay, rest) {
    replay.fan = Number(rest);
  },
  op(replay, rest) {
    const [, worker, ...words] = rest.split(" ");
    replay.ops.push({ worker: Number(worker), words, key: words[1] });
  },
  prime(replay, rest, at) {
    replay.prime.add(at, rest);
  },
  worker(replay, rest, at) {
    const space = rest.indexOf(" ");
    replay.seats[Number(rest.slice(0, space))].add(at, rest.slice(space + 1));
  },
  page(replay, rest, at) {
    const number = rest.slice(0, rest.indexOf(" "));
    if (!replay.pages.has(number)) replay.pages.set(number, new Versions(pageOf));
    replay.pages.get(number).add(at, rest);
  },
  decided(replay, rest, at) {
    const [place, ...answer] = rest.split(" ");
    replay.decided.push({ place: Number(place), answer: answer.join(" ") });
    replay.frames[at].decided = replay.decided.length;
  },
};

function emptyReplay() {
  return {
    workers: 0, fan: 0, ops: [], frames: [], prime: new Versions((words) => words.split(" ")), seats: [], pages: new Map(), decided: [],
  };
}

// The first word of a line, and the rest.
function wordAndRest(line) {
  const space = (line + " ").indexOf(" ");
  return [line.slice(0, space), line.slice(space + 1)];
}

function readReplay(text) {
  const replay = emptyReplay();
  for (const line of text.split("\n")) {
    if (line === "") continue;
    const [word, rest] = wordAndRest(line);
    if (word === "first" || word === "turn" || word === "finish") {
      replay.frames.push({ ...frameOf(word, rest), decided: replay.decided.length });
    } else {
      LINES[word](replay, rest, replay.frames.length - 1);
    }
  }
  return replay;
}

// ---- the notes of a guided tour: a line is `TURN SENTENCE`, `title TEXT` or `next FILE TEXT`

function readNotes(text) {
  const notes = { title: "", next: null, byTurn: new Map() };
  for (const line of text.split("\n")) {
    if (line === "") continue;
    const [word, rest] = wordAndRest(line);
    if (word === "title") notes.title = rest;
    else if (word === "next") notes.next = wordAndRest(rest);
    else notes.byTurn.set(Number(word), rest);
  }
  notes.turns = [...notes.byTurn.keys()].sort((one, other) => one - other);
  return notes;
}

// ---- the one state: what is shown, and how

const view = {
  replay: readReplay(document.getElementById("replay").textContent),
  notes: readNotes(document.getElementById("notes").textContent),
  at: 0,
  short: true,
  scale: 1,
  timer: 0,
};

function byId(id) {
  return document.getElementById(id);
}

function lastFrame() {
  return view.replay.frames.length - 1;
}

// ---- what a tree state is drawn from

function treeStateAt(at) {
  const pages = new Map();
  for (const [number, versions] of view.replay.pages) {
    const page = versions.at(at);
    if (page !== undefined) pages.set(number, page);
  }
  return { prime: view.replay.prime.at(at), seats: view.replay.seats.map((versions) => versions.at(at)), pages };
}

// The pages of each level from the left.
function chainsOf(treeState) {
  const met = new Set();
  return treeState.prime.map((leftmost) => {
    const chain = [];
    for (let page = treeState.pages.get(leftmost); page !== undefined && !met.has(page.number); page = treeState.pages.get(page.link)) {
      met.add(page.number);
      chain.push(page);
    }
    return chain;
  });
}

// The high keys of a level that the level above has no separator for.
function debtsOf(chain, above) {
  const separators = new Set();
  for (const page of above) for (const [separator] of page.entries) separators.add(separator);
  return new Set(chain.map((page) => page.high).filter((high) => high !== GREATEST && !separators.has(high)));
}

function shapeOfTree(treeState) {
  const levels = chainsOf(treeState);
  const chained = new Set(levels.flat().map((page) => page.number));
  return {
    levels,
    debts: levels.map((chain, level) => debtsOf(chain, levels[level + 1] || [])),
    lost: [...treeState.pages.values()].filter((page) => !chained.has(page.number)),
  };
}

// The key that the last turn was about, and the page that it touched: what a part of the tree is drawn around.
function focusAt(at) {
  for (let back = at; back > 0 && at - back < 200; back -= 1) {
    const seats = view.replay.seats[view.replay.frames[back].worker];
    const seat = seats.at(back) || seats.at(back - 1);
    if (seat) return { key: BigInt(seat.debt === null ? view.replay.ops[seat.place].key : seat.debt[1]), page: view.replay.frames[back].page };
  }
  return { key: 0n, page: null };
}

// The place in a chain of the page that a key belongs to.
function placeIn(chain, key) {
  let low = 0;
  let high = chain.length - 1;
  while (low < high) {
    const middle = (low + high) >> 1;
    if (BigInt(chain[middle].high) < key) low = middle + 1;
    else high = middle;
  }
  return low;
}

// The page that the turn's worker is at or goes to, after a turn that touched none.
function pageStoodAt(treeState, frame) {
  const seat = frame.page === null ? treeState.seats[frame.worker] || null : null;
  const found = seat === null ? null : /[0-9]+/.exec(seat.state);
  return found === null ? null : found[0];
}

// The workers whose next step is on a page.
function comersTo(treeState) {
  const comers = new Map();
  treeState.seats.forEach((seat, worker) => {
    const found = seat === null ? null : /^(going down, page|wants) ([0-9]+)$/.exec(seat.state);
    if (found === null) return;
    if (!comers.has(found[2])) comers.set(found[2], []);
    comers.get(found[2]).push({ worker, text: "w" + worker + (found[1] === "wants" ? " to latch" : " to read") });
  });
  return comers;
}

// ---- words

function keyText(key) {
  if (!view.short) return key;
  if (key === GREATEST) return "max";
  return key.length > 9 ? key.slice(0, 4) + "\u2026" + key.slice(-3) : key;
}

// Joined so that no line breaks within a shortened key.
function opText(place) {
  return view.replay.ops[place].words.map((word, at) => (at === 0 ? word : keyText(word))).join(" ").replaceAll("\u2026", "\u2060\u2026\u2060");
}

function toldOf(frame) {
  if (frame.kind === "first") return "the first tree state of the last batch";
  const who = "worker " + frame.worker + " ";
  if (frame.deed !== null && frame.deed.kind === "unlatch") return who + "lets the latch of page " + frame.page + " go";
  if (frame.deed !== null) return who + frame.deed.verb + " page " + frame.page;
  return who + { P: "reads the prime block", Q: "writes the prime block", wait: "waits", idle: "has nothing to do" }[frame.step];
}

// How the turn's worker got on: its operation, and its state before and after.
function wayOf(at) {
  const frame = view.replay.frames[at];
  if (frame.kind === "first") return "";
  const before = view.replay.seats[frame.worker].at(at - 1);
  const after = view.replay.seats[frame.worker].at(at);
  const seat = after || before;
  if (seat === null) return "";
  const from = before === null ? "idle" : before.state;
  const to = after === null ? "ended" : after.state;
  return opText(seat.place) + ": " + (from === to ? "still " + to : from + " \u2192 " + to);
}

function element(name, attributes, ...children) {
  const made = document.createElement(name);
  for (const [key, value] of Object.entries(attributes)) made.setAttribute(key, value);
  made.append(...children);
  return made;
}

function hueOf(worker) {
  return "--hue:" + ((worker * 137.508 + 210) % 360).toFixed(1);
}

// A worker's sign: a shape and a colour, within a square of 10.
const SHAPES = [
  "M5 .6a4.4 4.4 0 1 1 0 8.8a4.4 4.4 0 1 1 0-8.8z", "M1 1H9V9H1z", "M5 .2L9.8 5L5 9.8L.2 5z", "M5 .8L9.6 9H.4z", "M.4 1H9.6L5 9.2z",
  "M3.2 .7H6.8V3.2H9.3V6.8H6.8V9.3H3.2V6.8H.7V3.2H3.2z",
];

function shapeOf(worker, attributes) {
  return drawn("path", { class: "spot", style: hueOf(worker), d: SHAPES[worker % SHAPES.length], ...attributes });
}

function sign(worker) {
  return drawn("svg", { class: "sign", viewBox: "-1 -1 12 12", "aria-hidden": "true" }, shapeOf(worker, {}));
}

// ---- a page's box

const LINE = 16;
const PAD = 6;
const GAP = 26;
const LEFT = 58;
const RING = 6;
const OVER = 13;
const ROWS_AT_MOST = 17;
const CELLS_AT_MOST = 420;

// How wide a character of the picture is.
const CHARACTER = (() => {
  const context = document.createElement("canvas").getContext("2d");
  context.font = '12px ui-monospace, "DejaVu Sans Mono", monospace';
  return context.measureText("0".repeat(50)).width / 50;
})();

function wide(text) {
  return text.length * CHARACTER;
}

function drawn(name, attributes, ...children) {
  const made = document.createElementNS("http://www.w3.org/2000/svg", name);
  for (const [key, value] of Object.entries(attributes)) made.setAttribute(key, value);
  made.append(...children);
  return made;
}

function textAt(x, y, text, kind, anchor) {
  return drawn("text", { x, y, class: kind || "plain", "text-anchor": anchor || "start" }, text);
}

// What is told of a page besides what it is: each a line, with a worker's spot where it is of a worker.
function tagsOf(page, scene) {
  const tags = [];
  const { worker, deed } = scene.frame;
  if (scene.frame.page === page.number) tags.push({ worker, text: "w" + worker + " " + deed.verb });
  if (page.holder !== null) tags.push({ worker: page.holder, text: "held by w" + page.holder });
  const comers = scene.comers.get(page.number) || [];
  tags.push(...comers.slice(0, 2));
  if (comers.length > 2) tags.push({ worker: null, text: "and " + (comers.length - 2) + " more" });
  const signs = [];
  if (page.entries.length >= view.replay.fan) signs.push("full");
  if (page.level === 0 && page.entries.length === 0) signs.push("empty");
  if (scene.isDebt(page)) signs.push("debt");
  if (scene.lost.has(page.number)) signs.push("unlinked");
  if (signs.length > 0) tags.push({ worker: null, text: signs.join(", ") });
  return tags;
}

// The entries of a leaf that are drawn: all, or those around the key of the last step.
function leafRows(page, key) {
  const texts = page.entries.map(([kept, pointer]) => keyText(kept) + ": " + keyText(pointer));
  if (texts.length <= ROWS_AT_MOST) return texts;
  const place = page.entries.findIndex(([kept]) => BigInt(kept) >= key);
  const room = ROWS_AT_MOST - 2;
  const from = Math.max(0, Math.min(texts.length - room, (place < 0 ? texts.length : place) - (room >> 1)));
  const more = (number) => (number === 0 ? [] : ["\u2026 " + number + " more"]);
  return [...more(from), ...texts.slice(from, from + room), ...more(texts.length - from - room)];
}

// The entries of an inner page; where they are many, runs of those whose children aren't drawn are put together.
function innerCells(page, children) {
  const cells = page.entries.map(([separator, child]) => ({ texts: [keyText(separator), "#" + child], child }));
  for (const cell of cells) cell.width = Math.max(...cell.texts.map(wide)) + 2 * PAD;
  const width = cells.reduce((sum, cell) => sum + cell.width, 0);
  if (children === null || width <= CELLS_AT_MOST) return cells;
  const kept = [];
  for (const cell of cells) {
    const before = kept[kept.length - 1];
    if (children.has(cell.child)) kept.push(cell);
    else if (before !== undefined && before.child === null) before.run += 1;
    else kept.push({ child: null, run: 1 });
  }
  for (const cell of kept) {
    if (cell.child !== null) continue;
    cell.texts = ["\u2026", cell.run + " more"];
    cell.width = wide(cell.texts[1]) + 2 * PAD;
  }
  return kept;
}

function widen(box, width) {
  const more = box.cells.length === 0 ? 0 : (width - box.width) / box.cells.length;
  for (const cell of box.cells) cell.width += more;
  box.width = width;
}

function boxOf(page, scene) {
  const inner = page.level > 0;
  const floor = "floor " + (page.floor === null ? "none" : keyText(page.floor));
  const high = "high " + keyText(page.high);
  const box = {
    page, inner, name: "#" + page.number, link: page.link === null ? "" : "\u2192 " + page.link,
    bounds: inner ? [floor + ", " + high] : [floor, high], high, tags: tagsOf(page, scene), isDebt: scene.isDebt(page),
    rows: inner ? [] : leafRows(page, scene.focus.key), cells: [], x: 0, y: 0, width: 0, height: 0, least: 0,
    ring: scene.frame.page === page.number, lost: scene.lost.has(page.number),
  };
  const texts = [box.name + "  " + box.link, ...box.bounds, ...box.rows, "held by w" + (view.replay.workers - 1) + "  "];
  for (const tag of box.tags) texts.push(tag.text + "  ");
  const least = Math.max(...texts.map(wide)) + 2 * PAD;
  if (inner) {
    box.cells = innerCells(page, scene.children);
    box.width = box.cells.reduce((sum, cell) => sum + cell.width, 0);
    widen(box, Math.max(box.width, least));
  } else {
    box.width = least;
  }
  // The least height has room for some tags, so that few of them move what is below.
  const body = LINE * (1 + box.bounds.length) + PAD + (inner ? 2 * LINE + PAD : Math.max(box.rows.length, 1) * LINE + PAD);
  box.height = body + box.tags.length * LINE;
  box.least = body + (inner ? 1 : 2) * LINE;
  return box;
}

// ---- which pages are drawn, and where

// The pages of level 0 that are drawn where not all are: as many as fit, around the last step.
function leafSpan(shape, scene, width) {
  const chain = shape.levels[0];
  const found = chain.findIndex((page) => page.number === scene.focus.page);
  const middle = found < 0 ? placeIn(chain, scene.focus.key) : found;
  const near = chain.slice(Math.max(0, middle - 4), middle + 5).map((page) => boxOf(page, scene).width);
  const room = Math.max(3, Math.min(chain.length, Math.floor((width - LEFT - GAP) / (Math.max(...near) + GAP))));
  const span = (number) => {
    const from = Math.max(0, Math.min(chain.length - number, middle - (number >> 1)));
    return { from, to: from + number };
  };
  const { from, to } = span(room);
  const highs = new Set(chain.slice(from, to).map((page) => page.high));
  const between = shape.lost.filter((page) => page.level === 0 && highs.has(page.high)).length;
  return span(Math.max(Math.min(3, room), room - between));
}

// Those of a level above: over the ones below, with the page of the last step.
function upperSpan(chain, below, scene) {
  let from = placeIn(chain, BigInt(below[0].high));
  let to = Math.min(placeIn(chain, BigInt(below[below.length - 1].high)) + 1, from + 6);
  const found = chain.findIndex((page) => page.number === scene.focus.page);
  if (found >= 0 && found < from && from - found <= 3) from = found;
  if (found >= to && found - to < 3) to = found + 1;
  return { from, to };
}

const ALL_AT_MOST = 30;

// The levels' rows, level 0 first: which pages of the chain each shows.
function spansOf(shape, scene, width) {
  const all = shape.levels.reduce((sum, chain) => sum + chain.length, 0) <= ALL_AT_MOST;
  const spans = [];
  shape.levels.forEach((chain, level) => {
    if (all) spans.push({ from: 0, to: chain.length });
    else if (level === 0) spans.push(leafSpan(shape, scene, width));
    else spans.push(upperSpan(chain, shape.levels[level - 1].slice(spans[level - 1].from, spans[level - 1].to), scene));
  });
  return spans;
}

function partsOf(shape, spans) {
  const parts = [];
  spans.forEach(({ from, to }, level) => {
    const number = shape.levels[level].length;
    if (to - from === number) return;
    parts.push("level " + level + " " + (to - from === 1 ? "page " + to : "pages " + (from + 1) + " to " + to) + " of " + number);
  });
  return parts.length === 0 ? "" : "A part of the tree, around the last step: " + parts.reverse().join(", ") + ".";
}

function rowOf(level, pages, scene, before) {
  const boxes = pages.map((page) => boxOf(page, scene));
  const leaves = boxes.filter((box) => !box.inner);
  for (const box of leaves) box.width = Math.max(...leaves.map((leaf) => leaf.width));
  return { level, boxes, before, y: 0, height: Math.max(0, ...boxes.map((box) => Math.max(box.height, box.least))) };
}

// The pages of a level that are drawn: a part of its chain, and each unlinked page behind the one that it is split from, which
// still ends where it does.
function pagesOf(shape, level, span) {
  const chain = shape.levels[level];
  const pages = [];
  for (let place = span.from; place < span.to; place += 1) {
    pages.push(chain[place]);
    pages.push(...shape.lost.filter((page) => page.level === level && page.high === chain[place].high));
  }
  return pages;
}

// All rows from the top: a root that the prime block doesn't name yet, and the levels.
function rowsOf(shape, spans, scene) {
  const rows = [];
  scene.children = null;
  spans.forEach((span, level) => {
    const pages = pagesOf(shape, level, span);
    rows.unshift(rowOf(level, pages, scene, span.from > 0));
    scene.children = new Set(pages.map((page) => page.number));
  });
  const roots = shape.lost.filter((page) => page.level === spans.length);
  if (roots.length > 0) rows.unshift(rowOf(spans.length, roots, scene, false));
  return rows;
}

// Each box over its children, and right of the box before it. The rows are placed from the lowest level up.
function placeAcross(rows) {
  const placed = new Map();
  const upwards = [...rows].reverse();
  for (const row of upwards) {
    let x = LEFT + (row.before ? GAP : 0);
    for (const box of row.boxes) {
      const below = box.cells.map((cell) => placed.get(cell.child)).filter((child) => child !== undefined);
      if (below.length > 0) {
        const last = below[below.length - 1];
        x = Math.max(x, (below[0].x + last.x + last.width - box.width) / 2);
      }
      box.x = x;
      x += box.width + GAP;
      placed.set(box.page.number, box);
    }
  }
  return placed;
}

// The space below a row is greater where its arrows go far.
function placeDown(rows, placed) {
  let y = OVER + 4;
  for (const row of rows) {
    row.y = y;
    let far = 0;
    for (const box of row.boxes) {
      box.y = y;
      for (const cell of box.cells) {
        const child = placed.get(cell.child);
        if (child !== undefined) far = Math.max(far, Math.abs(child.x + child.width / 2 - box.x - box.width / 2));
      }
    }
    y += row.height + 36 + Math.min(50, far * 0.06);
  }
  return y - 18;
}

// ---- the picture

function pathOf(kind, d, short) {
  return drawn("path", { class: kind + (short ? " short" : ""), d, "marker-end": "url(#tip-" + kind + ")" });
}

function tip(kind) {
  return drawn("marker", { id: "tip-" + kind, viewBox: "0 0 8 8", refX: 7, refY: 4, markerWidth: 7, markerHeight: 7, orient: "auto",
    markerUnits: "userSpaceOnUse" }, drawn("path", { d: "M0 0L8 4L0 8z" }));
}

function titleOf(page) {
  return "page " + page.number + ", level " + page.level + ", floor " + (page.floor || "none") + ", high key " + page.high + ", right link "
    + (page.link || "none") + ": " + page.entries.map((entry) => entry.join(":")).join(" ");
}

// What a box says of a page, in words.
function pageInWords(page, scene) {
  const keys = page.entries.length === 0 ? "empty" : "keys " + page.entries.map(([key]) => keyText(key)).join(" ");
  const link = page.link === null ? "no right link" : "links to page " + page.link;
  const signs = tagsOf(page, scene).map((tag) => tag.text);
  return "page " + page.number + ": " + [keys, "high key " + keyText(page.high), link, ...signs].join(", ");
}

// What the picture shows of a tree of few pages, for who doesn't see it.
function treeInWords(shape, scene) {
  const pages = [...shape.levels].reverse().flat();
  if (pages.length > ALL_AT_MOST) return "a part of the tree after this turn, which has " + pages.length + " pages";
  return "the tree after this turn: " + [...pages, ...shape.lost].map((page) => pageInWords(page, scene)).join("; ");
}

function drawRing(box, frame) {
  return drawn("rect", { class: "ring " + frame.deed.kind, style: hueOf(frame.worker), x: -RING, y: -RING, width: box.width + 2 * RING,
    height: box.height + 2 * RING, rx: RING });
}

function drawBounds(box) {
  const parts = [];
  box.bounds.forEach((text, at) => {
    const y = LINE * (2 + at) - 3;
    const start = box.isDebt ? text.indexOf(box.high) : -1;
    if (start < 0) {
      parts.push(textAt(PAD, y, text, "soft"));
      return;
    }
    const x = PAD + wide(text.slice(0, start));
    parts.push(drawn("rect", { class: "owed", x: x - 3, y: y - 12, width: wide(box.high) + 6, height: LINE - 1, rx: 2 }));
    if (start > 0) parts.push(textAt(PAD, y, text.slice(0, start), "soft"));
    parts.push(textAt(x, y, box.high, "debt"));
  });
  return parts;
}

function drawTags(box, top) {
  const parts = [];
  box.tags.forEach((tag, at) => {
    const y = top + LINE * (at + 1) - 4;
    if (tag.worker !== null) parts.push(shapeOf(tag.worker, { transform: "translate(" + PAD + " " + (y - 9) + ")" }));
    parts.push(textAt(PAD + (tag.worker === null ? 0 : 14), y, tag.text, tag.worker === null ? "name" : "plain"));
  });
  return parts;
}

// An inner page has its entries side by side at the bottom, a leaf below each other, and its tags at the bottom.
function drawEntries(box, top) {
  if (!box.inner) {
    return [...box.rows.map((text, at) => textAt(PAD, top + LINE * (at + 1) - 3, text)),
      ...drawTags(box, top + Math.max(box.rows.length, 1) * LINE + 2)];
  }
  const parts = drawTags(box, top);
  const line = box.height - 2 * LINE - PAD;
  let x = 0;
  box.cells.forEach((cell, at) => {
    if (at > 0) parts.push(drawn("path", { class: "cut", d: "M" + x + " " + line + "V" + box.height }));
    cell.middle = x + cell.width / 2;
    x += cell.width;
    parts.push(textAt(cell.middle, line + LINE - 2, cell.texts[0], "plain", "middle"));
    parts.push(textAt(cell.middle, line + 2 * LINE - 2, cell.texts[1], "soft", "middle"));
  });
  parts.push(drawn("path", { class: "cut", d: "M0 " + line + "H" + box.width }));
  return parts;
}

function drawBox(box, scene) {
  const kinds = ["page"];
  if (box.page.entries.length >= view.replay.fan) kinds.push("full");
  if (box.page.level === 0 && box.page.entries.length === 0) kinds.push("empty");
  if (box.lost) kinds.push("lost");
  if (scene.stood === box.page.number) kinds.push("stood");
  const group = drawn("g", { class: kinds.join(" "), transform: "translate(" + box.x + " " + box.y + ")" });
  group.append(drawn("title", {}, titleOf(box.page)));
  if (box.ring) group.append(drawRing(box, scene.frame));
  group.append(drawn("rect", { class: "box", width: box.width, height: box.height, rx: 3 }));
  group.append(drawn("rect", { class: "head", x: 2, y: 2, width: box.width - 4, height: LINE - 1 }));
  group.append(textAt(PAD, LINE - 3, box.name, "name"), textAt(box.width - PAD, LINE - 3, box.link, "soft", "end"));
  group.append(...drawBounds(box), ...drawEntries(box, LINE * (1 + box.bounds.length) + 2));
  return group;
}

function outer(box) {
  return box.ring ? RING + 2 : 1;
}

// A right link to the next page of the chain; it goes over an unlinked page that stands between.
function linkTo(box, next, isOver) {
  const y = box.y + LINE / 2 + 1;
  const start = "M" + (box.x + box.width + outer(box)) + " " + y;
  const end = "H" + (next.x - outer(next));
  if (!isOver) return pathOf("link", start + end);
  return pathOf("link", start + "H" + (box.x + box.width + 11) + "V" + (box.y - OVER) + "H" + (next.x - GAP / 2) + "V" + y + end);
}

// The right links of a row: a short one to a page that isn't drawn.
function drawLinks(row) {
  const parts = [];
  row.boxes.forEach((box, at) => {
    const y = box.y + LINE / 2 + 1;
    if (at === 0 && row.before) parts.push(pathOf("link", "M" + (box.x - GAP + 2) + " " + y + "H" + (box.x - outer(box))));
    if (box.page.link === null) return;
    const to = row.boxes.findIndex((other) => other.page.number === box.page.link);
    if (to >= 0) parts.push(linkTo(box, row.boxes[to], to > at + 1));
    else parts.push(pathOf("link", "M" + (box.x + box.width + outer(box)) + " " + y + "H" + (box.x + box.width + GAP - 4), true));
  });
  return parts;
}

// The arrows from a row to children: a short one to a child that isn't drawn.
function drawWays(row, placed) {
  const parts = [];
  for (const box of row.boxes) {
    for (const cell of box.cells) {
      const x = box.x + cell.middle;
      const start = box.y + box.height + (box.ring ? RING + 1 : 0);
      const child = placed.get(cell.child);
      if (child === undefined) {
        parts.push(pathOf("way", "M" + x + " " + start + "v12", true));
        continue;
      }
      const floor = Math.max(start, row.y + row.height);
      const to = child.x + child.width / 2;
      const end = child.y - (child.ring ? RING + 2 : 1);
      const half = (floor + end) / 2;
      parts.push(pathOf("way", "M" + x + " " + start + "V" + floor + "C" + x + " " + half + " " + to + " " + half + " " + to + " " + end));
    }
  }
  return parts;
}

function drawTree(shape, scene) {
  const spans = spansOf(shape, scene, roomAcross());
  const rows = rowsOf(shape, spans, scene);
  const placed = placeAcross(rows);
  const height = placeDown(rows, placed);
  const ways = drawn("g", {});
  const boxes = drawn("g", {});
  for (const row of rows) {
    boxes.append(textAt(0, row.y + LINE - 3, "level " + row.level, "level"));
    boxes.append(...row.boxes.map((box) => drawBox(box, scene)));
    ways.append(...drawLinks(row), ...drawWays(row, placed));
  }
  const width = Math.max(...rows.flatMap((row) => row.boxes.map((box) => box.x + box.width + GAP)));
  const size = { width: width * view.scale, height: height * view.scale, viewBox: "0 0 " + width + " " + height };
  const picture = drawn("svg", { ...size, role: "img", "aria-label": treeInWords(shape, scene) },
    drawn("defs", {}, tip("way"), tip("link")), ways, boxes);
  byId("tree").replaceChildren(picture);
  byId("part").textContent = partsOf(shape, spans);
  return { width, height };
}

function roomAcross() {
  return byId("sight").clientWidth - 26;
}

// ---- the facts beside it

function fact(text) {
  return element("p", {}, text);
}

function someOf(texts, none) {
  if (texts.length === 0) return none;
  return texts.slice(0, 8).join(", ") + (texts.length > 8 ? ", and " + (texts.length - 8) + " more" : "");
}

// The prime block, the debts, and the unlinked pages.
function drawTally(treeState, shape, frame) {
  const debts = shape.debts.flatMap((owed, level) => [...owed].map((high) => keyText(high) + " of level " + level));
  const prime = treeState.prime.map((page, level) => "#" + page + " of level " + level);
  const lost = shape.lost.map((page) => "#" + page.number);
  byId("tally").replaceChildren(
    element("span", /^[PQ]$/.test(frame.step) ? { class: "acts" } : {}, "prime block: ", element("b", {}, prime.join(", "))),
    element("span", {}, "debts: ", element("b", {}, someOf(debts, "none"))),
    element("span", {}, "unlinked: ", element("b", {}, someOf(lost, "no page"))));
}

function workerCell(seat, latched) {
  const cell = element("td", {}, element("span", {}, "op " + seat.place + ": " + opText(seat.place)),
    element("span", {}, element("b", {}, seat.state)));
  if (seat.debt !== null) {
    const [level, separator, page] = seat.debt;
    cell.append(element("span", {}, "posts " + keyText(separator) + " with #" + page + " to level " + (Number(level) + 1)));
  }
  const pages = seat.remembered.map((page) => "#" + page);
  const remembers = pages.length === 0 ? "no page" : pages.join(", ") + (pages.length > 1 ? ", top level first" : "");
  cell.append(element("span", { class: "soft" }, "remembers " + remembers));
  if (latched !== undefined) cell.append(element("span", { class: "soft" }, "has latched #" + latched));
  return cell;
}

function drawWorkers(treeState, frame) {
  const latched = new Map();
  for (const page of treeState.pages.values()) if (page.holder !== null) latched.set(page.holder, page.number);
  const rows = treeState.seats.map((seat, worker) => element("tr", frame.kind !== "first" && worker === frame.worker ? { class: "acts" } : {},
    element("th", { scope: "row" }, sign(worker), "w" + worker),
    seat === null ? element("td", {}, "idle") : workerCell(seat, latched.get(worker))));
  byId("workers").replaceChildren(element("table", {}, ...rows));
}

const DECIDED_AT_MOST = 60;

// The operations in the order in which they decided, with their answers; those of the last turn stand out.
function drawDecided(at) {
  const frame = view.replay.frames[at];
  const before = at === 0 ? 0 : view.replay.frames[at - 1].decided;
  const from = Math.max(0, frame.decided - DECIDED_AT_MOST);
  const rows = view.replay.decided.slice(from, frame.decided).map(({ place, answer }, next) => element("tr",
    from + next >= before ? { class: "acts" } : {},
    element("th", { scope: "row" }, sign(view.replay.ops[place].worker), from + next + 1 + ". op " + place),
    element("td", {}, opText(place) + ": ", element("b", {}, answer.split(" ").map(keyText).join(" ")))));
  const list = byId("decided");
  byId("so-far").textContent = "Decided, in this order: " + frame.decided + " of " + view.replay.ops.length;
  list.replaceChildren(fact(frame.decided === 0 ? "nothing yet" : from > 0 ? from + " before these" : ""), element("table", {}, ...rows));
  list.scrollTop = list.scrollHeight;
}

// The page of the last step, whole, where the picture shows a part of its entries.
function drawWhole(treeState, frame) {
  const page = frame.page === null ? undefined : treeState.pages.get(frame.page);
  const whole = byId("whole");
  whole.textContent = page === undefined || page.entries.length <= (page.level > 0 ? 5 : ROWS_AT_MOST) ? ""
    : "All entries of #" + page.number + ": " + page.entries.map(([key, value]) => keyText(key) + ": "
      + (page.level > 0 ? "#" + value : keyText(value))).join(", ");
}

// ---- the list of turns, of which only the lines in sight are there

const TURN_HEIGHT = 18;

function turnLine(at) {
  const frame = view.replay.frames[at];
  const words = frame.kind === "first" ? "first tree state" : frame.line.padEnd(10) + (frame.kind === "finish" ? "finish" : "");
  const attributes = { "data-at": at, style: "top:" + at * TURN_HEIGHT + "px" };
  if (at === view.at) attributes["aria-current"] = "step";
  const line = element("div", attributes, String(at).padStart(String(lastFrame()).length) + "  ");
  if (frame.kind !== "first") line.append(sign(frame.worker));
  line.append(words);
  return line;
}

function drawTurns() {
  const list = byId("turns");
  const from = Math.max(0, Math.floor(list.scrollTop / TURN_HEIGHT) - 5);
  const to = Math.min(view.replay.frames.length, from + Math.ceil(list.clientHeight / TURN_HEIGHT) + 10);
  const shown = [];
  for (let at = from; at < to; at += 1) shown.push(turnLine(at));
  byId("lines").replaceChildren(...shown);
}

function reachTurn() {
  const list = byId("turns");
  const top = view.at * TURN_HEIGHT;
  if (top < list.scrollTop) list.scrollTop = top;
  if (top + TURN_HEIGHT > list.scrollTop + list.clientHeight) list.scrollTop = top + TURN_HEIGHT - list.clientHeight;
  drawTurns();
}

// ---- going from turn to turn

function drawHeading(frame) {
  const told = toldOf(frame) + (frame.kind === "finish" ? ", in the finish" : "");
  const now = byId("now");
  now.replaceChildren();
  if (frame.kind !== "first") now.append(sign(frame.worker), element("code", {}, frame.line), " \u2003");
  now.append(told);
  byId("way").textContent = wayOf(view.at);
  byId("slider").value = view.at;
  byId("slider").setAttribute("aria-valuetext", "turn " + view.at + " of " + lastFrame() + ": " + told);
  byId("count").textContent = view.at + " of " + lastFrame();
}

// ---- the tour

// The turn of the next note in a direction, or null.
function noteFrom(at, direction) {
  const { turns } = view.notes;
  const found = direction > 0 ? turns.find((turn) => turn > at) : turns.findLast((turn) => turn < at);
  return found === undefined ? null : found;
}

// The note of this turn; between two notes, where the next one is.
function drawNote() {
  if (view.notes.turns.length === 0) return;
  const note = view.notes.byTurn.get(view.at);
  const on = noteFrom(view.at, 1);
  const box = byId("note");
  box.classList.toggle("soft", note === undefined);
  box.textContent = note !== undefined ? note : on !== null ? "The next note is at turn " + on + "." : "There is no further note.";
  byId("note-count").textContent = view.notes.turns.filter((turn) => turn <= view.at).length + " of " + view.notes.turns.length;
  byId("note-back").disabled = noteFrom(view.at, -1) === null;
  byId("note-on").disabled = on === null;
}

function goToNote(direction) {
  const turn = noteFrom(view.at, direction);
  if (turn !== null) show(turn);
}

// ---- the picture in sight

// Moves what a list or the tree's frame shows, and not the page, until the found is in it.
function bringIntoSight(sight, found, margin) {
  if (found === null) return;
  const frame = sight.getBoundingClientRect();
  const box = found.getBoundingClientRect();
  const reach = (from, to, low, high) => (from < low ? from - low : to > high ? Math.min(to - high, from - low) : 0);
  sight.scrollLeft += reach(box.left - margin, box.right + margin, frame.left, frame.right);
  sight.scrollTop += reach(box.top - margin, box.bottom + margin, frame.top, frame.bottom);
}

// The address follows a little later: browsers bear only so many changes of it.
function keepAddress() {
  clearTimeout(view.timer);
  view.timer = setTimeout(() => history.replaceState(null, "", "#frame=" + view.at + (view.short ? "" : "&keys=numbers")), 300);
}

function sceneOf(treeState, shape, frame) {
  const lost = new Set(shape.lost.map((page) => page.number));
  return {
    frame, lost, stood: pageStoodAt(treeState, frame), focus: focusAt(view.at), comers: comersTo(treeState), children: null,
    isDebt: (page) => shape.debts[page.level] !== undefined && shape.debts[page.level].has(page.high) && !lost.has(page.number),
  };
}

function show(at) {
  view.at = Math.max(0, Math.min(lastFrame(), at));
  const frame = view.replay.frames[view.at];
  const treeState = treeStateAt(view.at);
  const shape = shapeOfTree(treeState);
  drawHeading(frame);
  drawNote();
  drawTally(treeState, shape, frame);
  const size = drawTree(shape, sceneOf(treeState, shape, frame));
  drawWhole(treeState, frame);
  drawWorkers(treeState, frame);
  drawDecided(view.at);
  reachTurn();
  keepAddress();
  if (frame.kind === "first") byId("sight").scrollTo(0, 0);
  bringIntoSight(byId("sight"), document.querySelector("#tree .ring") || document.querySelector("#tree .stood"), 24);
  bringIntoSight(byId("workers"), document.querySelector("#workers .acts"), 0);
  return size;
}

const NARROW = 600;

// A small tree is drawn larger, and on a narrow screen any tree smaller. That of the last tree state is the widest, as no page ever goes away.
function fit() {
  const at = view.at;
  view.scale = 1;
  const { width, height } = show(lastFrame());
  byId("sight").scrollTo(0, 0);
  const least = roomAcross() < NARROW ? 0.8 : 1;
  view.scale = Math.max(least, Math.min(1.5, roomAcross() / width, byId("sight").clientHeight / (height + 80)));
  show(at);
}

// The turn and the form of the keys that the address tells.
function showAddress() {
  const found = /frame=([0-9]+)/.exec(location.hash);
  view.short = !location.hash.includes("keys=numbers");
  byId("short").checked = view.short;
  view.at = found === null ? 0 : Number(found[1]);
  fit();
}

const KEYS = {
  ArrowLeft: () => show(view.at - 1),
  ArrowRight: () => show(view.at + 1),
  Home: () => show(0),
  End: () => show(lastFrame()),
  n: () => goToNote(1),
  p: () => goToNote(-1),
};

function onKey(event) {
  if (event.altKey || event.ctrlKey || event.metaKey || !Object.hasOwn(KEYS, event.key)) return;
  event.preventDefault();
  KEYS[event.key]();
}

function onLine(event) {
  const line = event.target.closest("[data-at]");
  if (line !== null) show(Number(line.dataset.at));
}

// What was asked for to see this again, the schedule of all turns but the finish with it.
function asked() {
  const turns = view.replay.frames.filter((frame) => frame.kind === "turn").map((frame) => frame.worker);
  return "--workers " + view.replay.workers + " --fan " + view.replay.fan + (turns.length === 0 ? "" : " --schedule " + turns.join(","));
}

// What stays the same from turn to turn.
function drawRest() {
  const { workers, fan, ops, frames } = view.replay;
  const sizes = "Replay, " + workers + (workers === 1 ? " worker" : " workers") + ", fan " + fan;
  byId("sizes").textContent = view.notes.title === "" ? sizes : view.notes.title;
  if (view.notes.title !== "") document.title = view.notes.title;
  byId("tour").hidden = view.notes.turns.length === 0;
  byId("next-page").hidden = view.notes.next === null;
  if (view.notes.next !== null) {
    byId("next-page").href = view.notes.next[0];
    byId("next-page").textContent = view.notes.next[1];
  }
  byId("again").open = view.notes.turns.length === 0;
  byId("asked").textContent = "blink replay " + asked();
  byId("workers").style.height = "min(45vh, " + (workers * 5.6 + 0.4) + "rem)";
  byId("decided").style.height = "min(22vh, " + (ops.length * 1.4 + 0.6) + "rem)";
  byId("slider").max = lastFrame();
  byId("lines").style.height = frames.length * TURN_HEIGHT + "px";
}

function listen() {
  byId("home").onclick = KEYS.Home;
  byId("back").onclick = KEYS.ArrowLeft;
  byId("on").onclick = KEYS.ArrowRight;
  byId("end").onclick = KEYS.End;
  byId("note-back").onclick = KEYS.p;
  byId("note-on").onclick = KEYS.n;
  byId("slider").oninput = (event) => show(Number(event.target.value));
  byId("short").onchange = (event) => {
    view.short = event.target.checked;
    fit();
  };
  byId("turns").onclick = onLine;
  byId("turns").onscroll = drawTurns;
  document.addEventListener("keydown", onKey);
  window.addEventListener("hashchange", showAddress);
  window.addEventListener("resize", fit);
}

function start() {
  if (view.replay.frames.length === 0) {
    byId("now").textContent = "The script has no operation, so there is nothing to see.";
    byId("tour").hidden = true;
    return;
  }
  drawRest();
  listen();
  showAddress();
}
start();
</script>
</body>
</html>
"##;
