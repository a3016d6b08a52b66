//! The file page/style.css: the style of the page. Written by scripts/page.py.

/// The text of the file.
pub(crate) const TEXT: &str = ":root {
  color-scheme: dark;
  --back: #14171a; --panel: #1c2024; --raised: #2b3138; --edge: #4a525a; --soft: #2f363d; --text: #e6e9eb; --dim: #a4adb4; --mark: #5fb0ff;
  --good: #8fe09a; --error: #ff8a80; --warning: #ffc14d; --note: #9fc4e8; --lit: #24456a; --other: #d78bff;
  font: 15px/1.4 system-ui, sans-serif;
}
* { box-sizing: border-box; }
[hidden] { display: none !important; }
:focus-visible { outline: 2px solid #ff9d00; outline-offset: 1px; }
body {
  margin: 0; height: 100vh; min-height: 30rem; background: var(--back); color: var(--text); position: relative;
  display: grid; grid-template: auto minmax(0, 1fr) / minmax(0, 1fr);
}
button, input, select { font: inherit; color: inherit; }
button, select, input[type=search] { background: var(--raised); border: 1px solid var(--edge); border-radius: 5px; padding: .15rem .6rem; }
button { cursor: pointer; text-align: left; }
button:hover { border-color: var(--text); }
button[aria-pressed=true] { background: var(--mark); border-color: var(--mark); color: #000; }
#loading { position: absolute; inset: 0; margin: 0; padding: 4rem; background: var(--back); z-index: 3; font-size: 1.2rem; }

header { display: flex; gap: .4rem 1rem; align-items: center; flex-wrap: wrap; padding: .45rem .9rem; border-bottom: 1px solid var(--edge); background: var(--panel); }
header > div { flex: 1 1 12rem; min-width: 0; }
h1 { margin: 0; font-size: 1.25rem; line-height: 1.2; overflow: hidden; white-space: nowrap; text-overflow: ellipsis; }
#span { margin: 0; color: var(--dim); font-size: .92rem; }
#chips { display: flex; gap: .5rem; flex-wrap: wrap; }
.head-chip { border-radius: 1rem; font-weight: 600; }
.head-chip.good { color: var(--good); }
.head-chip.error { background: #5a1d1a; border-color: var(--error); color: #ffd9d5; }
.head-chip.warning { background: #4d3a10; border-color: var(--warning); color: #ffe7b8; }
.head-chip.note { background: #1d3346; border-color: var(--note); color: #d4e8fb; }
#help-button { font-weight: 700; width: 2rem; padding: .15rem 0; text-align: center; }
#note {
  position: fixed; top: 3.6rem; left: 50%; transform: translateX(-50%); margin: 0; padding: .4rem 1rem; z-index: 4;
  background: var(--text); color: #000; border-radius: 6px; font-weight: 600;
}
#note:empty { display: none; }
#tip {
  position: fixed; margin: 0; padding: .2rem .6rem; max-width: 30rem; z-index: 4; pointer-events: none;
  background: #000; border: 1px solid var(--edge); border-radius: 4px; font-size: .9rem; overflow-wrap: anywhere;
}

main { display: grid; grid-template: minmax(0, 1fr) / minmax(20rem, 27rem) minmax(0, 1fr) minmax(15rem, 20rem); min-height: 0; }
#side, #stage, #inspector { min-height: 0; min-width: 0; display: flex; flex-direction: column; }
#side { border-right: 1px solid var(--edge); }
#tabs { display: flex; gap: .2rem; padding: .5rem .5rem 0; scrollbar-width: none; border-bottom: 1px solid var(--edge); overflow-x: auto; overflow-y: hidden; flex: none; }
#tabs button { border-radius: 6px 6px 0 0; border-bottom: 0; background: none; padding: .2rem .55rem; color: var(--dim); white-space: nowrap; }
#tabs button[aria-selected=true] { background: var(--raised); color: var(--text); font-weight: 600; }
.panel { display: none; flex: 1; min-height: 0; overflow: auto; padding: .6rem; }
.panel.open { display: block; }
.sentence { margin: .1rem 0 .6rem; }
.good { color: var(--good); }
.bad { color: var(--error); }
.dim, .empty { color: var(--dim); }
h3 { margin: .9rem 0 .3rem; font-size: 1rem; }

.code { margin-bottom: .5rem; border: 1px solid var(--soft); border-left: 4px solid; border-radius: 4px; background: var(--panel); scroll-margin-top: .6rem; }
.code.error { border-left-color: var(--error); }
.code.warning { border-left-color: var(--warning); }
.code.note { border-left-color: var(--note); }
summary { cursor: pointer; }
.code summary { display: flex; gap: .6rem; align-items: center; padding: .35rem .6rem; }
.code summary::before { content: ''; border: 5px solid transparent; border-left-color: var(--dim); margin-right: -.3rem; }
.code[open] summary::before { transform: translateY(2px) rotate(90deg); }
.code .number { margin-left: auto; color: var(--dim); font-variant-numeric: tabular-nums; }
.severity, .badge { border-radius: 4px; padding: 0 .4rem; font-weight: 600; color: #000; font-size: .86rem; }
.severity.error, .badge.error { background: var(--error); }
.severity.warning, .badge.warning { background: var(--warning); }
.severity.note, .badge.note { background: var(--note); }
.rule { margin: 0; padding: 0 .7rem .45rem; color: var(--dim); font-size: .92rem; }
.rule::first-letter { text-transform: uppercase; }
.rule span { display: block; }
.code ul { list-style: none; margin: 0; padding: 0; }
.finding { display: flex; gap: .8rem; padding: .3rem .7rem; border-top: 1px solid var(--soft); cursor: pointer; overflow-wrap: anywhere; scroll-margin: 3rem; }
.finding span { flex: 1; min-width: 0; }
.finding code { flex: none; color: var(--dim); }
.finding:hover { background: #262c33; }
.finding.lit { background: #1f3247; }
.finding.lit.first { background: var(--lit); }
.finding:focus-visible { outline-offset: -2px; }
.more { margin: .3rem .7rem; }
code { font: 13px ui-monospace, DejaVu Sans Mono, monospace; }

#objects-panel.open { display: flex; flex-direction: column; gap: .5rem; padding-bottom: 0; }
#search-row { display: flex; gap: .4rem; align-items: center; }
#search { flex: 1; min-width: 6rem; }
#filter { max-width: 9rem; }
#count { color: var(--dim); font-size: .92rem; white-space: nowrap; }
#list {
  flex: 1; min-height: 0; overflow-y: scroll; overflow-x: hidden; position: relative; margin: 0 -.6rem;
  border-top: 1px solid var(--edge); font-size: .93rem; line-height: 26px;
}
#rows { position: relative; min-width: 0; }
.row { position: absolute; left: 0; right: 0; height: 26px; padding: 0 .6rem; display: grid; grid-template-columns: .9rem 5ch 9.2rem minmax(0, 1fr) 6ch; gap: .5rem; cursor: pointer; white-space: pre; }
.row > * { overflow: hidden; text-overflow: ellipsis; }
.row .id, .row .at { text-align: right; font-variant-numeric: tabular-nums; color: var(--dim); }
.row .name { color: #b9d8a8; }
.row:hover { background: #262c33; }
.row.lit { background: var(--lit); }
.row.lit .id, .row.lit .at { color: var(--text); }
.dot { align-self: center; width: .7rem; height: .7rem; border-radius: 50%; }
.dot.error { background: var(--error); border-radius: 2px; }
.dot.warning { background: var(--warning); }
.dot.note { background: var(--note); }
#list .empty { padding: 0 .8rem; margin: .4rem 0; }
#printed { display: none; }

.cost { display: grid; grid-template-columns: 5.5rem minmax(0, 1fr); gap: .1rem .7rem; width: 100%; background: none; border-color: transparent; padding: .25rem .4rem; }
.cost > span { overflow-wrap: anywhere; }
.cost:hover, .cost.lit { background: var(--raised); }
.steps { text-align: right; font-variant-numeric: tabular-nums; font-weight: 600; }
.bar { grid-column: 1 / -1; display: block; height: .5rem; background: var(--soft); border-radius: 3px; overflow: hidden; }
.bar i { display: block; height: 100%; background: var(--mark); border-radius: 3px; }
.bar i.good { background: #5fb56c; }
.bar i.error { background: var(--error); }
.need { display: grid; grid-template-columns: 8rem minmax(0, 1fr); gap: .15rem .8rem; padding: .35rem 0; border-bottom: 1px solid var(--soft); }
.need .chips { grid-column: 1 / -1; }
details summary { padding: .1rem 0; }

#toolbar { display: flex; gap: .4rem .8rem; align-items: center; padding: .5rem .8rem; flex-wrap: wrap; flex: none; }
#jump { flex: 0 1 18rem; min-width: 8rem; }
#zooms { display: flex; gap: .25rem; }
#zoom-one { min-width: 4.4rem; text-align: center; font-variant-numeric: tabular-nums; }
#pictures {
  --zoom: 1; flex: 1; min-height: 0; overflow: auto; padding: 0 .8rem 1rem; display: flex; flex-wrap: wrap; gap: .8rem 1.2rem; align-content: flex-start;
  background: #0e1012; border-top: 1px solid var(--edge);
}
figure { margin: .8rem 0 0; scroll-margin-top: .2rem; }
figcaption { display: flex; gap: .5rem; align-items: center; margin-bottom: .35rem; max-width: calc(var(--zoom) * 1px * 560); min-width: 16rem; }
.title { background: none; border-color: transparent; padding: 0 .2rem; font-weight: 600; margin-right: auto; overflow-wrap: anywhere; }
.picture { position: relative; width: calc(var(--w) * var(--zoom) * 1px); height: calc(var(--h) * var(--zoom) * 1px); background: #22272c; cursor: crosshair; }
.picture > svg { display: block; width: 100%; height: 100%; }
.frame {
  position: absolute; pointer-events: none; left: calc(var(--x) * var(--zoom) * 1px - 1px); top: calc(var(--y) * var(--zoom) * 1px - 1px);
  width: calc(var(--fw) * var(--zoom) * 1px + 2px); height: calc(var(--fh) * var(--zoom) * 1px + 2px); min-width: 5px; min-height: 5px;
}
.frame.mark { outline: 1.5px dashed var(--warning); box-shadow: 0 0 0 1.5px #0008; }
.frame.mark.error { outline-color: #ff4c3e; }
.frame.mark.note { outline-color: var(--note); }
.frame.hover { outline: 1px solid #fff; box-shadow: 0 0 0 2px #000a, inset 0 0 0 1px #0006; background: #5fb0ff22; }
.frame.chosen { outline: 3px solid #008cff; box-shadow: 0 0 0 5px #fff, 0 0 14px 6px #0009; }
.frame.user { outline: 3px dashed #008cff; box-shadow: 0 0 0 4px #fffb; }
.frame.other { outline: 2px solid var(--other); box-shadow: 0 0 0 3px #000b; }
#pictures h2 { flex-basis: 100%; margin: .8rem 0 -.3rem; font-size: 1.1rem; }
.keys { flex-basis: 100%; border-radius: 6px; }
.keys.lit { outline: 2px solid #008cff; outline-offset: 4px; }
.keys h3 { margin: .2rem 0 .5rem; }
.tiles { display: flex; flex-wrap: wrap; gap: .6rem; }
.tile { display: flex; flex-direction: column; gap: .3rem; align-items: center; padding: .5rem; background: var(--panel); max-width: calc(var(--zoom) * 64px + 7rem); }
.tile.lit { border-color: #008cff; box-shadow: 0 0 0 2px #008cff; }
.key svg { display: block; zoom: var(--zoom); }
.key { background: #22272c; min-width: 1rem; min-height: 1rem; }
.tile .words { text-align: center; font-size: .88rem; overflow-wrap: anywhere; }
.tile .name, h2 .name { display: block; color: #b9d8a8; font-weight: 400; }
.empty { flex-basis: 100%; }

#inspector { border-left: 1px solid var(--edge); overflow: auto; padding: .8rem; display: block; outline: none; }
#inspector h2 { margin: 0 0 .4rem; font-size: 1.15rem; overflow-wrap: anywhere; }
#inspector h3 { color: var(--dim); font-size: .9rem; }
#inspector p { margin: .2rem 0; overflow-wrap: anywhere; }
#inspector ul { margin: .2rem 0; padding-left: 1.2rem; }
.facts { display: grid; grid-template-columns: auto minmax(0, 1fr); gap: .15rem .8rem; margin: 0; }
.facts dt { color: var(--dim); }
.facts dd { margin: 0; overflow-wrap: anywhere; white-space: pre-wrap; }
.chips { display: flex; flex-wrap: wrap; gap: .35rem; }
.chip { font-size: .9rem; padding: .1rem .5rem; border-radius: 5px; border: 1px solid var(--edge); overflow-wrap: anywhere; }
.chip.error { border-color: var(--error); }
.chip.warning { border-color: var(--warning); }
.chip.missing { border: 1px dashed var(--error); color: var(--error); }
.told { display: block; width: 100%; margin-bottom: .35rem; border-left: 4px solid; font-size: .93rem; overflow-wrap: anywhere; }
.told.error { border-left-color: var(--error); }
.told.warning { border-left-color: var(--warning); }
.told.note { border-left-color: var(--note); }
.told.lit { background: var(--lit); }

dialog { background: var(--panel); color: inherit; border: 2px solid var(--mark); border-radius: 10px; padding: 1.2rem; max-width: min(44rem, 94vw); }
dialog::backdrop { background: #000b; }
dialog h2 { font-size: 1.1rem; margin: .4rem 0; }
dialog form { float: right; }
dialog dl { display: grid; grid-template-columns: auto 1fr; gap: .35rem 1.2rem; margin: 0; }
dialog dd { margin: 0; }
kbd { border: 1px solid var(--edge); border-radius: 4px; padding: 0 .4rem; background: var(--raised); }
#legend { list-style: none; margin: 0; padding: 0; display: grid; gap: .35rem; }
#legend i { display: inline-block; width: 1.6rem; height: .9rem; margin-right: .3rem; vertical-align: -1px; }
#legend .error { border: 2px dashed #ff4c3e; } #legend .warning { border: 2px dashed var(--warning); } #legend .chosen { border: 3px solid #008cff; }
#legend .user { border: 3px dashed #008cff; } #legend .other { border: 3px solid var(--other); }
#made-by { color: var(--dim); margin: .8rem 0 0; }

@media (max-width: 75rem) {
  main { grid-template: minmax(0, 1fr) minmax(9rem, 30%) / minmax(17rem, 24rem) minmax(0, 1fr); }
  #side { grid-row: 1 / 3; }
  #inspector { border-left: 0; border-top: 1px solid var(--edge); }
}
@media (max-width: 48rem) {
  body { height: auto; display: block; }
  main { display: block; }
  #side { height: 60vh; border: 0; }
  #stage { height: 80vh; border-top: 1px solid var(--edge); }
}
@media print {
  :root { color-scheme: light; --back: #fff; --panel: #fff; --raised: #fff; --soft: #ccc; --text: #000; --dim: #444; --good: #064; --error: #b00; --warning: #850; --edge: #888; --note: #046; font-size: 10pt; }
  body, main, #side, #stage { display: block; height: auto; min-height: 0; border: 0; background: none; }
  header { border-bottom: 2px solid #000; padding: 0 0 .3rem; background: none; }
  #note, #tip, #tabs, #toolbar, #inspector, #help-button, #search-row, #list, .more { display: none !important; }
  main { display: flex; flex-direction: column; }
  #stage { order: -1; }
  .panel, #objects-panel.open { display: block; overflow: visible; padding: 0; }
  .panel::before { content: attr(aria-label); display: block; font-size: 1.3rem; font-weight: 700; margin: 1rem 0 .4rem; }
  .head-chip { background: none !important; color: #000 !important; border: 1px solid #000; }
  .code { border-color: #888; break-inside: auto; }
  .code summary, .finding, tr, figure, .keys, .need, .cost { break-inside: avoid; }
  .finding.lit, .row.lit { background: none !important; }
  .severity, .badge { border: 1px solid; background: none !important; }
  .severity.error, .badge.error { color: #b00; } .severity.warning, .badge.warning { color: #850; } .severity.note, .badge.note { color: #046; }
  #pictures { --zoom: .6 !important; overflow: visible; background: none; border: 0; padding: 0; }
  .picture, .key { print-color-adjust: exact; -webkit-print-color-adjust: exact; }
  .bar, .bar i { print-color-adjust: exact; -webkit-print-color-adjust: exact; }
  .frame.hover, .frame.chosen, .frame.user, .frame.other { display: none; }
  .tile { border-color: #ccc; }
  .tile .name, h2 .name { color: #264; }
  #printed { display: table; border-collapse: collapse; width: 100%; }
  #printed th, #printed td { text-align: left; border-bottom: 1px solid #ccc; padding: .1rem .6rem .1rem 0; vertical-align: top; overflow-wrap: anywhere; }
}
";
