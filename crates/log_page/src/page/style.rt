//! The file page/style.css: the style of the page. Written by scripts/page.py.

/// The text of the file.
pub(crate) const TEXT: &str = ":root {
  color-scheme: dark;
  --back: #14171a; --panel: #1c2024; --raised: #2b3138; --edge: #4a525a; --text: #e6e9eb; --dim: #a4adb4; --mark: #5fb0ff;
  --good: #8fe09a; --bad: #ff8a80; --warn: #ffc14d; --act: #ffe08a; --lit: #24456a;
  font: 16px/1.4 system-ui, sans-serif;
}
* { box-sizing: border-box; }
[hidden] { display: none !important; }
:focus-visible { outline: 2px solid #ff9d00; outline-offset: 1px; }
body {
  --tables: clamp(9rem, 26vh, 18rem); margin: 0; height: max(100vh, 42rem); background: var(--back); color: var(--text); position: relative;
  display: grid; grid-template: auto auto minmax(0, 1fr) 8px var(--tables) / minmax(0, 1fr);
}
button, input, select { font: inherit; color: inherit; }
button, select, input[type=search] { background: var(--raised); border: 1px solid var(--edge); border-radius: 5px; padding: .15rem .6rem; }
button { cursor: pointer; }
button:hover { border-color: var(--text); }
button[aria-pressed=true] { background: var(--mark); border-color: var(--mark); color: #000; }
#loading { position: absolute; inset: 0; margin: 0; padding: 4rem; background: var(--back); z-index: 3; font-size: 1.2rem; }

header { display: flex; gap: .4rem 1rem; align-items: center; flex-wrap: wrap; padding: .35rem .9rem; }
header > div { flex: 1 1 12rem; min-width: 0; }
h1 { margin: 0; font-size: 1.25rem; line-height: 1.2; overflow: hidden; white-space: nowrap; text-overflow: ellipsis; }
#span { margin: 0; color: var(--dim); font-size: .92rem; }
#chips { display: flex; gap: .5rem; flex-wrap: wrap; }
.chip { border-radius: 1rem; font-weight: 600; }
.chip.good { color: var(--good); }
.chip.bad { background: #5a1d1a; border-color: var(--bad); color: #ffd9d5; }
.chip.warn { background: #4d3a10; border-color: var(--warn); color: #ffe7b8; }
#help-button { font-weight: 700; width: 2rem; padding: .15rem 0; }
#note {
  position: absolute; top: 3.6rem; left: 50%; transform: translateX(-50%); margin: 0; padding: .4rem 1rem; z-index: 2;
  background: var(--text); color: #000; border-radius: 6px; font-weight: 600;
}
#note:empty { display: none; }

#time { position: relative; background: var(--panel); border-block: 1px solid var(--edge); user-select: none; }
#timeline { display: block; width: 100%; touch-action: none; cursor: crosshair; }
#tip {
  position: absolute; margin: 0; padding: .2rem .6rem; max-width: 32rem; z-index: 2; pointer-events: none;
  background: #000; border: 1px solid var(--edge); border-radius: 4px; font-size: .9rem; overflow-wrap: anywhere;
}

main { display: grid; grid-template: minmax(0, 1fr) / minmax(18rem, 2fr) minmax(0, 3fr); gap: .9rem; padding: .5rem .9rem; min-height: 0; }
#stage, #trace-pane { display: flex; flex-direction: column; min-height: 0; min-width: 0; gap: .4rem; }
#caption { margin: 0; display: grid; gap: .1rem; }
#shown { border-left: 10px solid; padding-left: .5rem; }
#since { color: var(--dim); }
#frame { flex: 1; min-height: 0; display: grid; place-items: center; background: #0b0d0f; border: 1px solid var(--edge); }
#picture { display: block; width: 100%; height: 100%; min-height: 0; object-fit: contain; }
#nothing { margin: 0; padding: 1.5rem; color: var(--dim); text-align: center; font-size: 1.1rem; }
#player { display: flex; gap: .4rem; align-items: center; flex-wrap: wrap; }
#play { min-width: 4.6rem; }
#speeds { display: flex; gap: .25rem; margin-left: .5rem; }
#clock { margin-left: auto; font-variant-numeric: tabular-nums; font-size: 1.1rem; }

#search-row, #filters { display: flex; gap: .3rem .4rem; align-items: center; flex-wrap: wrap; font-size: .92rem; }
#filters label { margin-left: auto; }
#search { flex: 1; min-width: 8rem; }
#count { color: var(--dim); }
#list {
  flex: 1; min-height: 0; overflow-y: scroll; overflow-x: hidden; position: relative;
  background: var(--panel); border: 1px solid var(--edge); font: 14px/24px ui-monospace, DejaVu Sans Mono, monospace;
}
#rows { position: relative; }
.row { position: absolute; left: 0; right: 0; height: 24px; padding-right: .5rem; white-space: pre; overflow: hidden; text-overflow: ellipsis; }
.row.line { display: grid; grid-template-columns: 1.3rem 6ch 12.5ch minmax(0, 1fr); cursor: pointer; }
.row:not(.line) { padding-left: 7ch; color: var(--dim); background: #181b1f; }
.toggle { text-align: center; color: var(--dim); }
.number, .at { color: var(--dim); text-align: right; padding-right: 1.5ch; }
.words { overflow: hidden; text-overflow: ellipsis; }
.row.own .words { color: #9fd0ff; }
.row.refused .words, .row.output.refused { color: #ff9d94; }
.row.operator .words { color: var(--act); }
.row.other .words { color: var(--dim); }
.row.line:hover { background: #262c33; }
.row.line.differs { box-shadow: inset 4px 0 var(--bad); }
.row.line.lit { background: var(--lit); }
.row.lit .number, .row.lit .at { color: var(--text); }
.row.output { color: #b9d8a8; }
.row.removed { color: #f0a59e; }
.row.added { color: var(--good); }
.row.ours, .row.recorded, .row.why { background: #2c1a1a; color: #ffc9c3; box-shadow: inset 4px 0 var(--bad); }
.row.why { font-style: italic; }
.empty { margin: 0; padding: 1rem; font: 1rem system-ui, sans-serif; color: var(--dim); }
mark { background: var(--warn); color: #000; }

#splitter { cursor: row-resize; background: var(--raised); touch-action: none; }
#splitter:hover { background: var(--mark); }
#tables { display: flex; flex-direction: column; min-height: 0; }
#tabs { display: flex; gap: .25rem; padding: .3rem .9rem 0; border-bottom: 1px solid var(--edge); }
#tabs button { border-radius: 6px 6px 0 0; border-bottom: 0; background: none; padding: .2rem 1rem; color: var(--dim); }
#tabs button[aria-selected=true] { background: var(--raised); color: var(--text); font-weight: 600; }
.panel { display: none; flex: 1; min-height: 0; overflow: auto; padding: .6rem .9rem; }
.panel.open { display: block; }
.sentence { margin: .1rem 0 .4rem; }
.sentence.good { color: var(--good); }
table { border-collapse: collapse; }
table.wide { width: 100%; }
caption { text-align: left; color: var(--dim); }
th { white-space: nowrap; text-align: left; color: var(--dim); font-weight: 600; position: sticky; top: -.6rem; background: var(--back); }
th, td { padding: .2rem .9rem .2rem .3rem; vertical-align: top; border-bottom: 1px solid #2c3238; }
table.wide td:nth-child(-n+3) { white-space: nowrap; }
table.wide td { overflow-wrap: anywhere; min-width: 4rem; }
code { font: 13px ui-monospace, DejaVu Sans Mono, monospace; color: var(--dim); }
td code { display: block; }
.leads { cursor: pointer; scroll-margin-top: 2.4rem; }
.leads:hover { background: #262c33; }
.leads.lit { background: var(--lit); }
article { margin-bottom: .6rem; }
h3 { margin: 0 0 .3rem; font-size: 1rem; }
article h3 { border-left: 8px solid; padding: .15rem .6rem; font-weight: 600; }
h3.good { border-color: #7fd48a; }
h3.bad { border-color: #ff6b61; }
h3.warn { border-color: var(--warn); }
h3.ask { border-color: #7fb8ff; }
article details { margin-left: 1.2rem; }
summary { cursor: pointer; }
.severity { border-radius: 4px; padding: 0 .4rem; font-weight: 600; color: #000; background: var(--dim); }
.severity.error { background: #ff8a80; }
.severity.warning { background: var(--warn); }
.panel ul { margin: .2rem 0 .4rem; padding-left: 1.3rem; overflow-wrap: anywhere; }
#numbers > div { columns: 27rem; column-gap: 2.5rem; }
#numbers th { position: static; }
#numbers th, #numbers td { padding: .12rem .8rem .12rem .2rem; }
#numbers section { margin-bottom: 1rem; break-inside: avoid; }
.bars { display: flex; align-items: flex-end; height: 6rem; gap: 1px; border-bottom: 1px solid var(--edge); margin-bottom: .4rem; }
.bars i { flex: 1; min-width: 0; max-width: 3rem; background: #5f7385; cursor: pointer; }
.bars i.busiest { background: var(--warn); }

dialog { background: var(--panel); color: inherit; border: 2px solid var(--mark); border-radius: 10px; padding: 1.2rem; max-width: min(44rem, 94vw); }
dialog::backdrop { background: #000b; }
dialog h2 { font-size: 1.1rem; margin: .4rem 0; }
dialog form { float: right; }
dl { display: grid; grid-template-columns: auto 1fr; gap: .35rem 1.2rem; margin: 0; }
dd { margin: 0; }
kbd { border: 1px solid var(--edge); border-radius: 4px; padding: 0 .4rem; background: var(--raised); }
#legend { list-style: none; margin: 0; padding: 0; display: grid; gap: .2rem; }
#made-by { color: var(--dim); margin: .8rem 0 0; }
#legend i { display: inline-block; width: 1.4rem; height: .8rem; }
i.good { background: #7fd48a; } i.bad { background: #ff6b61; } i.warn { background: #ffc14d; } i.act { background: #ffe08a; }
i.gap { background: repeating-linear-gradient(135deg, #ffc14d 0 2px, transparent 2px 6px); border: 1px solid #ffc14d; }

@media (max-width: 70rem) { :root { font-size: 15px; } #list { font-size: 13px; } }
@media print {
  :root { color-scheme: light; --back: #fff; --text: #000; --dim: #444; --good: #064; --bad: #900; --warn: #740; --edge: #888; font-size: 11pt; }
  body { display: block; height: auto; }
  #time, main, #splitter, #tabs, #numbers, #note, #help-button { display: none !important; }
  .panel { display: block; overflow: visible; padding: 0; }
  .panel::before { content: attr(aria-label); display: block; font-size: 1.3rem; font-weight: 700; margin: 1rem 0 .4rem; }
  .chip.good, .chip.bad, .chip.warn { background: none; color: #000; border: 1px solid #000; }
  th { position: static; }
  .leads.lit { background: none; }
  tr, article h3 { break-inside: avoid; }
  .severity { border: 1px solid #000; }
}
";
