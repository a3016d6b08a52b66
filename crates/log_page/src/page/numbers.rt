//! The file page/numbers.js: a part of the script of the page. Written by scripts/page.py.

/// The text of the file.
pub(crate) const TEXT: &str = "// The log in numbers.

const MOST_BARS = 400;
const stat = kind => ofKind(model.stats, kind);
const inMs = time => time === null ? '' : (time / 1000).toFixed(3);
const inPercent = load => load === null ? '' : `${(load / 10).toFixed(1)} %`;
const plainRow = (...cells) => ({ cells: cells.map(cell => cell === null ? '' : String(cell)) });
const listOf = texts => make('ul', {}, ...texts.map(text => make('li', { textContent: text })));

// A part of the numbers, or what there is to say where it has nothing.
function part(id, title, isEmpty, nothing, ...inside) {
  return make('section', { id }, make('h3', { textContent: title }), ...isEmpty ? [sentence(nothing)] : inside);
}

// The load as bars: one a second, or one for some seconds with the greatest of their loads.
function loadBars() {
  if (model.seconds.length === 0) return [];
  const first = model.seconds[0].start, count = (model.seconds.at(-1).start - first) / SECOND + 1;
  const each = Math.ceil(count / MOST_BARS), bars = Array(Math.ceil(count / each)).fill(null);
  for (const second of model.seconds) {
    const k = Math.floor((second.start - first) / SECOND / each);
    if (bars[k] === null || second.bits > bars[k].bits) bars[k] = second;
  }
  return bars.map(bar);
}

function bar(second) {
  const element = make('i', {});
  if (second === null) return element;
  element.style.height = `${Math.max(2, second.bits / model.busiest.bits * 100)}%`;
  element.title = `${seconds(second.start)} s: ${wordsOfSecond(second)}`;
  element.className = second.start === model.busiest.start ? 'busiest' : '';
  element.onclick = () => moveToTime(second.from);
  return element;
}

function wordsOfLog({ frames, bytes, first_time, last_time, load, seen_twice }) {
  return [`${plural(frames, 'frame')}, ${plural(bytes, 'byte')}, ${span(last_time - first_time)}`,
    ...load === null ? [] : [`bus load at 250 kbit/s: at least ${inPercent(load)}`],
    ...model.busiest === null ? []
      : [`busiest second: from ${seconds(model.busiest.start)} s on, ${wordsOfSecond({ ...model.busiest, start: null })}`],
    ...seen_twice > 0 ? [`seen twice: ${plural(seen_twice, 'frame')}`] : []];
}

function wordsOfTransfers({ whole, broken, unended, repeated_packets, longest }) {
  return [`transfers: ${whole} whole, ${broken} broken off, ${unended} not ended, ${repeated_packets} packets again`,
    ...longest === null ? [] : [`longest transfer: ${span(longest.time)} for ${plural(longest.bytes, 'byte')} of ${longest.source} to `
      + `${longest.destination}, from line ${longest.line} on`]];
}

const wordsOfHandshake = ({ count, missing, first_line }) => `${plural(count, 'transfer')} without `
  + `${missing === 'CTS' ? 'a CTS' : 'an acknowledgement'} of the receiver, the first at line ${first_line}`;
const wordsOfClock = ({ direction, count, first_line, greatest }) => `${plural(count, 'step')} ${direction} of the clock, `
  + `the first at line ${first_line}, the greatest ${(greatest / SECOND).toFixed(6)} s`;
const wordsOfPassedOver = ({ what, count, first_line }) => `${plural(count, what)} passed over, the first at line ${first_line}`;

function wordsOfSet(set) {
  const named = objects => objects.map(wordsOfObject).join(', ') || 'none';
  return [`${plural(set.done, 'command')} done, ${set.refused} refused`,
    `masks shown: ${named(set.masks_shown)}; never: ${named(set.masks_never)}`,
    `objects drawn: ${set.objects_drawn.length}; never: ${named(set.objects_never)}`,
    `macros reached: ${named(set.macros_reached)}; never: ${named(set.macros_never)}`];
}

function gapItem(gap) {
  const item = make('p', { className: 'sentence', textContent: wordsOfGap(gap) });
  return leadIfHere(item, gap.longest.isHere, gap.longest.index);
}

function functionRows(group) {
  return stat('function').filter(each => each.group === group).map(each => plainRow(each.function, each.name, each.messages));
}

function loadPart() {
  if (model.log === null) return part('load', 'Load', true, 'The log has no frame.');
  const sources = stat('source').map(each => plainRow(each.source, each.frames, each.bytes, inPercent(each.load)));
  return part('load', 'Load', false, '', make('div', { className: 'bars' }, ...loadBars()), listOf(wordsOfLog(model.log)),
    table('', ['Address', 'Frames', 'Bytes', 'Load'], sources));
}

function answersPart() {
  const heads = ['Function', 'Answers', 'Least', 'Median', 'Greatest', 'Unanswered'];
  const rows = stat('answers').map(each => plainRow(`${each.function} ${each.name ?? ''}`, each.answers, inMs(each.least),
    inMs(each.median), inMs(each.greatest), each.unanswered));
  return part('answers', 'Answer times in milliseconds', rows.length === 0, 'No request of an implement is in the log.',
    table('', heads, rows));
}

const tablePart = (id, title, heads, rows) => part(id, title, rows.length === 0, 'There is none.', table('', heads, rows));
const listPart = (id, title, texts, nothing) => part(id, title, texts.length === 0, nothing, listOf(texts));

function showNumbers() {
  const heads = ['Function', 'Name', 'Messages'];
  const groups = stat('group').map(each => plainRow(each.group, each.name, each.frames));
  const transport = [...stat('transfers').flatMap(wordsOfTransfers), ...stat('handshake').map(wordsOfHandshake)];
  const clock = [...stat('clock').map(wordsOfClock), ...stat('passed_over').map(wordsOfPassedOver)];
  $('numbers').append(make('div', {},
    loadPart(),
    part('gaps', 'Gaps', model.gaps.length === 0, 'No status and no maintenance message stayed away for more than 3 s.',
      ...model.gaps.map(gapItem)),
    answersPart(),
    tablePart('to-terminals', 'Messages to terminals', heads, functionRows('E700')),
    tablePart('of-terminals', 'Messages of terminals', heads, functionRows('E600')),
    tablePart('groups', 'Parameter groups', ['Group', 'Name', 'Frames'], groups),
    listPart('transport', 'Transport', transport, 'No message came in packets.'),
    listPart('clock-steps', 'Clock and lines passed over', clock, 'The times never go back, and no line is passed over.'),
    ...model.sets.map(set => listPart(`set-${set.source}`, `Working set ${set.source}`, wordsOfSet(set), '')),
  ));
}
";
