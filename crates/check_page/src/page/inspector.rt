//! The file page/inspector.js: a part of the script of the page. Written by scripts/page.py.

/// The text of the file.
pub(crate) const TEXT: &str =
    "// What is said of the chosen object: its place, its findings, what names it, and what it names.

const MOST_CHIPS = 60;  // of a list, until more are asked for

function part(title, ...children) {
  return make('section', {}, make('h3', { textContent: title }), ...children);
}

// Chips of references, of which each ID has one with all its places.
function chipsOf(references) {
  const places = new Map();
  for (const [id, place] of references) places.set(id, [...places.get(id) ?? [], place]);
  const chips = [...places].map(([id, all]) => () => chip(id, `: ${all.slice(0, 3).join(', ')}${all.length > 3 ? ` and ${all.length - 3} more` : ''}`));
  const box = make('div', { className: 'chips' }, ...chips.slice(0, MOST_CHIPS).map(each => each()));
  if (chips.length > MOST_CHIPS) {
    box.append(make('button', { type: 'button', className: 'more', textContent: `${chips.length - MOST_CHIPS} more`,
      onclick: event => event.target.replaceWith(...chips.slice(MOST_CHIPS).map(each => each())) }));
  }
  return box;
}

// ---- the places of an object

function placeButton({ mask, index }) {
  const element = mask.elements[index];
  const words = element === undefined ? labelOf(mask) : `${labelOf(mask)}: ${wordsOfPlace(element)}`;
  const go = () => {
    const figure = figures.get(mask.id);
    const bounds = boundsOf(mask, index);
    figure.element.scrollIntoView({ block: bounds.height * zoom < pictures.clientHeight * 0.8 ? 'center' : 'start' });
    $('jump').value = String(mask.id);
  };
  return make('button', { type: 'button', className: 'chip place', textContent: words, onclick: go });
}

function partOfPlaces(object) {
  const { places, by } = seenPlaces(object.id);
  if (object.places.length > 0) {
    const own = object.places.filter(place => place.index >= 0);
    return own.length === 0 ? [] : [part(own.length === 1 ? 'Place' : `${plural(own.length, 'place')}`,
      make('div', { className: 'chips' }, ...own.slice(0, 20).map(placeButton),
        ...own.length > 20 ? [make('span', { textContent: `and ${own.length - 20} more` })] : []))];
  }
  const words = places.length === 0 ? 'It is in no mask of this page.'
    : `It has no place of its own. What names it is framed: ${by.slice(0, 6).map(nameOf).join(', ')}${by.length > 6 ? ` and ${by.length - 6} more` : ''}.`;
  return [part('Place', make('p', { textContent: words }))];
}

// ---- the parts

function findingItem(finding) {
  const item = make('button', { type: 'button', className: `told ${finding.severity} ${finding === choice.finding ? 'lit' : ''}`,
    onclick: () => chooseFinding(finding, null) }, make('b', { textContent: `${finding.code} ${finding.name}` }), ` ${finding.message}`);
  return item;
}

function partsOf(object) {
  const parts = [];
  if (object.findings.length > 0) parts.push(part(plural(object.findings.length, 'finding'), ...object.findings.slice(0, MOST_CHIPS).map(findingItem)));
  parts.push(...partOfPlaces(object));
  if (object.parents.length > 0) parts.push(part('Named by', chipsOf(object.parents)));
  if (object.references.length > 0) parts.push(part('Names', chipsOf(object.references)));
  if (object.costs.length > 0) {
    parts.push(part('Costs', make('ul', {}, ...object.costs.map(({ event_name, steps }) => (
      make('li', { textContent: `${event_name}: ${plural(steps, 'step')}` }))))));
  }
  return parts;
}

const factsOf = object => [
  ...object.at === null ? [] : [['Record', `at byte ${object.at} (0x${object.at.toString(16).toUpperCase()})`]],
  ...object.text === null ? [] : [['Text', `'${object.text}'`]],
  ...model.keys.filter(key => key.id === object.id).map(key => ['Key code', String(key.code)]),
];

const NOTHING = 'Choose an object in a mask, a finding or a row of the list. It is framed in each mask that shows it, and its findings, its parents '
  + 'and what it names are told here.';

function showInspector() {
  const inspector = $('inspector'), object = model.byId.get(choice.id);
  inspector.scrollTop = 0;
  if (choice.id === null && choice.finding !== null) {
    inspector.replaceChildren(make('h2', { textContent: `${choice.finding.code} ${choice.finding.name}` }), make('p', { textContent: choice.finding.message }),
      make('p', { className: 'dim', textContent: 'This finding is about no object that could be read.' }));
  } else if (choice.id === null) inspector.replaceChildren(make('h2', { textContent: 'Nothing is chosen' }), make('p', { className: 'dim', textContent: NOTHING }));
  else if (object === undefined) {
    inspector.replaceChildren(make('h2', { textContent: nameOf(choice.id) }), ...choice.finding === null ? [] : [findingItem(choice.finding)],
      make('p', { className: 'dim', textContent: 'No object with this ID is in the page.' }));
  } else {
    const facts = factsOf(object).flatMap(([name, value]) => [make('dt', { textContent: name }), make('dd', { textContent: value })]);
    inspector.replaceChildren(make('h2', {}, `${object.kind} ${object.id}`, ...object.name === null ? [] : [make('span', { className: 'name', textContent: object.name })]),
      make('dl', { className: 'facts' }, ...facts), ...partsOf(object));
  }
}
";
