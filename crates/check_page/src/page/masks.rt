//! The file page/masks.js: a part of the script of the page. Written by scripts/page.py.

/// The text of the file.
pub(crate) const TEXT: &str =
    "// The pictures of the masks, each drawn when it comes into sight, and how large they are.

const LEAST = 0.25, MOST = 8, STEP = 1.25;
const pictures = $('pictures');
const figures = new Map();  // by the ID of the mask
let zoom = 1;

// ---- a picture

// The element of a text of SVG. Its IDs get a prefix, since several pictures of the page may have the same.
function pictureOf(text, prefix) {
  const svg = document.importNode(new DOMParser().parseFromString(text, 'image/svg+xml').documentElement, true);
  if (svg.localName !== 'svg') return make('p', { textContent: 'There is no picture.' });
  for (const each of svg.querySelectorAll('[id]')) each.id = `${prefix}${each.id}`;
  for (const each of svg.querySelectorAll('[href]')) each.setAttribute('href', `#${prefix}${each.getAttribute('href').slice(1)}`);
  for (const each of svg.querySelectorAll('[fill^=url]')) each.setAttribute('fill', each.getAttribute('fill').replace('#', `#${prefix}`));
  return svg;
}

// Draws the picture of a mask, if it is not drawn yet.
function drawMask({ mask, box }) {
  if (box.dataset.drawn) return;
  box.dataset.drawn = 'yes';
  const svg = pictureOf(mask.svg, `m${mask.id}-`);
  svg.setAttribute('aria-hidden', 'true');
  box.prepend(svg);
}

// The element of a mask at a point: the one that is drawn last. What has no size, or is thin, is found close by.
function elementAt({ mask }, x, y) {
  const holds = ({ x: left, y: top, width, height, left: from, top: above, right, bottom }) => {
    const wide = width < 6 ? 3 : 0, high = height < 6 ? 3 : 0;
    return x >= left - wide && x < left + width + wide && y >= top - high && y < top + height + high
      && x >= from - wide && x < right + wide && y >= above - high && y < bottom + high;
  };
  return mask.elements.findLast(holds) ?? null;
}

const wordsOfPlace = ({ x, y, width, height }) => `${width}x${height} at ${x},${y}`;

// ---- hover, click and keys in a picture

function pointIn(figure, event) {
  const { left, top } = figure.box.getBoundingClientRect();
  return [(event.clientX - left) / zoom, (event.clientY - top) / zoom];
}

function showTip(figure, event) {
  const tip = $('tip'), element = elementAt(figure, ...pointIn(figure, event));
  showHover(figure, element);
  const place = element === null ? '' : `, ${wordsOfPlace(element)}`;
  tip.replaceChildren(`${nameOf(element?.id ?? figure.mask.id)}${place}`);
  tip.hidden = false;
  const wide = tip.offsetWidth, high = tip.offsetHeight;
  tip.style.left = `${Math.max(4, Math.min(event.clientX + 14, innerWidth - wide - 8))}px`;
  tip.style.top = `${event.clientY + 18 + high > innerHeight ? event.clientY - high - 10 : event.clientY + 18}px`;
}

function hideTip(figure) {
  $('tip').hidden = true;
  showHover(figure, null);
}

function clickIn(figure, event) {
  const element = elementAt(figure, ...pointIn(figure, event));
  choose(element?.id ?? figure.mask.id, { from: 'mask' });
  figure.at = element?.index ?? -1;
}

// The arrow keys go through the elements of a picture in the order in which they are drawn.
function keyIn(figure, event) {
  const by = { ArrowRight: 1, ArrowDown: 1, ArrowLeft: -1, ArrowUp: -1 }[event.key];
  if (by === undefined || event.ctrlKey || event.altKey || event.metaKey) return;
  event.preventDefault();
  event.stopPropagation();
  const { mask } = figure, now = figure.at ?? -1, is = mask.elements[now]?.id ?? mask.id;
  const start = is === choice.id ? now : mask.elements.findIndex(element => element.id === choice.id);
  const next = Math.max(-1, Math.min(start + by, mask.elements.length - 1));
  choose(mask.elements[next]?.id ?? mask.id, { from: 'mask' });
  figure.at = next;
  const element = mask.elements[next];
  $('note').textContent = '';
  figure.box.setAttribute('aria-label', `${labelOf(mask)}: ${element ? `${nameOf(element.id)}, ${wordsOfPlace(element)}` : 'the mask'}`);
}

// ---- the figures

function badges(findings) {
  return SEVERITIES.map(severity => [severity, findings.filter(finding => finding.severity === severity).length])
    .filter(([, number]) => number > 0)
    .map(([severity, number]) => make('span', { className: `badge ${severity}`, textContent: plural(number, severity) }));
}

// The findings of the objects that a mask shows.
function findingsIn(mask) {
  const ids = new Set([mask.id, ...mask.elements.map(element => element.id)]);
  return [...ids].flatMap(id => model.byId.get(id)?.findings ?? []);
}

function figureOf(mask) {
  const box = make('div', { className: 'picture', tabIndex: 0 }), figure = { mask, box, at: -1 };
  const title = make('button', { type: 'button', className: 'title', textContent: labelOf(mask), onclick: () => choose(mask.id, { from: 'mask' }) });
  figure.element = make('figure', { id: `mask-${mask.id}` }, make('figcaption', {}, title, ...badges(findingsIn(mask))), box);
  box.style.setProperty('--w', mask.width);
  box.style.setProperty('--h', mask.height);
  box.setAttribute('role', 'group');
  box.setAttribute('aria-label', `${labelOf(mask)}: the arrow keys go through its ${plural(mask.elements.length, 'element')}`);
  box.onpointermove = event => showTip(figure, event);
  box.onpointerleave = () => hideTip(figure);
  box.onclick = event => clickIn(figure, event);
  box.onkeydown = event => keyIn(figure, event);
  figures.set(mask.id, figure);
  return figure;
}

const inSight = new IntersectionObserver(entries => {
  for (const entry of entries) {
    if (entry.isIntersecting) drawMask(figures.get(Number(entry.target.dataset.mask)));
  }
}, { root: pictures, rootMargin: '800px' });

// ---- zoom

// Changes the size of the pictures; what is in the middle of the stage stays there.
function setZoom(size) {
  const before = zoom, { scrollLeft, scrollTop, clientWidth, clientHeight } = pictures;
  zoom = Math.max(LEAST, Math.min(MOST, size));
  pictures.style.setProperty('--zoom', zoom);
  $('zoom-one').textContent = `${Math.round(zoom * 100)} %`;
  pictures.scrollLeft = (scrollLeft + clientWidth / 2) * zoom / before - clientWidth / 2;
  pictures.scrollTop = (scrollTop + clientHeight / 2) * zoom / before - clientHeight / 2;
}

// The greatest size, up to one pixel for each, at which the widest mask fits beside the lists.
function fitting() {
  const widest = Math.max(1, ...model.masks.map(mask => mask.width));
  return Math.max(LEAST, Math.min(1, (pictures.clientWidth - 48) / widest));
}

// ---- masks by their list

function goToMask(mask) {
  const figure = figures.get(mask.id);
  figure.element.scrollIntoView({ block: 'start' });
  figure.box.focus({ preventScroll: true });
  $('jump').value = String(mask.id);
}

function stepMask(by) {
  const at = model.masks.findIndex(mask => String(mask.id) === $('jump').value);
  const mask = model.masks[at + by];
  if (mask === undefined) say(by > 0 ? 'This is the last mask.' : 'This is the first mask.'); else goToMask(mask);
}

function startMasks() {
  const { masks, about } = model;
  pictures.append(...masks.map(mask => figureOf(mask).element));
  if (masks.length === 0) pictures.append(make('p', { className: 'empty', textContent: 'No Data Mask or Alarm Mask could be read.' }));
  if (about.masks_left_out > 0) {
    pictures.append(make('p', { className: 'empty', textContent: `${plural(about.masks_left_out, 'mask')} left out of this page.` }));
  }
  for (const { mask, box } of figures.values()) {
    box.dataset.mask = mask.id;
    inSight.observe(box);
  }
  $('jump').append(...masks.map(mask => make('option', { value: mask.id, textContent: labelOf(mask) })));
  $('jump').onchange = () => goToMask(model.masks.find(mask => String(mask.id) === $('jump').value));
  $('zoom-out').onclick = () => setZoom(zoom / STEP);
  $('zoom-in').onclick = () => setZoom(zoom * STEP);
  $('zoom-one').onclick = () => setZoom(1);
  pictures.addEventListener('wheel', event => {
    if (!event.ctrlKey) return;
    event.preventDefault();
    setZoom(zoom * (event.deltaY < 0 ? STEP : 1 / STEP));
  }, { passive: false });
}
";
