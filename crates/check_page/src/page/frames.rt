//! The file page/frames.js: a part of the script of the page. Written by scripts/page.py.

/// The text of the file.
pub(crate) const TEXT: &str =
    "// The frames in the pictures: around what is chosen, around what the pointer is over, and around what has findings.

const MOST_FRAMES = 400;  // around what is chosen
const MOST_MARKS = 5000;
let hasMarks = true;

// A frame around an element of a picture. It reaches at most a little out of the picture.
function frameOf(mask, { x, y, width, height }, className) {
  const left = Math.max(-8, Math.min(x, mask.width)), top = Math.max(-8, Math.min(y, mask.height));
  const right = Math.max(left, Math.min(x + width, mask.width + 8)), bottom = Math.max(top, Math.min(y + height, mask.height + 8));
  const frame = make('i', { className: `frame ${className}` });
  for (const [name, value] of [['--x', left], ['--y', top], ['--fw', right - left], ['--fh', bottom - top]]) frame.style.setProperty(name, value);
  return frame;
}

const wholeOf = mask => ({ x: 0, y: 0, width: mask.width, height: mask.height });
const boundsOf = (mask, index) => mask.elements[index] ?? wholeOf(mask);

function removeFrames(selector) {
  for (const frame of pictures.querySelectorAll(selector)) frame.remove();
}

// ---- the pointer

let hovered = null;

function showHover({ mask, box }, element) {
  if (element === hovered) return;
  hovered = element;
  removeFrames('.frame.hover');
  if (element !== null) box.append(frameOf(mask, element, 'hover'));
}

// ---- what has findings

// Whether some of an element is shown.
const isShown = ({ x, y, width, height, left, top, right, bottom }) => (
  Math.max(x, left) < Math.min(x + Math.max(1, width), right) && Math.max(y, top) < Math.min(y + Math.max(1, height), bottom));

function showMarks() {
  removeFrames('.frame.mark');
  $('marks').ariaPressed = String(hasMarks);
  if (!hasMarks) return;
  let left = MOST_MARKS;
  for (const { mask, box } of figures.values()) {
    for (const element of mask.elements) {
      const severity = worstOf(model.byId.get(element.id)?.findings ?? []);
      if (severity === null || !isShown(element) || left === 0) continue;
      left -= 1;
      box.append(frameOf(mask, element, `mark ${severity}`));
    }
  }
}

function toggleMarks() {
  hasMarks = !hasMarks;
  showMarks();
}

// ---- what is chosen

// The elements with the other object of the chosen finding: those within an element of the chosen object, if there are any.
function otherElements(mask) {
  const { finding, id } = choice;
  if (finding === null || finding.other === null || finding.other === id) return [];
  const all = mask.elements.filter(element => element.id === finding.other);
  const within = all.filter(element => mask.elements[element.around]?.id === id || (element.around < 0 && mask.id === id));
  return within.length > 0 ? within : all;
}

// Frames the chosen object where it is seen, and returns the frames.
function showFrames() {
  removeFrames('.frame.chosen, .frame.user, .frame.other');
  if (choice.id === null) return [];
  const { places, by } = seenPlaces(choice.id);
  const kind = by.length > 0 ? 'user' : 'chosen', framed = [];
  for (const { mask, index } of places.slice(0, MOST_FRAMES)) {
    const { box } = figures.get(mask.id), frame = frameOf(mask, boundsOf(mask, index), kind);
    box.append(frame);
    framed.push(frame);
  }
  for (const mask of new Set(places.map(place => place.mask))) {
    for (const element of otherElements(mask)) figures.get(mask.id).box.append(frameOf(mask, element, 'other'));
  }
  return framed;
}

const isInSight = element => {
  const inner = element.getBoundingClientRect(), outer = pictures.getBoundingClientRect();
  return inner.top < outer.bottom - 8 && inner.bottom > outer.top + 8 && inner.left < outer.right - 8 && inner.right > outer.left + 8;
};

// Frames what is chosen, and brings one of its places into sight: a frame that is in sight already, or else the first.
function showChoice() {
  const frames = showFrames(), tiles = showTiles();
  if (choice.from === 'mask' || choice.id === null) return;
  if ([...frames, ...tiles].some(isInSight)) return;
  const first = frames[0] ?? tiles[0];
  if (first === undefined) return;
  const figure = first.closest('figure');
  const isLow = first.offsetHeight > pictures.clientHeight * 0.8;
  first.scrollIntoView({ block: isLow ? 'start' : 'center', inline: 'nearest' });
  if (figure?.id.startsWith('mask-')) $('jump').value = figure.id.slice(5);
}
";
