//! The file page/screen.js: a part of the script of the page. Written by scripts/page.py.

/// The text of the file.
pub(crate) const TEXT: &str =
    "// The picture of the screen at the cursor, what it is, and the buttons below it.

const SPEEDS = [1, 5, 20];
let shownPicture;

const screenAt = index => model.screens[lastWhere(model.screens, screen => screen.index <= index)] ?? null;

function wordsOfScreen(screen) {
  if (screen === null || screen.set === null) return 'no screen';
  return `set ${screen.set}, ${objectName(screen.set, screen.mask) ?? `mask ${screen.mask}`}`;
}

function sinceWhen(screen) {
  if (screen === null) return '';
  const place = screen.line === 0 ? 'from the start on' : `since line ${screen.line}, ${seconds(timeOfIndex(screen.index))} s`;
  const isLast = screen === model.screens.at(-1), more = isLast && model.about.screens_left_out > 0 ? ', later ones are left out' : '';
  return `${place} (${model.screens.indexOf(screen) + 1} of ${model.screens.length}${more})`;
}

// A picture is an image of its own, by a data: URL: nothing in it can reach the page.
function showPicture(svg) {
  if (svg === shownPicture) return;
  shownPicture = svg;
  $('picture').hidden = svg === null;
  $('nothing').hidden = svg !== null;
  if (svg !== null) $('picture').src = `data:image/svg+xml,${encodeURIComponent(svg)}`;
}

function showScreen() {
  const screen = screenAt(cursor.index), svg = model.pictures.get(screen?.picture) ?? null;
  $('shown').textContent = wordsOfScreen(screen);
  $('shown').style.borderColor = colourOfSet(screen?.set ?? null);
  $('since').textContent = sinceWhen(screen);
  $('picture').alt = wordsOfScreen(screen);
  $('nothing').textContent = screen !== null && screen.set !== null ? 'There is no picture of this screen.' : NOTHING_SHOWN;
  $('clock').textContent = `${seconds(cursor.at - atOfIndex(cursor.index) + timeOfIndex(cursor.index))} s`;
  showPicture(svg);
}

const NOTHING_SHOWN = model.screens.some(screen => screen.set !== null)
  ? 'Nothing is shown at this line.' : 'The terminal shows nothing in this log: no pool was accepted.';

function showPlayer() {
  $('play').textContent = cursor.isPlaying ? 'Pause' : 'Play';
  for (const button of $('speeds').children) button.ariaPressed = String(Number(button.value) === cursor.speed);
}

function startScreen() {
  $('previous').onclick = () => stepScreen(-1);
  $('next').onclick = () => stepScreen(1);
  $('play').onclick = () => play(!cursor.isPlaying);
  $('speeds').append(...SPEEDS.map(speed => make('button', { type: 'button', value: speed, textContent: `${speed}x`,
    title: `${speed} times as fast as the log`, onclick: () => { cursor.speed = speed; showPlayer(); } })));
  whenMoved(showScreen);
  showPlayer();
}
";
