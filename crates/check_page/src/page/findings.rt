//! The file page/findings.js: a part of the script of the page. Written by scripts/page.py.

/// The text of the file.
pub(crate) const TEXT: &str = "// The findings, in a group for each severity and code.

const MOST_SHOWN = 200;  // of a group, until more are asked for
const findingRows = new Map();  // by the index of the finding

function findingRow(finding) {
  const at = make('code', { textContent: finding.severity === 'note' && finding.offset === 0 ? '' : `byte ${finding.offset}` });
  const row = make('li', { className: 'finding', tabIndex: 0 }, make('span', { textContent: finding.message }), at);
  row.dataset.index = finding.index;
  row.onclick = () => { if (getSelection().isCollapsed) chooseFinding(finding, 'findings'); };
  row.onkeydown = event => {
    if (event.key === 'Enter') chooseFinding(finding, 'findings');
    const next = stepFocus(event, [...$('findings-panel').querySelectorAll('details[open] .finding')]);
    if (next !== null) chooseFinding(model.findings[Number(next.dataset.index)], 'findings');
  };
  findingRows.set(finding.index, row);
  return row;
}

// Appends the next rows of a group, and a button for those behind them.
function putRows(list, group, from) {
  list.append(...group.slice(from, from + MOST_SHOWN).map(findingRow));
  const left = group.length - from - MOST_SHOWN;
  if (left <= 0) return;
  const more = make('button', { type: 'button', className: 'more', textContent: `${count(left)} more`,
    onclick: () => { item.remove(); putRows(list, group, from + MOST_SHOWN); } });
  const item = make('li', {}, more);
  list.append(item);
}

function groupOfCode(group) {
  const { severity, code, name } = group[0], rule = model.rules.get(code), list = make('ul', {});
  putRows(list, group, 0);
  const element = make('details', { open: group.length <= 20, className: `code ${severity}` },
    make('summary', {}, make('span', { className: `severity ${severity}`, textContent: severity }), make('b', { textContent: `${code} ${name}` }),
      make('span', { className: 'number', textContent: count(group.length) })),
    ...rule === undefined ? [] : [make('p', { className: 'rule' }, `${rule.cause}. `, make('span', { textContent: `Cure: ${rule.cure}.` }))], list);
  element.dataset.severity = severity;
  return element;
}

function groupsOfCodes() {
  const groups = new Map();
  for (const finding of model.findings) {
    const key = `${finding.severity} ${finding.code}`;
    if (!groups.has(key)) groups.set(key, []);
    groups.get(key).push(finding);
  }
  return [...groups.values()];
}

function showFindings() {
  const panel = $('findings-panel'), left = model.about.findings_left_out;
  panel.append(...groupsOfCodes().map(groupOfCode));
  if (model.findings.length === 0) panel.append(make('p', { className: 'sentence good', textContent: 'The checker has nothing to say of this pool.' }));
  if (left > 0) panel.append(make('p', { className: 'sentence', textContent: `${plural(left, 'finding')} left out of this page.` }));
}

// Opens the groups of a severity, and moves there.
function leadToSeverity(severity) {
  openTab('findings');
  const groups = [...$('findings-panel').querySelectorAll(`details[data-severity=${severity}]`)];
  if (groups.length === 0) return;
  groups[0].open = true;
  groups[0].scrollIntoView({ block: 'start' });
  groups[0].querySelector('summary').focus({ preventScroll: true });
}

// Lights the findings of what is chosen, and brings the first into sight.
function lightFindings() {
  for (const row of $('findings-panel').querySelectorAll('.finding.lit')) row.classList.remove('lit', 'first');
  const own = choice.id === null ? [] : model.byId.get(choice.id)?.findings ?? [];
  const lit = choice.finding === null || own.includes(choice.finding) ? own : [choice.finding];
  for (const finding of lit) findingRows.get(finding.index)?.classList.add('lit');
  const row = findingRows.get((choice.finding ?? own[0])?.index);
  if (row === undefined) return;
  if (choice.finding !== null) row.classList.add('first');
  if (choice.from === 'findings') return;
  row.closest('details').open = true;
  row.scrollIntoView({ block: 'nearest' });
}
";
