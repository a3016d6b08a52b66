//! The file page/body.html: the page from the end of its style to its data. Written by scripts/page.py.

/// The text of the file.
pub(crate) const TEXT: &str = "</head>
<body>
<p id='loading'>The pool is being read. If this does not go away, the file was cut off, or the browser runs no scripts.</p>

<header>
  <div>
    <h1 id='pool'></h1>
    <p id='span'></p>
  </div>
  <nav id='chips' aria-label='What was found'></nav>
  <button id='help-button' type='button' title='Keys and marks (?)'>?</button>
</header>
<p id='note' role='status'></p>

<main>
  <section id='side' aria-label='Lists'>
    <nav id='tabs' role='tablist'>
      <button id='tab-findings' type='button' role='tab' aria-controls='findings-panel' title='1'>Findings</button>
      <button id='tab-objects' type='button' role='tab' aria-controls='objects-panel' title='2'>Objects</button>
      <button id='tab-costs' type='button' role='tab' aria-controls='costs-panel' title='3'>Costs</button>
      <button id='tab-needs' type='button' role='tab' aria-controls='needs-panel' title='4'>Needs</button>
    </nav>
    <div id='findings-panel' class='panel' role='tabpanel' aria-label='Findings'></div>
    <div id='objects-panel' class='panel' role='tabpanel' aria-label='Objects'>
      <div id='search-row'>
        <input id='search' type='search' placeholder='ID, kind, name or text (/)' aria-label='Search the objects' autocomplete='off' spellcheck='false'>
        <select id='filter' aria-label='Only these objects'></select>
        <output id='count'></output>
      </div>
      <div id='list' tabindex='0' role='listbox' aria-label='Objects of the pool'><div id='rows'></div></div>
    </div>
    <div id='costs-panel' class='panel' role='tabpanel' aria-label='Costs'></div>
    <div id='needs-panel' class='panel' role='tabpanel' aria-label='Needs'></div>
  </section>

  <section id='stage' aria-label='Masks'>
    <div id='toolbar'>
      <select id='jump' aria-label='Go to a mask'></select>
      <span id='zooms' role='group' aria-label='Zoom'>
        <button id='zoom-out' type='button' title='Smaller (-)'>&minus;</button>
        <button id='zoom-one' type='button' title='One pixel for each (0)'>100 %</button>
        <button id='zoom-in' type='button' title='Larger (+)'>+</button>
      </span>
      <button id='marks' type='button' aria-pressed='true' title='Outline what has findings (M)'>Marks</button>
    </div>
    <div id='pictures'></div>
  </section>

  <aside id='inspector' aria-label='The chosen object' tabindex='-1'></aside>
</main>
<p id='tip' hidden></p>

<dialog id='help' aria-label='Help'>
  <form method='dialog'><button aria-label='Close'>Close</button></form>
  <h2>Keys</h2>
  <dl>
    <dt><kbd>/</kbd></dt><dd>search in the objects; <kbd>Enter</kbd> chooses the next one that is found, <kbd>Esc</kbd> ends the search</dd>
    <dt><kbd>F</kbd> <kbd>Shift</kbd>+<kbd>F</kbd></dt><dd>next and previous finding</dd>
    <dt><kbd>N</kbd> <kbd>P</kbd></dt><dd>next and previous mask</dd>
    <dt><kbd>+</kbd> <kbd>-</kbd> <kbd>0</kbd></dt><dd>larger, smaller, one pixel for each</dd>
    <dt><kbd>M</kbd></dt><dd>outline what has findings, or not</dd>
    <dt><kbd>1</kbd> to <kbd>4</kbd></dt><dd>findings, objects, costs, needs</dd>
    <dt><kbd>&uarr;</kbd> <kbd>&darr;</kbd></dt><dd>in a list: the row before and behind; in a mask: the element before and behind</dd>
    <dt><kbd>Enter</kbd></dt><dd>choose the row</dd>
    <dt><kbd>Esc</kbd></dt><dd>choose nothing</dd>
    <dt><kbd>?</kbd></dt><dd>this help</dd>
  </dl>
  <h2>Marks</h2>
  <ul id='legend'>
    <li><i class='error'></i> the element has an error</li>
    <li><i class='warning'></i> the element has a warning</li>
    <li><i class='chosen'></i> the chosen object</li>
    <li><i class='user'></i> what names the chosen object, if that has no place of its own</li>
    <li><i class='other'></i> the other object of the chosen finding</li>
  </ul>
  <p id='made-by'></p>
</dialog>
";
