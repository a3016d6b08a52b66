//! The file page/body.html: the page from the end of its style to its data. Written by scripts/page.py.

/// The text of the file.
pub(crate) const TEXT: &str = "</head>
<body>
<p id='loading'>The log is being read. If this does not go away, the file was cut off, or the browser runs no scripts.</p>

<header>
  <div>
    <h1 id='log'></h1>
    <p id='span'></p>
  </div>
  <nav id='chips' aria-label='What was found'></nav>
  <button id='help-button' type='button' title='Keys and marks (?)'>?</button>
</header>
<p id='note' role='status'></p>

<section id='time' aria-label='Time line'>
  <canvas id='timeline' tabindex='-1'></canvas>
  <p id='tip' hidden></p>
</section>

<main>
  <section id='stage' aria-label='Screen'>
    <p id='caption'><strong id='shown'></strong> <span id='since'></span></p>
    <div id='frame'>
      <img id='picture' alt='' hidden>
      <p id='nothing' hidden></p>
    </div>
    <div id='player'>
      <button id='previous' type='button' title='Previous screen (Left)'>&#9664;&#xFE0E;</button>
      <button id='play' type='button' title='Play (Space)'>Play</button>
      <button id='next' type='button' title='Next screen (Right)'>&#9654;&#xFE0E;</button>
      <span id='speeds' role='group' aria-label='Speed'></span>
      <output id='clock'></output>
    </div>
  </section>

  <section id='trace-pane' aria-label='Trace'>
    <div id='search-row'>
      <input id='search' type='search' placeholder='Search (/)' aria-label='Search the trace' autocomplete='off' spellcheck='false'>
      <output id='count'></output>
    </div>
    <div id='filters' role='group' aria-label='Only these lines'>
      <select id='address' aria-label='Address'></select>
      <button class='filter' type='button' data-filter='commands' aria-pressed='false'>only commands</button>
      <button class='filter' type='button' data-filter='operator' aria-pressed='false'>operator</button>
      <button class='filter' type='button' data-filter='differences' aria-pressed='false'>differences</button>
      <label><input id='hide-packets' type='checkbox' checked> hide packets</label>
    </div>
    <div id='list' tabindex='0' aria-label='Lines of the log'><div id='rows'></div></div>
  </section>
</main>

<div id='splitter' title='Drag to make the tables taller; double click for half of the page'></div>
<section id='tables'>
  <nav id='tabs' role='tablist'>
    <button id='tab-differences' type='button' role='tab' aria-controls='differences'>Differences</button>
    <button id='tab-pools' type='button' role='tab' aria-controls='pools-panel'>Pools</button>
    <button id='tab-numbers' type='button' role='tab' aria-controls='numbers'>Numbers</button>
  </nav>
  <div id='differences' class='panel' role='tabpanel' aria-label='Differences'></div>
  <div id='pools-panel' class='panel' role='tabpanel' aria-label='Pools'></div>
  <div id='numbers' class='panel' role='tabpanel' aria-label='Numbers'></div>
</section>

<dialog id='help' aria-label='Help'>
  <form method='dialog'><button aria-label='Close'>Close</button></form>
  <h2>Keys</h2>
  <dl>
    <dt><kbd>&larr;</kbd> <kbd>&rarr;</kbd></dt><dd>previous and next screen</dd>
    <dt><kbd>&uarr;</kbd> <kbd>&darr;</kbd></dt><dd>previous and next line of the trace</dd>
    <dt><kbd>Enter</kbd></dt><dd>open the line to its outputs and changes of the screen, and close it</dd>
    <dt><kbd>Space</kbd></dt><dd>play and pause</dd>
    <dt><kbd>D</kbd> <kbd>Shift</kbd>+<kbd>D</kbd></dt><dd>next and previous difference</dd>
    <dt><kbd>G</kbd></dt><dd>next gap</dd>
    <dt><kbd>Home</kbd> <kbd>End</kbd></dt><dd>first and last line</dd>
    <dt><kbd>/</kbd></dt><dd>search in the trace; <kbd>Enter</kbd> moves to the next line that is found, <kbd>Esc</kbd> ends the search</dd>
    <dt><kbd>?</kbd></dt><dd>this help</dd>
  </dl>
  <h2>Time line</h2>
  <p>Click or drag in it to move the cursor. The wheel zooms, with <kbd>Shift</kbd> it moves the part that is seen. Drag along the
    seconds at the top to zoom to a part. A double click shows the whole log.</p>
  <ul id='legend'>
    <li><i class='good'></i> accepted pool</li>
    <li><i class='bad'></i> refused pool, difference</li>
    <li><i class='warn'></i> broken transfer, busiest second, pool without its end</li>
    <li><i class='act'></i> action of the operator</li>
    <li><i class='gap'></i> gap: a status or maintenance message stayed away</li>
  </ul>
  <p id='made-by'></p>
</dialog>
";
