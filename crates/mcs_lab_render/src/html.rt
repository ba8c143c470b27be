//! The picture as a page of its own, through which a reader steps by keys, by a slider, and by
//! clicks on rows. The panel with the step is beside the picture, and below it in narrow windows;
//! both scroll by themselves, so neither hides the other. The heads of the lanes stay in sight.
use crate::labels::Naming;
use crate::paper::put_attribute;
use crate::scene::Scene;
use crate::svg::svg_of;
use crate::texts::{put_escaped, take_text};
use mcs_lab_diagram::Window;
use mcs_lab_inspect::TextBuffer;
use std::alloc::{AllocError, Global};

/// The page before the title.
const HEAD: &str = "<!DOCTYPE html>
<html lang=\"en\">
<head>
<meta charset=\"utf-8\">
<meta name=\"viewport\" content=\"width=device-width\">
<meta name=\"color-scheme\" content=\"light dark\">
<title>";

/// The page between the title and the picture.
const BEFORE: &str = "</title>
<style>
html,body{height:100%}
body{margin:0;font:13px system-ui,sans-serif;background:#fff;color:#111}
body.stepping{display:grid;grid-template:minmax(0,1fr)/minmax(0,1fr) 26em}
main{overflow:auto}
main>svg{display:block}
#side{overflow:auto;padding:1em;box-sizing:border-box;border-left:1px solid #8888}
#side h1{font-size:1.1em;margin:0 0 1em}
#side input{width:100%}
#step{min-height:3em}
#states{padding-left:1.2em}
#states li{margin:.3em 0}
:focus-visible{outline:3px solid #0072b2;outline-offset:-3px}
#heads{position:sticky;top:0;box-shadow:0 1px #8888;pointer-events:none}
main:focus-visible>#heads{clip-path:inset(3px 0 -1px)}
.stepping g.row{cursor:pointer}
g.row.here text{text-decoration:underline;font-weight:bold;stroke:none}
g.bar.past,path.arrow.past,circle.past{opacity:.25}
.band{fill:#0072b2;fill-opacity:.1}
@media (max-width:60em){
body.stepping{grid-template:minmax(0,1fr) auto/minmax(0,1fr)}
#side{max-height:40vh;border-left:0;border-top:1px solid #8888}
#step{min-height:0}
}
@media (prefers-color-scheme:dark){
body{background:#161616;color:#eee}
:focus-visible{outline-color:#56b4e9}
.band{fill:#56b4e9;fill-opacity:.15}
}
@media print{
body.stepping{display:block}
#side{display:none}
}
</style>
</head>
<body>
<main tabindex=\"0\" aria-label=\"The picture\">
";

/// The page between the picture and the title in the panel.
const BETWEEN: &str = "</main>
<aside id=\"side\" hidden>
<h1>";

/// The page between that title and the numbers of the first and last line.
const PANEL: &str = "</h1>
<p><label for=\"slider\">After line <output id=\"number\"></output></label> (keys: up, down, Home, End; or click a row)</p>
<input id=\"slider\" type=\"range\" ";

/// The page after those numbers.
const AFTER: &str = ">
<p><button id=\"back\" type=\"button\">Back</button> <button id=\"next\" type=\"button\">Next</button></p>
<p id=\"step\" aria-live=\"polite\"></p>
<ul id=\"states\"></ul>
</aside>
<script>
(() => {
  const find = id => document.getElementById(id);
  const main = document.querySelector('main');
  const picture = main.querySelector('svg');
  const ground = picture.querySelector('rect.ground');
  const slider = find('slider');
  const rows = [...picture.querySelectorAll('g.row')];
  const bars = [...picture.querySelectorAll('g.bar')];
  const drawn = [...picture.querySelectorAll('path.arrow[data-line], circle[data-line]')];
  find('side').hidden = false;
  document.body.classList.add('stepping');
  // where rows begin, and where the last one ends
  const edges = rows.map(row => row.getBBox().y - 4);
  edges.push(picture.querySelector('text.strong').getBBox().y - 8);
  // the heads of the lanes once more, over the picture
  const lanes = picture.querySelector('g.heads');
  const box = lanes.getBBox();
  const above = box.width > 0 ? box.y + box.height + 6 : 0;
  const heads = picture.cloneNode(false);
  for (const name of ['role', 'viewBox']) heads.removeAttribute(name);
  heads.id = 'heads';
  heads.setAttribute('aria-hidden', 'true');
  heads.setAttribute('height', above);
  heads.style.marginBottom = -above + 'px';
  heads.append(ground.cloneNode(), lanes.cloneNode(true));
  main.prepend(heads);
  // the title of the whole picture is no hint over each part of it
  const title = picture.querySelector(':scope > title');
  picture.setAttribute('aria-label', title.textContent);
  title.remove();
  const band = document.createElementNS(picture.namespaceURI, 'rect');
  band.setAttribute('class', 'band');
  band.setAttribute('width', '100%');
  ground.after(band);
  // marks the row of a line, or the one before it where the line reaches no lane that is shown
  const mark = (at, line) => {
    const row = rows[at];
    const [top, bottom] = [edges[at], edges[at + 1]];
    row.classList.add('here');
    band.setAttribute('y', top);
    band.setAttribute('height', Math.max(0, bottom - top));
    const seen = main.clientHeight - above;
    if (top - above < main.scrollTop || bottom > main.scrollTop + main.clientHeight)
      main.scrollTop = top - above - Math.max(0, seen - (bottom - top)) / 3;
    const texts = [...row.querySelectorAll('text:not(.number)')].map(text => text.textContent);
    const [, file] = [...row.querySelectorAll('.number')].map(text => text.textContent);
    const number = file ? 'Line ' + line + ' (line ' + file + ' of the file): ' : '';
    find('step').textContent = Number(row.dataset.line) === line ? number + texts.join(' ')
      : 'Line ' + line + ' reaches no thread that is shown.';
  };
  const show = () => {
    const line = Number(slider.value);
    find('number').textContent = line;
    slider.setAttribute('aria-valuetext', 'line ' + line);
    find('back').disabled = slider.value === slider.min;
    find('next').disabled = slider.value === slider.max;
    for (const row of rows) row.classList.remove('here');
    const at = rows.findLastIndex(row => Number(row.dataset.line) <= line);
    if (at >= 0) mark(at, line);
    const states = find('states');
    states.replaceChildren();
    for (const bar of bars) {
      const first = Number(bar.dataset.first), last = Number(bar.dataset.last);
      bar.classList.toggle('past', first > line);
      const title = bar.querySelector('title');
      if (first <= line && line <= last && title) {
        const item = document.createElement('li');
        item.textContent = title.textContent.replace(/, after lines? [^:]*:/, '');
        states.append(item);
      }
    }
    for (const one of drawn) one.classList.toggle('past', Number(one.dataset.line) > line);
  };
  const go = line => { slider.value = line; show(); };
  const move = by => go(Number(slider.value) + by);
  slider.addEventListener('input', show);
  find('back').addEventListener('click', () => move(-1));
  find('next').addEventListener('click', () => move(1));
  main.addEventListener('click', event => {
    if (String(getSelection()) || event.clientY < heads.getBoundingClientRect().bottom) return;
    const at = event.clientY - picture.getBoundingClientRect().top;
    const row = rows.findIndex((_, i) => edges[i] <= at && at < edges[i + 1]);
    if (row >= 0) go(rows[row].dataset.line);
  });
  // the arrow keys to the left and to the right scroll
  document.addEventListener('keydown', event => {
    if (event.altKey || event.ctrlKey || event.metaKey || event.shiftKey) return;
    switch (event.key) {
      case 'ArrowDown': move(1); break;
      case 'ArrowUp': move(-1); break;
      case 'Home': go(slider.min); break;
      case 'End': go(slider.max); break;
      default: return;
    }
    event.preventDefault();
  });
  main.focus({ preventScroll: true, focusVisible: false });
  show();
})();
</script>
</body>
</html>
";

/// Appends the numbers of the first line and the last, and of the one at which the page begins.
fn put_slider(to: &mut TextBuffer, shown: Window) {
    put_attribute(to, b"min=\"", shown.first.saturating_sub(1) as u64);
    put_attribute(to, b" max=\"", shown.last as u64);
    put_attribute(to, b" value=\"", shown.first.min(shown.last) as u64);
}

/// Returns the picture of a scene as an HTML page with this title, which needs no other file. It
/// begins at the first line that is shown.
pub fn html_of<N: Naming>(
    alloc: Global,
    scene: &Scene<'_, N>,
    title: &str,
) -> Result<String, AllocError> {
    let picture = svg_of(alloc, scene, title)?;
    let mut page = TextBuffer::new(alloc)?;
    page.put(HEAD.as_bytes());
    put_escaped(&mut page, title);
    page.put(BEFORE.as_bytes());
    page.put(picture.as_bytes());
    page.put(BETWEEN.as_bytes());
    put_escaped(&mut page, title);
    page.put(PANEL.as_bytes());
    put_slider(&mut page, scene.window);
    page.put(AFTER.as_bytes());
    take_text(alloc, &mut page)
}
