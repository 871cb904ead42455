// How the triangles are drawn, and what the mouse does.

pub const DRAWING: &[u8] = b"// ---- WebGL, or why there is none
const view = find('view');
const say = text => { find('fault').textContent = text; };
const failed = cause => say(`WebGL failed, so the mesh is not drawn: ${cause}. Load the page again, or open it in another browser.`);
let cause = '';
view.addEventListener('webglcontextcreationerror', event => { cause = event.statusMessage; });
view.addEventListener('webglcontextlost', event => { event.preventDefault(); failed('the browser lost its context'); });
view.addEventListener('webglcontextrestored', () => { say(''); prepare(); draw(); });
const gl = view.getContext('webgl', { antialias: true, preserveDrawingBuffer: true, stencil: true });
if (!gl) say(`This browser has no WebGL, which draws the mesh${cause && ` (${cause})`}. Turn on its graphics acceleration, or open the page in another browser.`);

function program(vertex, fragment) {
  const made = gl.createProgram();
  for (const [kind, text] of [[gl.VERTEX_SHADER, vertex], [gl.FRAGMENT_SHADER, fragment]]) {
    const shader = gl.createShader(kind);
    gl.shaderSource(shader, text);
    gl.compileShader(shader);
    gl.attachShader(made, shader);
  }
  gl.linkProgram(made);
  if (!gl.getProgramParameter(made, gl.LINK_STATUS) && !gl.isContextLost()) failed(gl.getProgramInfoLog(made));
  return made;
}

function buffer(values) {
  const made = gl.createBuffer();
  gl.bindBuffer(gl.ARRAY_BUFFER, made);
  gl.bufferData(gl.ARRAY_BUFFER, values, gl.STATIC_DRAW);
  return made;
}

// ---- what is drawn: in all programs, what is beyond the section plane is left out
const FACES = [`
  attribute vec3 place, normal, colour;
  uniform mat4 seen;
  uniform mat3 turned;
  uniform vec4 plane;
  varying vec3 towards, own;
  varying float beyond;
  void main() { own = colour; towards = turned * normal; beyond = dot(plane.xyz, place) - plane.w; gl_Position = seen * vec4(place, 1.); }`, `
  precision mediump float;
  varying vec3 towards, own;
  varying float beyond;
  uniform float opacity;
  void main() {
    if (beyond > 0.) discard;
    vec3 n = normalize(towards);
    vec3 colour = gl_FrontFacing ? own : vec3(.80, .16, .48);
    if (!gl_FrontFacing) n = -n;
    float light = .30 + .52 * max(0., dot(n, normalize(vec3(.4, .6, .9)))) + .24 * max(0., dot(n, normalize(vec3(-.7, .1, .4))));
    gl_FragColor = vec4(colour * light, opacity);
  }`];
const STROKES = [`
  attribute vec3 place;
  uniform mat4 seen;
  uniform vec4 plane;
  varying float beyond;
  void main() { beyond = dot(plane.xyz, place) - plane.w; gl_Position = seen * vec4(place, 1.); gl_Position.z -= .0008 * gl_Position.w; gl_PointSize = 9.; }`, `
  precision mediump float;
  varying float beyond;
  uniform vec3 colour;
  void main() { if (beyond > 0.) discard; gl_FragColor = vec4(colour, 1.); }`];
const lines = corners => Float32Array.from({ length: 3 * corners.length }, (_, i) => places[3 * corners[i / 3 | 0] + i % 3]);
const sides = [];
for (let corner = 0; corner < cornerCount; corner += 3) sides.push(corner, corner + 1, corner + 1, corner + 2, corner + 2, corner);

let held = null;
function prepare() {
  held = { faces: program(...FACES), strokes: program(...STROKES), places: buffer(places), normals: buffer(normals), colours: buffer(colours), sharp: buffer(lines(sharp)), sides: buffer(lines(sides)) };
  const error = gl.getError();
  if (error && !gl.isContextLost()) failed(error === gl.OUT_OF_MEMORY ? 'too little graphics memory' : `error ${error}`);
}
if (gl) prepare();

// What the address asks for, as in page.html?through=1&zoom=2&axis=z&at=1.5
const given = new URLSearchParams(location.search);
const whole = () => ({ turn: Number(given.get('turn') || .6), tilt: Number(given.get('tilt') || .6), zoom: Number(given.get('zoom') || 1), x: 0, y: 0 });
let eye = whole();
for (const id of ['edges', 'triangles', 'through', 'other']) if (given.has(id)) find(id).checked = given.get(id) === '1';
if (given.get('panel') === '0') find('panel').hidden = true;

// ---- the eye
const dot = (a, b) => a[0] * b[0] + a[1] * b[1] + a[2] * b[2];
const determinant = (a, b, c) => a[0] * (b[1] * c[2] - b[2] * c[1]) + a[1] * (b[2] * c[0] - b[0] * c[2]) + a[2] * (b[0] * c[1] - b[1] * c[0]);

// The axes of the eye, how far it is from the middle, and the matrix from places to the screen.
function camera() {
  const [ca, sa, cb, sb] = [Math.cos(eye.turn), Math.sin(eye.turn), Math.cos(eye.tilt), Math.sin(eye.tilt)];
  const right = [ca, sa, 0], up = [-sa * sb, ca * sb, cb], back = [sa * cb, -ca * cb, sb];
  const away = 3.4 / eye.zoom, far = away + 1.3, near = Math.max(.02, away - 1.3);
  const wide = view.clientWidth || 1, tall = view.clientHeight || 1, focus = 3 * Math.min(wide, tall);
  const fx = focus / wide, fy = focus / tall, depth = (far + near) / (far - near), seen = new Float32Array(16);
  for (let i = 0; i < 3; i++) seen.set([fx * right[i], fy * up[i], -depth * back[i], -back[i]], 4 * i);
  seen.set([fx * eye.x, fy * eye.y, depth * away - 2 * far * near / (far - near), away], 12);
  return { right, up, back, away, near, wide, tall, fx, fy, seen };
}

// The pixel at which a place is seen.
function pixelOf(place) {
  const { right, up, back, away, wide, tall, fx, fy } = camera();
  const ahead = away - dot(back, place);
  return [wide / 2 * (1 + fx * (dot(right, place) + eye.x) / ahead), tall / 2 * (1 - fy * (dot(up, place) + eye.y) / ahead)];
}

// The ray through a pixel: the places from + t * along, which are seen if t is above near.
function rayThrough(x, y) {
  const { right, up, back, away, near, wide, tall, fx, fy } = camera();
  const across = (2 * x / wide - 1) / fx, upwards = (1 - 2 * y / tall) / fy;
  const from = [0, 1, 2].map(i => away * back[i] - eye.x * right[i] - eye.y * up[i]);
  const along = [0, 1, 2].map(i => across * right[i] + upwards * up[i] - back[i]);
  return { from, along, near };
}

// ---- the section plane
const AXES = ['x', 'y', 'z'];
const half = low.map((n, i) => (high[i] - n) / 2 / radius);
let offset = .5;
const sectionAxis = () => AXES.indexOf(find('axis').value);

const TOLERANCE = 1e-6;

// What is beyond the plane has a greater product with the normal than the limit. Without a plane nothing is beyond.
function section() {
  const axis = sectionAxis(), normal = [0, 0, 0], side = find('other').checked ? -1 : 1;
  if (axis < 0) return { normal, limit: 0 };
  normal[axis] = side;
  return { normal, limit: side * half[axis] * (2 * offset - 1) };
}

// The corners of the plane's frame, a little outside of the mesh. The mouse drags the plane by them.
function frame() {
  const axis = sectionAxis();
  if (axis < 0) return [];
  const [u, v] = [0, 1, 2].filter(i => i !== axis);
  return [[-1, -1], [1, -1], [1, 1], [-1, 1]].map(([p, q]) => {
    const place = [0, 0, 0];
    place[axis] = half[axis] * (2 * offset - 1);
    place[u] = p * (half[u] + .05);
    place[v] = q * (half[v] + .05);
    return place;
  });
}

const isOnFrame = (x, y) => frame().map(pixelOf).some(pixel => Math.hypot(pixel[0] - x, pixel[1] - y) < 12);

// Moves the plane as the mouse moves, along its axis as that is seen.
function dragSection(x, y) {
  const axis = sectionAxis(), here = [0, 0, 0], there = [0, 0, 0];
  here[axis] = half[axis] * (2 * offset - 1);
  there[axis] = here[axis] + .01;
  const [ax, ay] = pixelOf(here), [bx, by] = pixelOf(there), u = (bx - ax) / .01, v = (by - ay) / .01;
  const moved = (x * u + y * v) / Math.max(2500, u * u + v * v);
  offset = Math.min(1, Math.max(0, offset + moved / (2 * half[axis] || 1)));
}

// ---- distances
let marks = [];

// The ray's first point on the mesh or on the filled cut, by its t, and the triangle there. The values of t from start to end are on this side of the plane.
function firstHit({ from, along, near }) {
  const { normal, limit } = section(), height = dot(normal, from) - limit, slope = dot(normal, along);
  const entry = slope < 0 ? -height / slope : -Infinity, start = Math.max(near, entry);
  const end = slope > 0 ? -height / slope : slope < 0 || height <= TOLERANCE ? Infinity : 0;
  const [a, b, c] = [0, 1, 2].map(() => new Float64Array(3));
  let t = Infinity, triangle = -1, winding = 0;
  for (let corner = 0; corner < cornerCount; corner += 3) {
    for (let i = 0; i < 3; i++) {
      a[i] = places[3 * corner + i] - from[i];
      b[i] = places[3 * corner + 3 + i] - from[i];
      c[i] = places[3 * corner + 6 + i] - from[i];
    }
    const u = determinant(along, b, c), v = determinant(along, c, a), w = determinant(along, a, b), sum = u + v + w;
    if (!sum || Math.min(u, v, w) < 0 && Math.max(u, v, w) > 0) continue;
    const found = determinant(a, b, c) / sum;
    if (found < start || found > end + TOLERANCE) continue;
    winding += Math.sign(sum);
    if (found < t) [t, triangle] = [found, corner];
  }
  return isFilled() && entry > near && winding ? { t: entry, triangle: -1 } : { t, triangle };
}

// The point of the mesh at a pixel, in its own unit: a corner of the triangle there, if it is near. None beside the mesh.
function pointAt(x, y) {
  const ray = rayThrough(x, y), { t, triangle } = firstHit(ray), { normal, limit } = section();
  if (t === Infinity) return null;
  const near = corner => Math.hypot(...pixelOf(placeOf(corner)).map((n, i) => n - [x, y][i]));
  const corners = triangle < 0 ? [] : [triangle, triangle + 1, triangle + 2].filter(corner => near(corner) < 10 && dot(normal, placeOf(corner)) <= limit + TOLERANCE);
  corners.sort((a, b) => near(a) - near(b));
  if (corners.length) return [...numbers.subarray(3 * corners[0], 3 * corners[0] + 3)];
  return ray.from.map((n, i) => (n + t * ray.along[i]) * radius + middle[i]);
}

function mark(x, y) {
  const point = pointAt(x, y);
  marks = !point ? [] : marks.length === 1 ? [marks[0], point] : [point];
  const text = point => `(${point.map(shown).join(', ')})`;
  const [a, b] = marks, apart = b && b.map((n, i) => n - a[i]);
  const distance = b && `${text(a)} to ${text(b)}: ${shown(Math.hypot(...apart))}, along x, y and z ${apart.map(shown).join(', ')}`;
  find('distance').textContent = distance || marks.map(point => `from ${text(point)}`).join();
}

// ---- drawing
function point(used, name, values) {
  const at = gl.getAttribLocation(used, name);
  gl.bindBuffer(gl.ARRAY_BUFFER, values);
  gl.enableVertexAttribArray(at);
  gl.vertexAttribPointer(at, 3, gl.FLOAT, false, 0, 0);
}

function use(used, seen, { normal, limit }) {
  gl.useProgram(used);
  gl.uniformMatrix4fv(gl.getUniformLocation(used, 'seen'), false, seen);
  gl.uniform4fv(gl.getUniformLocation(used, 'plane'), [...normal, limit + TOLERANCE]);
}

function drawFaces({ right, up, back, seen }, opacity) {
  const used = held.faces;
  use(used, seen, section());
  gl.uniformMatrix3fv(gl.getUniformLocation(used, 'turned'), false, [0, 1, 2].flatMap(i => [right[i], up[i], back[i]]));
  gl.uniform1f(gl.getUniformLocation(used, 'opacity'), opacity);
  point(used, 'place', held.places);
  point(used, 'normal', held.normals);
  point(used, 'colour', held.colours);
  gl.drawArrays(gl.TRIANGLES, 0, cornerCount);
  for (const name of ['normal', 'colour']) gl.disableVertexAttribArray(gl.getAttribLocation(used, name));
}

function stroke(seen, plane, values, kind, count, colour) {
  use(held.strokes, seen, plane);
  gl.uniform3fv(gl.getUniformLocation(held.strokes, 'colour'), colour);
  point(held.strokes, 'place', values);
  gl.drawArrays(kind, 0, count);
}

// The same for a few places, wherever the section plane is.
function strokeOnce(seen, corners, kinds, colour) {
  const values = buffer(new Float32Array(corners.flat()));
  for (const kind of kinds) stroke(seen, { normal: [0, 0, 0], limit: 0 }, values, kind, corners.length, colour);
  gl.deleteBuffer(values);
}

// The cut is filled where it is inside the mesh, which only a closed mesh tells.
const isFilled = () => sectionAxis() >= 0 && !loose && !find('through').checked;

// Behind the cut, a ray leaves the mesh more often than it enters, or less often, exactly where the cut is inside.
function fillSection(eyes) {
  gl.enable(gl.STENCIL_TEST);
  gl.stencilFunc(gl.ALWAYS, 0, 255);
  gl.stencilOpSeparate(gl.FRONT, gl.KEEP, gl.KEEP, gl.DECR_WRAP);
  gl.stencilOpSeparate(gl.BACK, gl.KEEP, gl.KEEP, gl.INCR_WRAP);
  gl.colorMask(false, false, false, false);
  gl.disable(gl.DEPTH_TEST);
  drawFaces(eyes, 1);
  gl.enable(gl.DEPTH_TEST);
  gl.colorMask(true, true, true, true);
  gl.stencilFunc(gl.NOTEQUAL, 0, 255);
  gl.stencilOp(gl.KEEP, gl.KEEP, gl.KEEP);
  strokeOnce(eyes.seen, frame(), [gl.TRIANGLE_FAN], [.60, .65, .72]);
  gl.disable(gl.STENCIL_TEST);
}

function showSection() {
  const axis = sectionAxis();
  find('offset').hidden = axis < 0;
  find('offset').value = offset;
  find('coordinate').textContent = axis < 0 ? '' : `${AXES[axis]} = ${shown(low[axis] + offset * (high[axis] - low[axis]))}`;
}

function draw() {
  showSection();
  if (!gl || gl.isContextLost()) return;
  view.width = Math.max(1, view.clientWidth * devicePixelRatio);
  view.height = Math.max(1, view.clientHeight * devicePixelRatio);
  gl.viewport(0, 0, view.width, view.height);
  gl.clearColor(.106, .118, .141, 1);
  gl.clear(gl.COLOR_BUFFER_BIT | gl.DEPTH_BUFFER_BIT | gl.STENCIL_BUFFER_BIT);
  gl.enable(gl.DEPTH_TEST);
  const eyes = camera(), { seen } = eyes, through = find('through').checked;
  if (through) { gl.enable(gl.BLEND); gl.blendFunc(gl.SRC_ALPHA, gl.ONE_MINUS_SRC_ALPHA); gl.depthMask(false); }
  drawFaces(eyes, through ? .35 : 1);
  gl.disable(gl.BLEND);
  gl.depthMask(true);
  if (isFilled()) fillSection(eyes);
  if (find('triangles').checked) stroke(seen, section(), held.sides, gl.LINES, sides.length, [.33, .22, .10]);
  if (find('edges').checked) stroke(seen, section(), held.sharp, gl.LINES, sharp.length, [.06, .05, .04]);
  strokeOnce(seen, frame(), [gl.LINE_LOOP, gl.POINTS], [.45, .75, 1]);
  gl.disable(gl.DEPTH_TEST);
  strokeOnce(seen, marks.map(point => point.map((n, i) => (n - middle[i]) / radius)), [gl.LINES, gl.POINTS], [.45, 1, .55]);
}

// ---- the mouse
let last = null, isSectionDragged = false, travelled = 0;
view.onpointerdown = event => {
  [last, travelled, isSectionDragged] = [event, 0, isOnFrame(event.clientX, event.clientY)];
  view.setPointerCapture(event.pointerId);
};
view.onpointerup = event => {
  if (last && travelled < 4 && event.button === 0 && !event.shiftKey) { mark(event.clientX, event.clientY); draw(); }
  last = null;
};
view.onpointercancel = () => { last = null; };
view.onpointermove = event => {
  if (!last) { view.style.cursor = isOnFrame(event.clientX, event.clientY) ? 'move' : ''; return; }
  const x = event.clientX - last.clientX, y = event.clientY - last.clientY;
  travelled += Math.hypot(x, y);
  if (isSectionDragged) {
    dragSection(x, y);
  } else if (event.buttons & 2 || event.shiftKey) {
    const scale = 2.3 / eye.zoom / Math.min(view.clientWidth, view.clientHeight);
    eye.x += x * scale;
    eye.y -= y * scale;
  } else {
    eye.turn -= x * .008;
    eye.tilt = Math.max(-1.57, Math.min(1.57, eye.tilt + y * .008));
  }
  last = event;
  draw();
};
view.oncontextmenu = event => event.preventDefault();
view.onwheel = event => { event.preventDefault(); eye.zoom = Math.max(.2, Math.min(60, eye.zoom * Math.exp(-event.deltaY * .0012))); draw(); };
view.ondblclick = () => { eye = whole(); marks = []; find('distance').textContent = ''; draw(); };
find('axis').onchange = () => { find('other').checked = sectionAxis() >= 0 && camera().back[sectionAxis()] < 0; draw(); };
find('offset').oninput = () => { offset = Number(find('offset').value); draw(); };
for (const id of ['edges', 'triangles', 'through', 'other']) find(id).onchange = draw;
window.onresize = draw;
find('section').hidden = !cornerCount;
if (AXES.includes(given.get('axis')) && cornerCount) {
  find('axis').value = given.get('axis');
  const axis = sectionAxis();
  if (given.has('at')) offset = Math.min(1, Math.max(0, (Number(given.get('at')) - low[axis]) / (high[axis] - low[axis] || 1)));
}
draw();
</script>
</body>
</html>
";
