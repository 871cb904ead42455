// What stands after the triangles: the counts, the normals and the edges.

pub const COUNTS: &[u8] = b"';
const bytesOf = letters => Uint8Array.from(atob(letters), c => c.charCodeAt(0));
const bytes = bytesOf(base64), files = bytesOf(fileLetters);
const data = new DataView(bytes.buffer);
const numbers = Float32Array.from({ length: bytes.length / 4 }, (_, i) => data.getFloat32(4 * i, true));
const cornerCount = numbers.length / 3;
const find = id => document.getElementById(id);

// ---- positions: equal corners are one
const bits = new Uint32Array(numbers.buffer);
const positionOf = new Uint32Array(cornerCount);
const positions = [];
{
  let size = 4;
  while (size < 2 * cornerCount) size *= 2;
  const table = new Int32Array(size).fill(-1);
  for (let corner = 0; corner < cornerCount; corner++) {
    const [x, y, z] = bits.subarray(3 * corner, 3 * corner + 3);
    let slot = Math.imul(Math.imul(Math.imul(x, 31) ^ y, 1000003) ^ z, 0x9e3779b1) >>> 7 & size - 1;
    for (;;) {
      const found = table[slot];
      if (found < 0) {
        table[slot] = positions.length;
        positionOf[corner] = positions.length;
        positions.push(corner);
        break;
      }
      const at = 3 * positions[found];
      if (bits[at] === x && bits[at + 1] === y && bits[at + 2] === z) {
        positionOf[corner] = found;
        break;
      }
      slot = slot + 1 & size - 1;
    }
  }
}

// ---- the box, and corners in it from -1 to 1
const low = [Infinity, Infinity, Infinity], high = [-Infinity, -Infinity, -Infinity];
numbers.forEach((n, i) => { low[i % 3] = Math.min(low[i % 3], n); high[i % 3] = Math.max(high[i % 3], n); });
const middle = low.map((n, i) => (n + high[i]) / 2);
const radius = Math.hypot(...low.map((n, i) => high[i] - n)) / 2 || 1;
const places = numbers.map((n, i) => (n - middle[i % 3]) / radius);
const placeOf = corner => places.subarray(3 * corner, 3 * corner + 3);

// ---- normals and the volume
const normals = new Float32Array(numbers.length);
let volume = 0;
for (let corner = 0; corner < cornerCount; corner += 3) {
  const [a, b, c] = [0, 1, 2].map(i => placeOf(corner + i));
  const u = [b[0] - a[0], b[1] - a[1], b[2] - a[2]], v = [c[0] - a[0], c[1] - a[1], c[2] - a[2]];
  const n = [u[1] * v[2] - u[2] * v[1], u[2] * v[0] - u[0] * v[2], u[0] * v[1] - u[1] * v[0]];
  const length = Math.hypot(...n) || 1;
  volume += (a[0] * n[0] + a[1] * n[1] + a[2] * n[2]) / 6 * radius ** 3;
  for (let i = 0; i < 9; i++) normals[3 * corner + i] = n[i % 3] / length;
}

// ---- edges: each waits for one that leads back
const waiting = new Map(), uses = new Map(), sharp = [];
for (let corner = 0; corner < cornerCount; corner++) {
  const next = corner % 3 === 2 ? corner - 2 : corner + 1;
  const from = positionOf[corner], to = positionOf[next];
  const either = Math.min(from, to) * positions.length + Math.max(from, to);
  uses.set(either, (uses.get(either) || 0) + 1);
  const back = waiting.get(to * positions.length + from);
  if (back && back.length) {
    const a = 3 * back.pop()[0], b = 3 * corner;
    const cosine = normals[a] * normals[b] + normals[a + 1] * normals[b + 1] + normals[a + 2] * normals[b + 2];
    if (cosine < Math.cos(20 * Math.PI / 180)) sharp.push(corner, next);
  } else {
    const key = from * positions.length + to;
    if (!waiting.has(key)) waiting.set(key, []);
    waiting.get(key).push([corner, next]);
  }
}
let loose = 0, shared = 0;
for (const list of waiting.values()) for (const ends of list) { loose++; sharp.push(...ends); }
for (const count of uses.values()) shared += count > 2;

// ---- files: if there are two or more, each has a colour, and a line of the key
const items = [...find('key').children], fileCount = items.length > 1 ? items.length : 0;
const fileOf = corner => files[corner / 3 | 0] <= fileCount ? files[corner / 3 | 0] : 0;

// A colour by its hue in degrees.
function colourOfHue(hue, lightness) {
  const share = n => Math.max(-1, Math.min((n + hue / 30) % 12 - 3, 9 - (n + hue / 30) % 12, 1));
  return [0, 8, 4].map(n => lightness - .85 * Math.min(lightness, 1 - lightness) * share(n));
}

// The hues of files that follow each other are far apart, and none is near that of backs.
function colourOf(file) {
  if (!file) return fileCount ? [.7, .7, .7] : [.95, .68, .38];
  return colourOfHue(32 + (file - 1) * .618034 % 1 * 250, file % 2 ? .66 : .56);
}

const colours = new Float32Array(numbers.length), countOf = new Uint32Array(fileCount + 1);
for (let corner = 0; corner < cornerCount; corner++) colours.set(colourOf(fileOf(corner)), 3 * corner);
for (let corner = 0; corner < cornerCount; corner += 3) countOf[fileOf(corner)]++;

function explain(item, file) {
  const mark = document.createElement('i');
  mark.style.background = `rgb(${colourOf(file).map(n => Math.round(255 * n)).join()})`;
  item.prepend(mark);
  item.append(`: ${countOf[file].toLocaleString('en')} ${countOf[file] === 1 ? 'triangle' : 'triangles'}`);
}

find('key').hidden = !fileCount;
if (fileCount) items.forEach((item, i) => explain(item, i + 1));
if (fileCount && countOf[0]) {
  const item = document.createElement('li');
  item.textContent = 'not known';
  explain(find('key').appendChild(item), 0);
}

// ---- the panel
const shown = n => String(Number(n.toPrecision(7)));
const rows = [['triangles', cornerCount / 3], ['positions', positions.length], ['loose edges', loose], ['edges of more than two triangles', shared]];
if (cornerCount) rows.push(['size', low.map((n, i) => shown(high[i] - n)).join(' x ')]);
if (cornerCount && !loose) rows.push(['volume', shown(volume)]);
find('name').textContent = document.title;
for (const row of rows) {
  const line = find('counts').insertRow();
  for (const cell of row) line.insertCell().textContent = typeof cell === 'number' ? cell.toLocaleString('en') : cell;
}

";
