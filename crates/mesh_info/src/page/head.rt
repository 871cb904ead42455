// What stands before the triangles: the style, and the panel with the counts, the key and what can be chosen.

// Before the title.
pub const HEAD: &[u8] = b"<!doctype html>
<html lang='en'>
<head>
<meta charset='utf-8'>
<meta name='viewport' content='width=device-width'>
<title>";

// After the title.
pub const PANEL: &[u8] = b"</title>
<style>
html, body { margin: 0; height: 100%; overflow: hidden; background: #1b1e24; color: #dde; font: 14px/1.5 system-ui, sans-serif }
canvas { position: absolute; width: 100%; height: 100%; touch-action: none }
#panel { position: absolute; left: 14px; top: 12px; max-width: 26em; padding: 10px 14px; border-radius: 8px; background: #000a }
h1 { margin: 0 0 6px; font-size: 15px; overflow-wrap: anywhere }
table { border-spacing: 0 }
td { padding: 0 14px 0 0 }
td + td { text-align: right; font-variant-numeric: tabular-nums }
label { margin-right: 10px; white-space: nowrap }
p { margin: 8px 0 0 }
#offset { width: 100% }
ol { margin: 8px 0 0; padding: 0; list-style: none; max-height: 40vh; overflow: auto }
li { overflow-wrap: anywhere }
i { display: inline-block; width: .8em; height: .8em; margin-right: 8px; border-radius: 2px }
#fault { color: #f99 }
</style>
</head>
<body>
<canvas id='view'></canvas>
<div id='panel'>
<h1 id='name'></h1>
<table id='counts'></table>
<ol id='key'>";

// After the names of the files.
pub const CONTROLS: &[u8] = b"</ol>
<p>
<label><input type='checkbox' id='edges' checked> edges</label>
<label><input type='checkbox' id='triangles'> triangles</label>
<label><input type='checkbox' id='through'> see through</label>
</p>
<p id='section'>
<label>section <select id='axis'><option>none<option>x<option>y<option>z</select></label>
<label><input type='checkbox' id='other'> other side</label>
<output id='coordinate'></output>
<input type='range' id='offset' min='0' max='1' step='.001' aria-label='where the section plane is'>
</p>
<p id='distance'></p>
<p>drag: turn &middot; wheel: zoom &middot; right drag or shift: move &middot; double click: all of it &middot; two clicks: their distance</p>
<p id='fault'></p>
</div>
<script>
'use strict';
// Three numbers for each corner, three corners for each triangle: binary32, the lowest byte first, in base64.
const base64 = '";

// After the corners.
pub const FILES: &[u8] = b"';
// The number of each triangle's file, from 1, in the order of the key, or 0 if it is not known: a byte each, in base64.
const fileLetters = '";
