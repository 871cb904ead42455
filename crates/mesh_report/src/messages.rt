// What the program prints of itself.

/// The answer to `help`.
pub const USAGE: &str = "\
usage: ember-mesh COMMAND -o OUT [OPTION..] FILE..
       ember-mesh snap -d DIR [OPTION..] FILE..
       ember-mesh export [--scene SCENE] -o OUT [OPTION..] DOCUMENT
       ember-mesh view -o PAGE FILE..
       ember-mesh info FILE..

commands
  union              what any of the meshes fills
  difference         what the first mesh fills and none of the others does
  intersection       what all meshes fill
  bool --expr E      where the expression E holds: m1 is inside the first mesh,
                     w1 its winding number, as in m1&!m2 and w1>=2
  snap               the meshes on their grid, as files for ember in the folder
                     DIR: 1.obj, 2.obj, .. and the grid in scene.json
  export             the mesh of a document that ember bool or --keep wrote
  view               a page for a browser, PAGE, that shows the meshes
  info               one line of JSON for each mesh: its counts, its loose
                     edges (0 if it is closed), volume and bounding box
  help, --help, -h   this text
  --version          the version

options
  -o OUT             the name of the result, which ends in .stl, .obj, .ply,
                     .off or .glb; PAGE ends in .html or .htm
  -o - --format F    the result to standard output as stl, obj, ply, off or glb
  --step S           the step of the grid on which the meshes are exact: nice
                     (if not given), finest, or a decimal above 0
  --workers N        1 to 64 (4 if not given); the solid is the same for all
  --digits N         0 to 17 decimal places in OBJ, PLY and OFF; if not given,
                     six more than the step has
  --view PAGE        also write a page for a browser that shows the result
  --keep DIR         also write what snap writes, and the document, doc.txt
  --place N:STEPS    place file N by steps with semicolons between them:
                     move=X,Y,Z, scale=S, scale=X,Y,Z, turn=AXIS,DEGREES and
                     mirror=AXIS; once for each file
  --turn N           turn file N inside out
  --scene SCENE      the scene.json of a document; without it the step is 1
                     and nothing is moved
  --json             the report, or why nothing is written, as one JSON object
  --quiet            no report

snap takes --step, export takes --format, --digits and --view, and view and info
take none; all take --json, and all but info --quiet. A folder is made if it isn't
there. No page and no file of DIR may replace a file that is read; OUT may.

FILE.. are 1 to 64 meshes in STL, OBJ, PLY, OFF or glTF files, which must be closed
but for view and info. The name - is standard input, which is read once. In place of
a file, box:X,Y,Z,X,Y,Z is a box between two corners, and an upright cylinder is
cylinder:X,Y,Z,RADIUS,HEIGHT,SIDES, with the centre of its bottom.
Each file is written whole or stays as it was, OUT as the last.
The report, or why nothing is written, goes to standard error.
";

/// The answer to `--version`. Its number is that of both programs and of their packages:
/// `tools/check_docs` compares what the documents say with it.
pub const VERSION: &str = "ember-mesh 0.3.0\n";
