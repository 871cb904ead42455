// Shapes as words and as files.
use ember_io::{FileSet, SafeShelf, read_all};
use mesh_file::read_file;
use mesh_placing::{ShapeWordFault, shape_of};
use mesh_shapes::{ShapeShelf, shape_text};
use std::alloc::Global;
use std::test::Fail;

static REFUSED_SHAPES: [(&[u8], ShapeWordFault); 16] = [
    (b"box:", ShapeWordFault::NoBox),
    (b"box:0,0,0,1,1", ShapeWordFault::NoBox),
    (b"box:0,0,0,1,1,1,", ShapeWordFault::NoBox),
    (b"box:0,0,0,1,1,1,1", ShapeWordFault::NoBox),
    (b"box:0,0,0, 1,1,1", ShapeWordFault::NoBox),
    (b"box:0,0,0,1,1,x", ShapeWordFault::NoBox),
    (b"box:0,0,0,1,1,0.0000000000001", ShapeWordFault::NoBox),
    (b"box:0,0,0,1,1,1e15", ShapeWordFault::NoBox),
    (b"box:0,0,2,1,1,0.2e1", ShapeWordFault::Flat),
    (b"cylinder:0,0,0,1,1", ShapeWordFault::NoCylinder),
    (b"cylinder:0,0,0,1,z,4", ShapeWordFault::NoCylinder),
    (b"cylinder:0,0,0,0,1,4", ShapeWordFault::Radius),
    (b"cylinder:0,0,0,-1,1,4", ShapeWordFault::Radius),
    (b"cylinder:0,0,0,1,-0,4", ShapeWordFault::Height),
    (b"cylinder:0,0,0,1,1,2", ShapeWordFault::Sides),
    (b"cylinder:0,0,0,1,1,4097", ShapeWordFault::Sides),
];

#[test]
fn some_words_say_no_shape(rt: HostRuntime) {
    for &(word, fault) in &REFUSED_SHAPES {
        match shape_of(word) {
            Ok(_) => assert!(rt; false),
            Err(said) => assert!(rt; said == fault),
        }
    }
    for &word in &[b"a.stl".as_slice(), b"Box:1", b"./box:1", b"cylinder", b""] {
        assert!(rt; matches!(shape_of(word), Ok(None)));
    }
}

// The text of the shape that a word says; empty if there is none.
fn text_of(alloc: Global, word: &[u8]) -> Result<Vec<u8>, Fail> {
    if let Ok(Some(shape)) = shape_of(word) {
        if let Some(text) = shape_text(alloc, &shape)? {
            return Ok(text);
        }
    }
    Ok(Vec::new(alloc))
}

const BOX: &[u8] =
    b"OFF\n8 12 0\n0 0 0\n1 0 0\n0 2.5 0\n1 2.5 0\n0 0 -3\n1 0 -3\n0 2.5 -3\n1 2.5 -3\n\
3 0 3 2\n3 0 1 3\n3 4 7 5\n3 4 6 7\n3 0 5 1\n3 0 4 5\n3 2 3 7\n3 2 7 6\n3 0 6 4\n3 0 2 6\n3 1 7 3\n3 1 5 7\n";

const PRISM: &[u8] = b"OFF\n6 8 0\n-9 -0.05 0\n-9 -0.05 1\n-10.5 0.81602540378443864676 0\n\
-10.5 0.81602540378443864676 1\n-10.5 -0.91602540378443864676 0\n-10.5 -0.91602540378443864676 1\n\
3 0 2 3\n3 0 3 1\n3 2 4 5\n3 2 5 3\n3 4 0 1\n3 4 1 5\n3 0 4 2\n3 1 3 5\n";

#[test]
fn shapes_have_all_their_digits(rt: HostRuntime) -> Result<(), Fail> {
    let square = text_of(rt.alloc(), b"box:0,0,0,1,2.5,-3")?;
    assert!(rt; square.as_slice() == BOX);
    let prism = text_of(rt.alloc(), b"cylinder:-10,-0.05,0,1,1,3")?;
    assert!(rt; prism.as_slice() == PRISM);
    let far = text_of(rt.alloc(), b"cylinder:999999999999999,0,0,1,1,3")?;
    assert!(rt; far.is_empty());
    Ok(())
}

// The numbers of vertices and triangles that are read, whatever the file is called.
#[test]
fn texts_of_shapes_are_read(rt: HostRuntime) -> Result<(), Fail> {
    let text = text_of(rt.alloc(), b"cylinder:0,0,0,1,-1,60")?;
    if text.len() < 1_000_000 {
        match read_file(rt.alloc(), b"cylinder:0,0,0,1,-1,60", &text) {
            Ok(surface) => {
                assert!(rt; (surface.vertices.len(), surface.facets.len()) == (120, 236));
            }
            Err(_) => assert!(rt; false),
        }
    } else {
        assert!(rt; false);
    }
    Ok(())
}

#[test]
fn shapes_are_files_beside_others(rt: HostRuntime) -> Result<(), Fail> {
    let mut words = Vec::new(rt.alloc());
    words.push(String::from_str(rt.alloc(), "info")?)?;
    words.push(String::from_str(rt.alloc(), "box:0,0,0,1,2.5,-3")?)?;
    words.push(String::from_str(rt.alloc(), "box:0")?)?;
    let mut others = Vec::new(rt.alloc());
    let bytes = Vec::from_slice(rt.alloc(), b"other".as_slice())?;
    others.push((String::from_str(rt.alloc(), "a.obj")?, bytes))?;
    let below = SafeShelf::new(rt.alloc(), FileSet::of(others))?;
    let mut shelf = ShapeShelf::over(rt.alloc(), &words, below)?;
    let first = read_all(rt.alloc(), &mut shelf, "box:0,0,0,1,2.5,-3", 1, 1000)?;
    assert!(rt; first.as_slice() == BOX);
    let second = read_all(rt.alloc(), &mut shelf, "a.obj", 2, 1000)?;
    assert!(rt; second.as_slice() == b"other".as_slice());
    let third = read_all(rt.alloc(), &mut shelf, "box:0,0,0,1,2.5,-3", 3, 1000)?;
    assert!(rt; third.as_slice() == BOX);
    Ok(())
}
